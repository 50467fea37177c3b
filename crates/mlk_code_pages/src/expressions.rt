// The refusals of expressions.

use crate::page::Page;
use mlk_text::Code;

pub(crate) static EXPR_FORM: Page = Page {
    code: Code::ExprForm,
    meaning: "an expression is missing or broken off here, or followed by something \
        that can't end one",
    hint: "write the missing operand, close the parenthesis or the quote, or remove \
        what comes after",
    why: "An operand is missing, or the text after an expression can't follow it.",
    mend: "Write the missing operand, close the parenthesis or the quote, or remove \
        the text.",
    before: " SET X=Y+",
    after: " SET X=Y+1",
};

pub(crate) static EXPR_LEFT_OUT: Page = Page {
    code: Code::ExprLeftOut,
    meaning: "a part of M that `mlock` does not read; a word says which",
    hint: "write it in another way, or leave the routine out of the check",
    why: "The text is M, but `mlock` does not read this part of M, since what it does \
        is known only at run time or differs between systems; the word names it.",
    mend: "Write it in another way, such as the name itself instead of an indirection, \
        or leave the routine out of the check.",
    before: " SET X=@Y",
    after: " SET X=^CONF(Y)",
};

pub(crate) static EXPR_DEEP: Page = Page {
    code: Code::ExprDeep,
    meaning: "an expression is nested more than 64 deep",
    hint: "assign an inner expression to a local first",
    why: "Expressions are nested more than 64 deep; each parenthesis, subscript, \
        argument and sign counts.",
    mend: "Assign an inner one to a local first.",
    before: " SET X=((((..1..))))     64 parentheses on each side",
    after: " SET Y=1 SET X=Y",
};

pub(crate) static NAME_LONG: Page = Page {
    code: Code::NameLong,
    meaning: "a name has more than 31 characters",
    hint: "shorten the name everywhere",
    why: "A name has more than 31 characters. Systems differ on how many they compare, \
        so two long names may be one.",
    mend: "Shorten it everywhere.",
    before: " SET ABCDEFGHIJKLMNOPQRSTUVWXYZ123456=1",
    after: " SET ALPHABET=1",
};
