// The refusals of linking.

use crate::page::Page;
use mlk_text::Code;

pub(crate) static ROUTINE_TWICE: Page = Page {
    code: Code::RoutineTwice,
    meaning: "two routines with the same name",
    hint: "give only one of the files",
    why: "Two routines have the same name, such as the files `A.m` of two folders, or \
        `_A.m` and `%A.m`, so a call of it could mean either. The place is the second \
        one.",
    mend: "Give only one of them.",
    before: "A.m, A.m",
    after: "A.m",
};

pub(crate) static UNKNOWN_LABEL: Page = Page {
    code: Code::UnknownLabel,
    meaning: "a call of a label that is not in the called routine, or of a routine \
        that is not given or has no line",
    hint: "correct the name, or give the routine too, or the stub that `mlock stubs` writes for it",
    why: "A DO, a JOB or a `$$` names a label that is not in its routine, or a routine \
        that was not given.",
    mend: "Correct the name, or give the routine too: everything that a job may run \
        has to be there. If you can't give it, give a stub in its place, which \
        `mlock stubs` writes.",
    before: " DO X",
    after: " DO B\nB QUIT",
};

pub(crate) static ARITY: Page = Page {
    code: Code::Arity,
    meaning: "a call whose actuals do not fit the label's formals",
    hint: "give the label a formal list, or the call the actuals that it takes",
    why: "A call has an actual list, perhaps `()`, and its label has no formal list; \
        or it has none, and its label has formals; or there are more actuals than \
        formals. A call without a list fits the empty formal list `()`. Fewer actuals \
        than formals are right: the formals left over have no value.",
    mend: "Give the label a formal list, or the call the actuals that it takes.",
    before: " DO B(1)\nB QUIT",
    after: " DO B(1)\nB(N) QUIT",
};

pub(crate) static TOO_MANY: Page = Page {
    code: Code::TooMany,
    meaning: "more than 65,535 routines or 1,048,575 entries",
    hint: "check parts that don't call each other separately",
    why: "More than 65,535 routines, or more than 1,048,575 entries (labels, and first \
        lines without one). The place is the first routine past the limit.",
    mend: "Check parts that don't call each other separately.",
    before: "mlock verify rules.toml all/*.m",
    after: "mlock verify rules.toml bank/*.m",
};
