// The refusals of lines and commands of routines.

use crate::page::Page;
use mlk_text::Code;

pub(crate) static BYTE: Page = Page {
    code: Code::Byte,
    meaning: "a byte that is not allowed at its place",
    hint: "replace it by spaces, or remove it",
    why: "A byte is not allowed at its place: a TAB, or a byte from 128 on, outside of \
        comments and texts in quotes (a TAB is allowed in a line's start too); any \
        other byte below 32, and 127, anywhere; a CR without LF.",
    mend: "Replace it by spaces, or remove it.",
    before: " SET X=1<TAB>; note",
    after: " SET X=1 ; note",
};

pub(crate) static LINE_FORM: Page = Page {
    code: Code::LineForm,
    meaning: "a label, a formal list or a line start of a wrong form",
    hint: "give the second formal another name, close the list, or begin a line \
        without a label with a space",
    why: "A label, its formal list, or the text after them has a wrong form; a formal \
        is repeated; or a deeper line has a label.",
    mend: "Give the second formal another name, close the list, or begin a line without a \
        label with a space.",
    before: "PAY(ID,ID) QUIT",
    after: "PAY(ID,SUM) QUIT",
};

pub(crate) static LABEL_TWICE: Page = Page {
    code: Code::LabelTwice,
    meaning: "two lines have the same label",
    hint: "rename one of the two labels, and its calls",
    why: "An earlier line of the routine has the same label, so a call of it could \
        mean either.",
    mend: "Rename one of them, and its calls.",
    before: "PAY QUIT\nPAY QUIT",
    after: "PAY QUIT\nPAYOUT QUIT",
};

pub(crate) static LEVEL_JUMP: Page = Page {
    code: Code::LevelJump,
    meaning: "a line more than one level deeper than the line before",
    hint: "remove periods, or put the line with its DO between the two",
    why: "A line has at least two periods more than the line before it, or the first \
        line of a routine has one.",
    mend: "Remove periods, or put the line with its DO between them.",
    before: " DO\n .. SET X=1",
    after: " DO\n . SET X=1",
};

pub(crate) static UNKNOWN_COMMAND: Page = Page {
    code: Code::UnknownCommand,
    meaning: "a word that is no command",
    hint: "write the command's word whole or as its short form",
    why: "No command has this word, or no command begins with this byte.",
    mend: "Write the word whole or as its short form.",
    before: " SETT X=1",
    after: " SET X=1",
};

pub(crate) static COMMAND_LEFT_OUT: Page = Page {
    code: Code::CommandLeftOut,
    meaning: "a command that `mlock` does not read; its full word is named",
    hint: "use commands that `mlock` reads, or leave the routine out of the check",
    why: "`mlock` does not read this command of M, since what it does is known only at \
        run time or differs between systems; its whole word is named.",
    mend: "Use commands that it reads, such as DO and QUIT instead of GOTO, or leave \
        the routine out of the check.",
    before: " GOTO A",
    after: " DO A QUIT",
};

pub(crate) static ARGUMENT_FORM: Page = Page {
    code: Code::ArgumentForm,
    meaning: "an argument of a wrong form",
    hint: "write the missing name, `=` or parenthesis",
    why: "An argument has a form that its command does not take, or is missing after \
        the space or the comma.",
    mend: "Write the missing name, `=` or parenthesis.",
    before: " KILL ()",
    after: " KILL (ID)",
};

pub(crate) static SPACING: Page = Page {
    code: Code::Spacing,
    meaning: "a space too many or too few after a command",
    hint: "write one space before arguments, and two after a command without arguments",
    why: "A command without arguments is followed by two spaces before the next \
        command. Arguments come after one space, and are followed by spaces, a comment \
        or the line's end.",
    mend: "Add or remove a space.",
    before: " ELSE QUIT",
    after: " ELSE  QUIT",
};

pub(crate) static BLOCK_UNREACHED: Page = Page {
    code: Code::BlockUnreached,
    meaning: "a block whose head line has no argumentless DO",
    hint: "add the DO to the line before, or remove the periods",
    why: "A deeper line follows a line without an argumentless DO, so nothing runs it. \
        An empty line and a comment in column 1 are such lines too.",
    mend: "Add the DO, or remove the periods.",
    before: " SET X=1\n . SET Y=2",
    after: " SET X=1 DO\n . SET Y=2",
};

pub(crate) static TOO_LARGE: Page = Page {
    code: Code::TooLarge,
    meaning: "a routine past one of its limits: bytes, lines, levels, FORs on a line",
    hint: "cut the routine in two, or put the inner blocks or FORs under a label of their \
        own",
    why: "A routine has more than 1 MiB or 65,535 lines (the place is 1:1), a line of \
        level 16 (its column 1), or 256 FORs on a line (the word of the last).",
    mend: "Cut the routine in two, or put the inner blocks or FORs under a label of their \
        own.",
    before: " F  F  F  ..             256 times",
    after: " FOR I=1:1:9 DO ROW(I)",
};

pub(crate) static ROUTINE_NAME: Page = Page {
    code: Code::RoutineName,
    meaning: "a file whose name is no routine's name",
    hint: "rename the file: `%` or `_` or a letter, then letters and digits, 31 at most",
    why: "The file's name up to its last dot is no name. A name is `%` or `_` or a \
        letter, then letters and digits, 31 at most. The place shows the file's name \
        as it is.",
    mend: "Rename the file.",
    before: "9.m",
    after: "WARD9.m",
};
