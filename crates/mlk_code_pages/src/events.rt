// The refusals of files of events.

use crate::page::Page;
use mlk_text::Code;

pub(crate) static NOT_ENABLED: Page = Page {
    code: Code::NotEnabled,
    meaning: "an event that can't happen at that moment",
    hint: "end the file before this line, and look at what is printed: it shows who \
        holds the name",
    why: "The job can't do this now: its number is used, its entry is not declared, it \
        ended, was aborted or is stuck, or it claims a name that another job holds.",
    mend: "End the file before the line, and look at what is printed: it shows who \
        holds the name.",
    before: "begin 1 COUNT^WARD 0 \"B2\"\nbegin 1 COUNT^WARD 0 \"B2\"",
    after: "begin 1 COUNT^WARD 0 \"B2\"\nbegin 2 COUNT^WARD 0 \"B2\"",
};

pub(crate) static BAD_CHOICE: Page = Page {
    code: Code::BadChoice,
    meaning: "a choice of the wrong kind, or more values than formals",
    hint: "give a value to a job that reads or chooses, and none to one that writes or \
        claims",
    why: "The step takes a value and none was given, or it takes none and one was; a truth \
        is given where a value is taken; or a job begins with more values than its entry \
        has formals.",
    mend: "End the file before the line, and look at what is printed: `choice`, `reads` and \
        `timed` take a value, `writes`, `releases` and `claims` none.",
    before: "begin 1 COUNT^WARD 0 \"B2\"\nrun 1\ngo 1",
    after: "begin 1 COUNT^WARD 0 \"B2\"\nrun 1\ngo 1 \"41\"",
};

pub(crate) static UNKNOWN_JOB: Page = Page {
    code: Code::UnknownJob,
    meaning: "an event of a job that never began",
    hint: "put the `begin` of the job before this line",
    why: "No job with this number has begun.",
    mend: "Put its `begin` before the line.",
    before: "run 1",
    after: "begin 1 COUNT^WARD 0 \"B2\"\nrun 1",
};

pub(crate) static EVENT_FORM: Page = Page {
    code: Code::EventForm,
    meaning: "a line of a wrong form in a file of events, or a job that begins at an \
        entry that is not in the routines",
    hint: "look for two spaces, a value without quotes, a carriage return, an empty line or \
        a leading zero",
    why: "The line is no event, or a `begin` names an entry that is not in the \
        routines. Nothing has been replayed yet.",
    mend: "Look for two spaces, a value without quotes, a carriage return, an empty line, a \
        leading zero, or a last line without its line feed.",
    before: "go 1 41",
    after: "go 1 \"41\"",
};
