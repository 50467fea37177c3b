// The refusals of certificates.

use crate::page::Page;
use mlk_text::Code;

pub(crate) static HEAD: Page = Page {
    code: Code::Head,
    meaning: "a certificate without its head line",
    hint: "begin the file with the line `mlock-cert 1` or `mlock-cert 2`",
    why: "The first line is not the head, so the certificate's format is not known.",
    mend: "Begin it with `mlock-cert 1` or `mlock-cert 2`, or let `mlock make` write a new \
        one.",
    before: "entry TAKE^ONE",
    after: "mlock-cert 1\nentry TAKE^ONE",
};

pub(crate) static FORM: Page = Page {
    code: Code::Form,
    meaning: "a line of a wrong form in a certificate",
    hint: "write the line as `mlock make` does, or let it write a new certificate",
    why: "A line has a wrong form, a number is outside of its range, or something \
        comes after the line `end`.",
    mend: "Write the line as `mlock make` does, or let it write a new certificate.",
    before: "at 2 T=* H=- O=- K=- S=-",
    after: "at 2.0 T=* H=- O=- K=- S=-",
};

pub(crate) static ORDER: Page = Page {
    code: Code::Order,
    meaning: "lines or items of a certificate out of order",
    hint: "put the lines and their items in their order, each once",
    why: "Items, exits, points, cases or their numbers are out of order, or one is \
        repeated: a certificate has only one text.",
    mend: "Put them in their order, each once, or let `mlock make` write a new certificate.",
    before: "at 3.0 T=* H=- O=- K=- S=-\nat 2.0 T=* H=- O=- K=- S=-",
    after: "at 2.0 T=* H=- O=- K=- S=-\nat 3.0 T=* H=- O=- K=- S=-",
};

pub(crate) static ENTRY_TWICE: Page = Page {
    code: Code::EntryTwice,
    meaning: "two blocks of a certificate with one entry text",
    hint: "keep one block for the entry",
    why: "An earlier block has the same entry, so the entry would have two summaries.",
    mend: "Keep one of the two.",
    before: "entry TAKE^ONE\nentry TAKE^ONE",
    after: "entry TAKE^ONE\nentry GIVE^ONE",
};

pub(crate) static CERT_LIMIT: Page = Page {
    code: Code::CertLimit,
    meaning: "a certificate past one of its limits",
    hint: "list fewer cases or items, or check parts of the program separately",
    why: "The certificate, or what `make` or `convert` would print, has more cases, \
        exits or items than the limits allow, or more than 64 MiB (the place is line \
        1).",
    mend: "List fewer cases, let a case say less so that it includes others, or check \
        parts of the program separately.",
    before: "16 cases of `at 2.0` and one more",
    after: "`at 2.0` with fewer kept names, in 16 cases",
};

pub(crate) static NO_END: Page = Page {
    code: Code::NoEnd,
    meaning: "a certificate that ends before its end line",
    hint: "copy the certificate whole, with its last line `end`",
    why: "The text ends before a whole line `end`, as when a file was cut. The place \
        is the number of whole lines.",
    mend: "Copy it whole, with its last line `end` and the line feed after it, or let \
        `mlock make` write a new one.",
    before: "mlock-cert 1",
    after: "mlock-cert 1\nend",
};

pub(crate) static CASE_UNUSED: Page = Page {
    code: Code::CaseUnused,
    meaning: "a case at the front of a certificate that no point uses",
    hint: "remove the case, or use its number at a point",
    why: "In the second format cases come at the front, and no point uses this one: a \
        certificate has only one text.",
    mend: "Remove the case and renumber the others, or let `mlock convert --format 2` \
        write it from the first format.",
    before: "a case at the front, and no point with its number",
    after: "only cases that a point uses",
};
