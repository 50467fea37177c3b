// The refusals of whole runs.

use crate::page::Page;
use mlk_text::Code;

pub(crate) static GAVE_UP: Page = Page {
    code: Code::GaveUp,
    meaning: "the maker found no certificate",
    hint: "acquire a lock once, where the calls begin, or pass its subscript as an \
        actual",
    why: "The maker of certificates gave up at this place: what would mend the fault \
        is past a limit of certificates, or it still grew in the last round. That is \
        no fault of the program, but the program is not checked.",
    mend: "Claim a lock once, where the calls begin, and not in a routine that calls \
        itself; pass the subscript of a lock as an actual; or write the certificate \
        yourself and give it to `mlock check`.",
    before: "A DO B LOCK  QUIT\nB IF $RANDOM(2) QUIT\n DO B LOCK +^ACCT(1) QUIT",
    after: "A LOCK +^ACCT(1) DO B LOCK -^ACCT(1) QUIT\nB IF $RANDOM(2) QUIT\n DO B QUIT",
};

pub(crate) static ENTRY_MISSING: Page = Page {
    code: Code::EntryMissing,
    meaning: "a declared or certified entry that is not in the routines",
    hint: "give the entry's routine too, or remove the entry from the rule file",
    why: "The rule file declares an entry, or the certificate has a block for one, \
        that is not in the routines.",
    mend: "Give its routine too, correct the name, or remove the entry from the rule \
        file; make a certificate that has it anew.",
    before: "[[entry]]\nlabel = \"DEP^BNK\"",
    after: "[[entry]]\nlabel = \"DEP^BANK\"",
};

pub(crate) static WORKERS: Page = Page {
    code: Code::Workers,
    meaning: "no worker, or more than 64",
    hint: "give `--workers` a number from 1 to 64",
    why: "The check is done by 1 to 64 workers.",
    mend: "Give `--workers` a number from 1 to 64.",
    before: "mlock verify --workers 0 rules.toml BANK.m",
    after: "mlock verify --workers 4 rules.toml BANK.m",
};

pub(crate) static GATE_SHUT: Page = Page {
    code: Code::GateShut,
    meaning: "an entry before which the gate was shut: only for a program that calls \
        the library with a gate of its own",
    hint: "open the gate of each entry",
    why: "A worker asked for an entry, and the gate that the calling program gave \
        never let it through. `mlock` itself has no such gate.",
    mend: "Open the gate of each entry in the program that calls the library.",
    before: "a gate that always answers no",
    after: "a gate that answers yes in the end",
};
