// Parts of M that are not read, and what to write instead.

use mlk_report_text::Piece::{Bytes, Words};
use mlk_report_text::text_of;
use mlk_text::LeftOut;
use std::alloc::{AllocError, Global};

/// Describes the part of M that is not read. `token` is the text at the place, and names a function or a special variable.
pub(crate) fn left_out_text(
    alloc: Global,
    left_out: &LeftOut,
    token: &[u8],
) -> Result<Vec<u8>, AllocError> {
    let words = match left_out {
        LeftOut::Indirection => "indirection is not read",
        LeftOut::Naked => "a naked reference is not read",
        LeftOut::Environment => "an environment is not read",
        LeftOut::Ssvn => "a structured system variable is not read",
        LeftOut::External => "an external call is not read",
        LeftOut::Offset => "an offset after a label is not read",
        LeftOut::Order => "the order of evaluation is not fixed here",
        LeftOut::GlobalRead => "READ into a global is not read",
        LeftOut::ForVariable => "a FOR variable with subscripts is not read",
        LeftOut::QuitValue => "QUIT with a value is not read in a FOR or a block",
        LeftOut::Timeout => "a timeout is not read here",
        LeftOut::Function | LeftOut::Special => {
            return text_of(alloc, &[Bytes(token), Words(" is not read here")]);
        }
        LeftOut::Command(word) => {
            return text_of(alloc, &[Bytes(word.as_bytes()), Words(" is not read")]);
        }
    };
    text_of(alloc, &[Words(words)])
}

// What to write instead of a command.
fn command_help(word: &[u8]) -> &'static str {
    match word {
        b"GOTO" => "write DO and QUIT instead, such as DO NEXT QUIT for GOTO NEXT, or IF and ELSE",
        b"XECUTE" => "write the commands themselves, or call a label that has them",
        b"TSTART" | b"TCOMMIT" | b"TROLLBACK" | b"TRESTART" => {
            "acquire the locks of what the transaction touches, and remove it"
        }
        b"OPEN" | b"USE" | b"CLOSE" => {
            "leave the routine and what calls it out of the check, or check a copy without the command"
        }
        b"BREAK" => "remove it: it is for debugging",
        _ => "use commands that `mlock` reads, or leave the routine out of the check",
    }
}

/// What to write instead of a part of M that is not read.
pub(crate) fn left_out_help(left_out: &LeftOut) -> &'static str {
    match left_out {
        LeftOut::Indirection => {
            "write the name itself, or a branch for each name: what is meant is known only at run time"
        }
        LeftOut::Naked => "write the global's name and all its subscripts",
        LeftOut::Environment =>
            "write the name of the global or the routine without an environment",
        LeftOut::Ssvn => "leave the routine out of the check, or keep what it asks for in a global",
        LeftOut::External => "call a routine of M instead, or leave the routine out of the check",
        LeftOut::Offset => "give that line a label of its own, and call it",
        LeftOut::Function => {
            "these are read: $ASCII $CHAR $DATA $EXTRACT $FIND $FNUMBER $GET $JUSTIFY $LENGTH $NAME $ORDER $PIECE \
            $QLENGTH $QSUBSCRIPT $QUERY $RANDOM $REVERSE $SELECT $TRANSLATE"
        }
        LeftOut::Special => {
            "these are read, but not set or made new: $DEVICE $HOROLOG $IO $JOB $KEY $PRINCIPAL $QUIT $STORAGE \
            $SYSTEM $TEST $X $Y"
        }
        LeftOut::Order => {
            "move the call, or the global reference, into a SET of its own before, and use its local here"
        }
        LeftOut::GlobalRead => "READ into a local, and SET the global from it",
        LeftOut::ForVariable => "count by a local without subscripts",
        LeftOut::QuitValue =>
            "SET a local, QUIT, and QUIT with that local after the FOR or the block",
        LeftOut::Timeout => "remove the timeout",
        LeftOut::Command(word) => command_help(word.as_bytes()),
    }
}
