// Why there is no report, for other programs.

use mlk_cli::ProgramRequest;
use mlk_forms::{Notice, NoticePlace};
use mlk_outcome::NoReport;
use mlk_refusal_lines::refusal_code;
use mlk_refusal_text::{GivenFile, Spot};

// A place in the file at a path.
fn place_at(path: &str, spot: Spot) -> NoticePlace<'_> {
    NoticePlace {
        path,
        line: spot.line,
        column: spot.column,
    }
}

/// Makes the notice of a refusal, whose line on the error stream is `line`, in `file` and at `spot` there; `None` if it has no
/// code.
pub(crate) fn notice_of<'a>(
    refusal: &NoReport,
    program: &ProgramRequest<'a>,
    line: &'a [u8],
    file: GivenFile<'a>,
    spot: Option<Spot>,
) -> Option<Notice<'a>> {
    let GivenFile { path, text } = file;
    let code = refusal_code(refusal)?;
    let line = match line.split_last() {
        Some((_, words)) => words,
        None => line,
    };
    let place = match spot {
        Some(spot) => Some(place_at(path, spot)),
        None => None,
    };
    Some(Notice {
        code,
        line,
        place,
        text,
        file: program.rules,
    })
}
