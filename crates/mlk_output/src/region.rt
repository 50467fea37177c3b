// Where a finding is: the file, and the region of its line.

use crate::hash::HashedLine;
use crate::notice::NoticePlace;
use crate::path::{is_absolute, uri};
use bstr::ByteSlice;
use mlk_excerpts::{character_column, token_at};
use mlk_report_text::{Field, member, object};
use mlk_text::Column;
use serde_json::Value;
use std::alloc::{AllocError, Global};

/// The folder that relative paths begin in.
pub(crate) const ROOT: &str = "%SRCROOT%";

// A file by its path.
fn artifact_value(alloc: Global, path: &str) -> Result<Value, AllocError> {
    let root = if is_absolute(path) {
        Field::Absent
    } else {
        Field::Text(ROOT)
    };
    let uri = uri(alloc, path)?;
    let members = vec![in alloc; ("uri", Field::Text(uri.as_str())), ("uriBaseId", root)]?;
    object(alloc, members)
}

// The columns in characters of the token at a column of a line: that of its first character, and that after its last.
fn columns(line: &[u8], column: Column) -> (usize, usize) {
    let start = character_column(line, column);
    let end = start.saturating_add(token_at(line, column).chars().count());
    (start, end)
}

fn region_value(
    alloc: Global,
    place: &NoticePlace<'_>,
    line: Option<HashedLine<'_>>,
) -> Result<Value, AllocError> {
    let (start, end) = match (place.column, line) {
        (Some(column), Some(line)) => {
            let (start, end) = columns(line.line, column);
            (Field::Number(start), Field::Number(end))
        }
        _ => (Field::Absent, Field::Absent),
    };
    let members = vec![in alloc;
        ("startLine", Field::Number(place.line.number() as usize)),
        ("startColumn", start),
        ("endColumn", end),
    ]?;
    object(alloc, members)
}

/// A place in a file: its line, and the columns of the token there in `line`, the text of that line. Without this text no column
/// is known in characters.
pub(crate) fn physical_value(
    alloc: Global,
    place: &NoticePlace<'_>,
    line: Option<HashedLine<'_>>,
) -> Result<Value, AllocError> {
    let artifact = artifact_value(alloc, place.path)?;
    let region = region_value(alloc, place, line)?;
    let members = vec![in alloc;
        ("artifactLocation", Field::Value(artifact)),
        ("region", Field::Value(region)),
    ]?;
    object(alloc, members)
}

/// A file as a whole.
pub(crate) fn file_value(alloc: Global, path: &str) -> Result<Value, AllocError> {
    let artifact = artifact_value(alloc, path)?;
    member(alloc, "artifactLocation", Field::Value(artifact))
}
