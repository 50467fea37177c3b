// Routines as their lines are shown.

use mlk_cli::ProgramRequest;
use mlk_files::Sources;
use mlk_reading::Source;
use mlk_replay_text::ShownRoutine;
use std::alloc::{AllocError, Global};

// A routine as its lines are shown, from its text and the text that is read.
fn shown_routine<'t>(
    path: &'t str,
    source: &'t Source<'t>,
    read: &'t Source<'t>,
) -> ShownRoutine<'t> {
    ShownRoutine {
        path,
        text: source.text.as_slice(),
        plain: read.text.as_slice(),
    }
}

/// The routines of `request`, as their lines are shown, in the order of their paths.
pub fn shown_routines<'t>(
    alloc: Global,
    request: &'t ProgramRequest<'t>,
    sources: &'t Sources<'t>,
) -> Result<Vec<ShownRoutine<'t>>, AllocError> {
    let mut texts = Vec::new(alloc);
    let read = sources.as_read();
    for (at, path) in request.routines.iter().enumerate() {
        if let (Some(source), Some(read)) = (sources.routines.get(at), read.get(at)) {
            texts.push(shown_routine(*path, source, read))?;
        }
    }
    Ok(texts)
}
