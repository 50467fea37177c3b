// The routines that the words name: files, those below folders, and those that a file lists.

ghost use Rattle.std.specs.Prelude.{◌≡◌, ◌++◌, ◌∷◌, [], List, ℕ, Option, IfOk, IfErr, OnOk, is_some};
ghost use Rattle.mlk_cli.specs.CommandLine.{bytes_of, texts_of};
ghost use Rattle.mlk_files.specs.Files.{AreFound, Loses, LosesPath, or_itself};
ghost use Rattle.mlk_files.specs.Named.{IsWithRoutines, MayList, named_paths};

use crate::source::{FileError, Files};
use mlk_cli::{ProgramRequest, Request, StubsRequest, SuggestRequest, SurveyRequest};
use std::alloc::{AllocError, Global};
use std::io::ErrorKind;

// The paths of the routines that a request names.
fn named_paths<'r, 'a>(request: &'r Request<'a>) -> &'r [&'a str]
    ensures { bytes_of result.now ≡ named_paths request.now }
{
    match request {
        Request::Program(program) => program.routines.as_slice(),
        Request::Survey(survey) => survey.routines.as_slice(),
        Request::Suggest(suggestion) => suggestion.routines.as_slice(),
        Request::Stubs(stubs) => stubs.routines.as_slice(),
        Request::Convert { .. } | Request::Explain(_) => &[],
    }
}

// Appends the lines of a list, but for empty ones.
fn push_lines<'a>(paths: &mut Vec<&'a str>, list: &'a str) -> Result<(), AllocError>
    ensures { OnOk result ((more : List (List ℕ)) × (bytes_of paths.new.items ≡ bytes_of paths.old.items ++ more)) }
{
    for line in list.lines() {
        if !line.is_empty() {
            let Ok(()) = paths.push(line) else {
                return Err(AllocError);
            };
        }
    }
    Ok(())
}

/// The text of a list of routines, if there is one. What is no UTF-8 in it is part of a path at which there is no file.
pub fn list_of(alloc: Global, text: &Option<Vec<u8>>) -> Result<Option<String>, AllocError>
    ensures { IfOk result (λ list. is_some list ≡ is_some text.now) }
{
    match text {
        Some(text) => Ok(Some(String::from_utf8_lossy(alloc, text.as_slice())?)),
        None => Ok(None),
    }
}

/// The paths that a request names, and after them those of `list`, a path a line.
pub fn all_paths<'a>(
    alloc: Global,
    request: &Request<'a>,
    list: &'a Option<String>,
) -> Result<Vec<&'a str>, AllocError>
    ensures { IfOk result (λ paths. (listed : List (List ℕ)) × MayList (is_some list.now) listed
        × (bytes_of paths.items ≡ named_paths request.now ++ listed)) }
{
    let mut paths = Vec::from_slice(alloc, named_paths(request))?;
    match list {
        Some(list) => push_lines(&mut paths, list.as_str())?,
        None => {}
    }
    Ok(paths)
}

// Appends the routines at a path: that path, or, if it is a folder's, all below it.
fn push_found<'a, F: Files>(
    alloc: Global,
    files: &F,
    path: &'a str,
    found: &mut Vec<String>,
) -> Result<(), FileError<'a>>
    ensures ok { OnOk result ((at : Option (List (List ℕ))) × F.below files.now path.now at
        × (texts_of found.new.items ≡ texts_of found.old.items ++ or_itself path.now at)) }
    ensures lost { IfErr result (Loses (F.unreadable files.now) path.now) }
{
    let added = match files.routines_below(alloc, path) {
        Ok(Some(below)) => {
            let mut below = below;
            found.append(&mut below)
        }
        Ok(None) => push_path(alloc, path, found),
        Err(error) => {
            if error.kind() == ErrorKind::OutOfMemory {
                return Err(FileError::OutOfMemory);
            }
            return Err(FileError::Unread(path));
        }
    };
    match added {
        Ok(()) => Ok(()),
        Err(AllocError) => Err(FileError::OutOfMemory),
    }
}

// Appends a path.
fn push_path(alloc: Global, path: &str, found: &mut Vec<String>) -> Result<(), AllocError>
    ensures { OnOk result (texts_of found.new.items ≡ texts_of found.old.items ++ path.now ∷ []) }
{
    let path = String::from_str(alloc, path)?;
    found.push(path)?;
    Ok(())
}

/// Finds the routines at these paths: of a folder all below it.
pub fn find_routines<'a, F: Files>(
    alloc: Global,
    files: &F,
    paths: &[&'a str],
) -> Result<Vec<String>, FileError<'a>>
    ensures ok { IfOk result (λ found. AreFound (F.below files.now) (bytes_of paths.now) (texts_of found.items)) }
    ensures lost { IfErr result (LosesPath (F.unreadable files.now)) }
{
    let mut found = Vec::new(alloc);
    for path in paths {
        push_found(alloc, files, *path, &mut found)?;
    }
    Ok(found)
}

/// The paths that were found, as a request has them.
pub fn found_paths(alloc: Global, found: &[String]) -> Result<Vec<&str>, AllocError>
    ensures { IfOk result (λ paths. bytes_of paths.items ≡ texts_of found.now) }
{
    let mut paths = Vec::with_capacity(alloc, found.len())?;
    for path in found {
        let Ok(()) = paths.push(path.as_str()) else {
            return Err(AllocError);
        };
    }
    Ok(paths)
}

/// The request with these routines in place of those that it names.
pub fn with_routines<'r>(request: Request<'r>, routines: Vec<&'r str>) -> Request<'r>
    ensures { IsWithRoutines request.entry (bytes_of routines.entry.items) result }
{
    match request {
        Request::Program(program) => Request::Program(ProgramRequest {
            routines,
            ..program
        }),
        Request::Survey(survey) => Request::Survey(SurveyRequest { routines, ..survey }),
        Request::Suggest(suggestion) => Request::Suggest(SuggestRequest {
            routines,
            ..suggestion
        }),
        Request::Stubs(stubs) => Request::Stubs(StubsRequest { routines, ..stubs }),
        other => other,
    }
}
