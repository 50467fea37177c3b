// The files that a command names.

ghost use Rattle.std.specs.Prelude.{◌≡◌, ◌≢◌, List, ℕ, Option, IfOk, IfErr};
ghost use Rattle.std.specs.IoError.{error_kind};
ghost use Rattle.mlk_files.specs.Files.{IsFileName, IsNameStem, IsPathStem, IsSource, AreSources, IsWork, IsGivenText, AreTexts};
ghost use Rattle.mlk_files.specs.Files.{cert_format, given_path, work_path, program_paths, texts_below, AreEvents, events_path};
ghost use Rattle.mlk_files.specs.Files.{Loses, LosesFirst};
ghost use Rattle.mlk_files.specs.Dialects.{as_read, rests_of};
ghost use Rattle.mlk_cli.specs.CommandLine.{bytes_of};

use crate::dialect::{PlainSources, plain_in};
use mlk_cert::CertFormat;
use mlk_cli::{Asked, Format, ProgramRequest};
use mlk_dialect::Dialect;
use mlk_reading::Source;
use mlk_suggest_read::RoutineText;
use mlk_text::push_sparing;
use std::alloc::{AllocError, Global};
use std::io::{self, ErrorKind};
use thiserror::Error;

/// Where the texts of files come from.
pub trait Files {
    // Which text a path may have, as far as is known.
    ghost holds: { Self → List ℕ → List ℕ → Type 0 } = { λ _ _ _. Unit {0} };

    // Which routines a path may have below it; `None` if it is no folder.
    ghost below: { Self → List ℕ → Option (List (List ℕ)) → Type 0 } = { λ _ _ _. Unit {0} };

    // Which paths may have none that can be read.
    ghost unreadable: { Self → List ℕ → Type 0 } = { λ _ _. Unit {0} };

    /// The bytes of the file at a path. An error of the kind `OutOfMemory` says nothing of the file.
    fn read(&self, alloc: Global, path: &str) -> io::Result<Vec<u8>>
        ensures ok { IfOk result (λ text. holds self.now path.now text.items) }
        ensures err { IfErr result (λ e. error_kind e ≢ ErrorKind.OutOfMemory → unreadable self.now path.now) };

    /// The paths of the routines below the folder at a path, in their order; `None` if there is no folder. An error of the kind
    /// `OutOfMemory` says nothing of the folder.
    fn routines_below(&self, alloc: Global, path: &str) -> io::Result<Option<Vec<String>>>
        ensures ok { IfOk result (λ found. below self.now path.now (texts_below found)) }
        ensures err { IfErr result (λ e. error_kind e ≢ ErrorKind.OutOfMemory → unreadable self.now path.now) };

    /// Writes a file at a path. Nothing says what it holds then.
    fn write(&self, path: &str, text: &[u8]) -> io::Result<()>;

    /// Shows a text to a person, and returns the line that is entered, without its end; `None` at the end of the input. Nothing
    /// says which line it is.
    fn ask(&self, alloc: Global, shown: &[u8]) -> io::Result<Option<Vec<u8>>>;
}

/// What is to be done with a program, with the texts that it takes.
#[derive(Drop)]
pub enum Work {
    /// the check by this text of a certificate, by this number of workers
    Check { certificate: Vec<u8>, workers: u32 },
    /// a certificate is made, and its text has this format
    Make { format: CertFormat },
    /// the check by the certificate that is made, by this number of workers
    Verify { workers: u32 },
    /// the events of this text are replayed
    Replay(Vec<u8>),
}

/// The texts of the files that a command names.
#[derive(Drop)]
pub struct Sources<'a> {
    /// what is to be done, with the text that it takes
    pub work: Work,
    /// the text of the rule file
    pub rules: Vec<u8>,
    /// the texts of the routines, in the order of their paths
    pub routines: Vec<Source<'a>>,
    /// the routines as they are read, unless that is by these texts
    pub plain: Option<PlainSources<'a>>,
    /// the text of the faults that are known, if it is given
    pub baseline: Option<Vec<u8>>,
}

impl<'a> Sources<'a> {
    /// The routines as they are read.
    pub fn as_read(&self) -> &[Source<'a>]
        ensures { result.now ≡ as_read self.now }
    {
        match &self.plain {
            Some(plain) => plain.sources.as_slice(),
            None => self.routines.as_slice(),
        }
    }

    /// How much of M is read.
    pub fn dialect(&self) -> Dialect {
        match &self.plain {
            Some(_) => Dialect::Extended,
            None => Dialect::Standard,
        }
    }

    /// On how many words a report rests that are read as any value; `None` if no such word is read.
    pub fn rests(&self) -> Option<usize>
        ensures { result ≡ rests_of self.now }
    {
        match &self.plain {
            Some(plain) => Some(plain.inert),
            None => None,
        }
    }
}

/// Why a file was not read.
#[derive(Debug, Drop, Error)]
pub enum FileError<'a> {
    #[error("out of memory")]
    OutOfMemory,
    /// The path of the file.
    #[error("{0} can't be read")]
    Unread(&'a str),
}

fn file_name(path: &str) -> &str
    ensures { IsFileName path.now result.now }
{
    match path.rsplit_once('/') {
        None => path,
        Some((_, name)) => name,
    }
}

fn name_stem(name: &str) -> &str
    ensures { IsNameStem name.now result.now }
{
    match name.rsplit_once('.') {
        None => name,
        Some((stem, _)) => stem,
    }
}

/// The last part of a path, up to its last dot; all of it where it has none.
pub(crate) fn stem_of(path: &str) -> &str
    ensures { IsPathStem path.now result.now }
{
    name_stem(file_name(path))
}

/// The text of the file at a path.
pub fn read_file<'a, F: Files>(
    alloc: Global,
    files: &F,
    path: &'a str,
) -> Result<Vec<u8>, FileError<'a>>
    ensures ok { IfOk result (λ text. F.holds files.now path.now text.items) }
    ensures lost { IfErr result (Loses (F.unreadable files.now) path.now) }
{
    match files.read(alloc, path) {
        Ok(text) => Ok(text),
        Err(error) => {
            if error.kind() == ErrorKind::OutOfMemory {
                Err(FileError::OutOfMemory)
            } else {
                Err(FileError::Unread(path))
            }
        }
    }
}

fn read_source<'a, F: Files>(
    alloc: Global,
    files: &F,
    path: &'a str,
) -> Result<Source<'a>, FileError<'a>>
    ensures ok { IfOk result (IsSource (F.holds files.now) path.now) }
    ensures lost { IfErr result (Loses (F.unreadable files.now) path.now) }
{
    let text = read_file(alloc, files, path)?;
    let stem = stem_of(path).as_bytes();
    Ok(Source {
        dialect: Dialect::Standard,
        stem,
        text,
    })
}

/// The texts of routines, in the order of their paths.
pub fn read_sources<'a, F: Files>(
    alloc: Global,
    files: &F,
    paths: &[&'a str],
) -> Result<Vec<Source<'a>>, FileError<'a>>
    ensures ok { IfOk result (λ sources. AreSources (F.holds files.now) paths.now sources.items) }
    ensures lost { IfErr result (LosesFirst (F.holds files.now) (F.unreadable files.now) (bytes_of paths.now)) }
{
    let mut sources = Vec::new(alloc);
    for path in paths {
        let source = read_source(alloc, files, *path)?;
        if sources.push(source).is_err() {
            return Err(FileError::OutOfMemory);
        }
    }
    Ok(sources)
}

/// The format of certificates that the words name.
pub fn cert_format(format: Format) -> CertFormat
    ensures { result ≡ cert_format format }
{
    match format {
        Format::First => CertFormat::First,
        Format::Second => CertFormat::Second,
    }
}

// The events at a path; none yet if a person is asked for them.
#[tactic(auto, using(crate::proofs::Texts::events_lost))]
fn read_events<'a, F: Files>(
    alloc: Global,
    files: &F,
    path: &'a str,
    is_interactive: bool,
) -> Result<Vec<u8>, FileError<'a>>
    ensures ok { IfOk result (λ text. AreEvents is_interactive (F.holds files.now path.now text.items)) }
    ensures lost { IfErr result (LosesFirst (F.holds files.now) (F.unreadable files.now) (events_path is_interactive path.now)) }
{
    if is_interactive {
        return Ok(Vec::new(alloc));
    }
    let text = read_file(alloc, files, path)?;
    Ok(text)
}

// The text of the certificate, or of the events, where one is named, and the number of workers or the format.
fn read_work<'a, F: Files>(
    alloc: Global,
    files: &F,
    asked: &Asked<'a>,
) -> Result<Work, FileError<'a>>
    ensures ok { IfOk result (IsWork (F.holds files.now) asked.now) }
    ensures lost { IfErr result (LosesFirst (F.holds files.now) (F.unreadable files.now) (work_path asked.now)) }
{
    match asked {
        Asked::Check {
            certificate,
            workers,
            ..
        } => Ok(Work::Check {
            certificate: read_file(alloc, files, *certificate)?,
            workers: *workers,
        }),
        Asked::Make { format } => Ok(Work::Make {
            format: cert_format(*format),
        }),
        Asked::Verify { workers, .. } => Ok(Work::Verify { workers: *workers }),
        Asked::Replay { events, style } => Ok(Work::Replay(read_events(
            alloc,
            files,
            *events,
            style.is_interactive,
        )?)),
    }
}

/// The text of the file at a path, if one is given.
pub fn read_given<'a, F: Files>(
    alloc: Global,
    files: &F,
    path: Option<&'a str>,
) -> Result<Option<Vec<u8>>, FileError<'a>>
    ensures ok { IfOk result (IsGivenText (F.holds files.now) path.entry) }
    ensures lost { IfErr result (LosesFirst (F.holds files.now) (F.unreadable files.now) (given_path path.entry)) }
{
    match path {
        Some(path) => Ok(Some(read_file(alloc, files, path)?)),
        None => Ok(None),
    }
}

/// Reads all files of a program, in the order of the words, and the known faults last.
pub fn read_files<'a, F: Files>(
    alloc: Global,
    files: &F,
    request: &ProgramRequest<'a>,
) -> Result<Sources<'a>, FileError<'a>>
    ensures ok { IfOk result (AreTexts (F.holds files.now) request.now) }
    ensures lost { IfErr result (LosesFirst (F.holds files.now) (F.unreadable files.now) (program_paths request.now)) }
{
    let rules = read_file(alloc, files, request.rules)?;
    let work = read_work(alloc, files, &request.asked)?;
    let routines = read_sources(alloc, files, request.routines.as_slice())?;
    let baseline = read_given(alloc, files, request.baseline)?;
    let Ok(plain) = plain_in(alloc, request.dialect, routines.as_slice()) else {
        return Err(FileError::OutOfMemory);
    };
    Ok(Sources {
        work,
        rules,
        routines,
        plain,
        baseline,
    })
}

/// The texts of the routines, as suggestions and stubs read them.
pub fn routine_texts<'s>(
    alloc: Global,
    sources: &'s [Source<'s>],
) -> Result<Vec<RoutineText<'s>>, AllocError> {
    let mut texts = Vec::with_capacity(alloc, sources.len())?;
    for source in sources {
        let text = RoutineText {
            dialect: source.dialect,
            stem: source.stem,
            text: source.text.as_slice(),
        };
        push_sparing(&mut texts, text)?;
    }
    Ok(texts)
}

/// Copies the texts of the routines, in their order, for what shows lines of them.
pub fn copied_texts(alloc: Global, sources: &[Source<'_>]) -> Result<Vec<Vec<u8>>, AllocError> {
    let mut texts = Vec::with_capacity(alloc, sources.len())?;
    for source in sources {
        let text = Vec::from_slice(alloc, source.text.as_slice())?;
        texts.push(text)?;
    }
    Ok(texts)
}
