//! The files that a command line names: reads their texts, finds the routines below folders and in lists, and has these as a
//! dialect reads them.
#![tactic(auto)]

mod dialect;
mod file;
mod routines;
mod source;

pub use dialect::{PlainSources, read_in};
pub use file::{LONGEST_FILE, read_line, read_whole};
pub use routines::{all_paths, find_routines, found_paths, list_of, with_routines};
pub use source::{
    FileError, Files, Sources, Work, cert_format, copied_texts, read_file, read_files, read_given,
    read_sources, routine_texts,
};
