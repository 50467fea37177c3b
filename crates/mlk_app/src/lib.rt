//! What `mlock` does: it reads the files that the command line names, checks them, replays events, converts a
//! certificate or makes a survey, and says what it found.
#![tactic(auto)]

mod answer;
mod baseline;
mod behind;
mod help;
mod notice;
mod program;
mod refused;
mod stubs;
mod stuck;
mod suggestion;
mod work;

pub use help::Explaining;
pub use mlk_files::{Files, LONGEST_FILE, read_line, read_whole};
pub use mlk_watch::{Runner, Stage, Unwatched, Watch};
pub use program::{run, wrong_words};
