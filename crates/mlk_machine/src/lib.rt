//! Systems: the jobs of a program, queries on them, and the effect of events, also of those in a file.
#![tactic(auto)]

mod beginning;
mod copying;
mod event;
mod event_line;
mod fault;
mod following;
mod instruction;
mod law;
mod line;
mod number;
mod reading;
mod replaying;
mod ring;
mod settling;
mod stepping;
mod system;

pub use event::{Act, Event};
pub use event_line::{Beginning, EventLine};
pub use fault::{EventsFault, EventsRefusal};
pub use following::replay_events;
pub use law::{lines_are_events, replays_are_runs};
pub use line::read_line;
pub use replaying::{Refused, replay};
pub use settling::MOST_SILENT_STEPS;
pub use system::System;
