//! Names, values, places, codes and faults: the vocabulary of all other crates.
#![tactic(auto)]

mod code;
mod copy;
mod failure;
mod fault;
mod law;
pub mod lexeme;
pub mod limit;
mod list;
pub mod literal;
mod name;
mod operator;
mod place;
mod root;
mod sequence;
pub mod spelling;
mod subscripts;
mod text;
mod value;

pub use code::Code;
pub use copy::copy_of;
pub use failure::{Failure, drop_and_return};
pub use fault::{Fault, LeftOut};
pub use law::{entries_written, one_code};
pub use list::{List, are_equal, likely_length, make_room, push_sparing};
pub use name::Name;
pub use operator::{Op, Relation, UnaryOp};
pub use place::{Column, LineNumber, Place};
pub use root::Root;
pub use sequence::{Items, separated_items};
pub use spelling::NotThere;
pub use subscripts::Subscripts;
pub use value::Value;
