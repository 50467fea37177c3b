//! Certificates: what is known of jobs at each point of a routine, and their texts in two formats.
#![tactic(auto)]

mod checked;
mod format;
mod law;
mod named;
mod number;
mod read;
mod spelled;
mod table;
mod write;

pub use checked::{block_of, certificate_of, checked_case, point_of, with_case};
pub use format::CertFormat;
pub use law::{one_certificate, one_reading, one_text, read_back};
pub use mlk_cert_parts::{
    Case, Certificate, EntryCert, ExitCase, NameSet, Own, Point, Shared, Summary, Test,
    is_included, limit, place_of_term,
};
pub use read::{CertFault, read_cert};
pub use spelled::{Spelled, spell};
pub use write::{WriteFault, write_cert, write_cert2};
