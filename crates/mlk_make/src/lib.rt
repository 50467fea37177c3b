//! The maker of certificates. No `yes` rests on it: the check decides, whoever made the certificate.
#![tactic(auto)]

mod entry;
mod finish;
mod maker;
mod mend;
mod missing;
mod need;
mod news;
mod probe;
mod rounds;
mod settle;
mod stop;
mod text;
mod walk;

pub use rounds::{MadeDespite, make, make_certificate, make_despite};
pub use stop::{GaveUp, MakeError};
pub use text::text_in;
