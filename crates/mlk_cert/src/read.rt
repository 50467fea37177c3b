//! The reader of certificates.

mod block;
pub(crate) mod case;
mod cases;
mod fault;
mod fit;
mod line;
pub(crate) mod memory;
mod numbered;
pub(crate) mod points;
mod unnamed;
pub(crate) mod whole;

pub use fault::CertFault;
pub use whole::read_cert;
