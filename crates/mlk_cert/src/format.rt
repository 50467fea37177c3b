// The formats of certificates.

/// The two formats in which a certificate is written.
#[derive(Clone, Copy, PartialEq, Eq)]
pub enum CertFormat {
    /// Each point has its cases in full.
    First,
    /// The cases are at the front, each once, and points refer to them by number.
    Second,
}
