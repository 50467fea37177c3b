// Laws of certificates.

ghost use Rattle.mlk_cert.specs.Theorem.{OneCertificate, OneReading, OneText, ReadBack};

/// A text in the first format is that of at most one certificate.
pub fn one_certificate()
    ensures { OneCertificate }
{}

/// A text that is short enough to be written is that of at most one certificate, in either format.
pub fn one_reading()
    ensures { OneReading }
{}

/// A certificate has at most one text in each format.
pub fn one_text()
    ensures { OneText }
{}

/// A text of a certificate, in either format, is read as that certificate, unless memory runs out.
pub fn read_back()
    ensures { ReadBack }
{}
