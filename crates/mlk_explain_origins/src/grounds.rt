// What a report is explained by.

use mlk_cert_parts::Certificate;
use mlk_program::Program;
use mlk_rules::Rules;

/// What explains a report: its program, the texts of the program's routines in their order, its rules with their text, and
/// the certificate that was checked.
#[derive(Clone, Copy, Drop)]
pub struct Grounds<'a> {
    pub program: &'a Program<'a>,
    pub texts: &'a [Vec<u8>],
    pub rules: &'a Rules,
    pub rule_text: &'a [u8],
    pub certificate: &'a Certificate,
    /// whether the certificate was made from the program, and not given
    pub is_made: bool,
}
