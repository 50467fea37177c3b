// What holds of all cases with numbers. The terms of cases are as certificates have them: that holds of every certificate that
// was read.

ghost use Rattle.mlk_cert_terms.specs.Laws.{EqualNumbers, GrownTables, OneCase};

use crate::table::TermTable;

/// Two cases that a table numbered hold the same terms exactly if they have the same numbers.
pub fn equal_numbers(table: &TermTable)
    ensures { EqualNumbers table.now }
{
    let _ = table.len();
}

/// Numbers are those of one case at most. So `case_of` after `num_case` gives the case again.
pub fn one_case()
    ensures { OneCase }
{}

/// A table that grew has the same numbers for the terms that it had.
pub fn table_grows()
    ensures { GrownTables }
{}
