// Laws of codes and of the texts of entries.

ghost use Rattle.mlk_text.specs.Codes.{OneCode};
ghost use Rattle.mlk_text.specs.SpellingLaws.{EntriesWritten};

/// No two codes have one number.
pub fn one_code()
    ensures { OneCode }
{}

/// `spelling::entry` finds the parts of each text of an entry, and nothing else.
pub fn entries_written()
    ensures { EntriesWritten }
{}
