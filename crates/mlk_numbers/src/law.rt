// Laws of numbers and their texts.

ghost use Rattle.mlk_numbers.specs.NumberLaws.{OneText, OneCanonical, GivesCanonical, OneWhole, BothRead, FoldsAre};

/// A number has one representation: one pair in lowest terms, and a pair has one text.
pub fn one_text()
    ensures { OneText }
{}

/// An exact literal has one canonical text, which is its own canonical text.
pub fn one_canonical()
    ensures { OneCanonical }
{}

/// The canonical text of a literal, as the definitions compute it, is that of the number that the literal denotes.
pub fn literals_canonical()
    ensures { GivesCanonical }
{}

/// A whole number of at most 15 digits has one text, and no other number has that text.
pub fn one_whole()
    ensures { OneWhole }
{}

/// The computed result of an operator on texts is the exact result, whenever there is one.
pub fn folds_are()
    ensures { FoldsAre }
{}

/// For digits alone, `mlk_text::literal::literal` and `canonical` return the same value.
pub fn both_read()
    ensures { BothRead }
{}
