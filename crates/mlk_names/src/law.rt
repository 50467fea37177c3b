// Laws of all names, terms and references.

ghost use Rattle.mlk_names.specs.Laws.{AboveOneMeet, ConflictsAbove, NamesByMentioned, OverlapsForeseen};

/// Two names at or above the same name conflict, and of two prefixes of a term one is a prefix of the other.
pub fn above_one_meet()
    ensures { AboveOneMeet }
{}

/// Whatever conflicts with a name conflicts with every name above it.
pub fn conflicts_above()
    ensures { ConflictsAbove }
{}

/// A term denotes at most one name, which is determined by the locals that it mentions and the job; it denotes one exactly if
/// each local that it mentions has a value.
pub fn names_by_mentioned()
    ensures { NamesByMentioned }
{}

/// `may_overlap` holds for any two references that overlap in some two jobs, for some values of their locals.
pub fn overlaps_foreseen()
    ensures { OverlapsForeseen }
{}
