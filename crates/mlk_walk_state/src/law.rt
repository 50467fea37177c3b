// Laws of the definitions: among others, that their tests decide the relations of the crates below. Each function is a law,
// and does nothing.

ghost use Rattle.mlk_walk_state.specs.Laws.{IncludesDecides, SameDecides, RankIs, TablesAre, HeldAre, AllButAllows, SharesByOwn};
ghost use Rattle.mlk_syntax.specs.Trees.{RoutineTree};
ghost use Rattle.std.specs.Prelude.{List};

/// The inclusion test decides inclusion of cases.
pub fn includes_decides()
    ensures { IncludesDecides }
{}

/// The equality tests of terms, cases and states decide equality.
pub fn same_decides()
    ensures { SameDecides }
{}

/// The rank of a term is that of the relation.
pub fn rank_is()
    ensures { RankIs }
{}

/// For each entry, the tables of entries agree with its first block and with the rules.
pub fn tables_are()
    ensures { TablesAre }
{}

/// An added term is held once more, in order, and a removed term is held once less.
pub fn held_are()
    ensures { HeldAre }
{}

/// If all names but some may change, each of them may.
pub fn all_but_allows()
    ensures { AllButAllows }
{}

/// The shared names of a frame depend on the names that are own there.
pub fn shares_by_own()
    ensures { (routines : List RoutineTree) → SharesByOwn routines }
{}
