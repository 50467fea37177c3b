// Laws of the grammar of routines.

ghost use Rattle.mlk_routine.specs.Theorem.{OneCut, OneNesting, OneTree};

/// A text is cut into lines in one way.
pub fn one_cut()
    ensures { OneCut }
{}

/// Consecutive lines form blocks in one way.
pub fn one_nesting()
    ensures { OneNesting }
{}

/// A text has at most one tree.
pub fn one_tree()
    ensures { OneTree }
{}
