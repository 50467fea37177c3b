// Laws of the grammar of expressions.

ghost use Rattle.mlk_expr.specs.Theorem.{OneTree};

/// The text at a place of a line has at most one tree and one end.
pub fn one_tree()
    ensures { OneTree }
{}
