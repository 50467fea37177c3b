// Laws of the printed text.

ghost use Rattle.mlk_machine_view.specs.Laws.{HeldIsSorted};

/// The locks of a job are printed in the order of the names' texts, and all of them are printed.
pub fn held_is_sorted()
    ensures { HeldIsSorted }
{}
