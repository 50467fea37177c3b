// Laws of programs.

ghost use Rattle.mlk_program.specs.Laws.{EntriesNamed, EntriesHaveLines, TextsName, CallsFit, CallsShare};
ghost use Rattle.mlk_syntax.specs.Trees.{RoutineTree};
ghost use Rattle.std.specs.Prelude.{List};

/// If `entry` and `target` find something, it is an entry of the program.
pub fn entries_named()
    ensures { EntriesNamed }
{}

/// The line of an entry of a program exists.
pub fn entries_have_lines()
    ensures { EntriesHaveLines }
{}

/// `entry` of the text of an entry is that entry.
pub fn texts_name()
    ensures { TextsName }
{}

/// Each call of a program has a target, whose line accepts its actuals.
pub fn calls_fit()
    ensures { CallsFit }
{}

/// A name that a call passes by reference is shared, and so is a formal that receives one, in its own entry too.
pub fn calls_share()
    ensures { (routines : List RoutineTree) → CallsShare routines }
{}
