// Laws of walks from fewer cases.

ghost use Rattle.mlk_walk_laws.specs.Fewer.{EachAlone, FewerCases};
ghost use Rattle.mlk_walk_laws.specs.Passing.{LinesPass};

/// If the walk of commands from some states finds no fault, it finds none from fewer of them, and its results are among those
/// of the first walk.
pub fn fewer_cases()
    ensures { FewerCases }
{}

/// If the walk of commands from listed cases finds no fault, it finds none from each of them alone, and its results are among
/// those of the first walk.
pub fn each_alone()
    ensures { EachAlone }
{}

/// If the walk of an entry's lines, or of a block's, finds no fault, each line passes from each case that is listed at it, alone:
/// nothing is refused in it, and each case that results is accepted at the line's end.
pub fn lines_pass()
    ensures { LinesPass }
{}
