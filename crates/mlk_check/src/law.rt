// Laws of replays of programs that follow their rules.

ghost use Rattle.mlk_check.specs.Replays.{ReplaysAreSafe, SafeIsShown};

/// The output shows safe jobs as safe: two clash only if a rule makes reads free, none waits in a ring, and jobs that have ended
/// hold no lock.
pub fn safe_is_shown()
    ensures { SafeIsShown }
{}

/// If a program follows its rules, the output after all lines of a file of events shows no clash unless a rule makes reads free,
/// no ring, and no lock that is held by a job that has ended.
pub fn replays_are_safe()
    ensures { ReplaysAreSafe }
{}
