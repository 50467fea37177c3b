// Runs of blanks.

ghost use Rattle.std.specs.Prelude.{◌≡◌, ◌≤◌, length};
ghost use Rattle.std.specs.List.{prefix_len};
ghost use Rattle.mlk_routine_arguments.specs.PartsRead.{Found};
ghost use Rattle.mlk_routine_arguments.specs.Ends.{IsRun, RunEnds};
ghost use Rattle.mlk_routine.specs.RoutineGrammar.{is_blank};

// The number of spaces and TABs at the front of `bytes`.
fn blanks(bytes: &[u8]) -> usize
    ensures value { result ≡ prefix_len is_blank bytes.now }
    ensures within { result ≤ length bytes.now }
{
    bytes
        .iter()
        .take_while(|b| **b == b' ' || **b == b'\t')
        .count()
}

/// The byte after the spaces and TABs at `at`.
pub(crate) fn past_blanks(line: &[u8], at: usize) -> usize
    requires { at ≤ length line.now }
    ensures { Found (IsRun is_blank) (RunEnds is_blank) line.now at tt result }
{
    let (_, bytes) = line.split_at(at);
    at + blanks(bytes)
}
