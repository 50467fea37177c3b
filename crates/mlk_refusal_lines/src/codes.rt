// The codes of refusals.

ghost use Rattle.std.specs.Prelude.{◌≡◌};
ghost use Rattle.mlk_refusal_lines.specs.Lines.{events_code};

use mlk_machine::EventsRefusal;
use mlk_machine_locks::Refusal;
use mlk_outcome::NoReport;
use mlk_pool::CheckError;
use mlk_text::Code;

/// The code of why events are not replayed.
pub fn events_code(why: EventsRefusal) -> Code
    ensures { result ≡ events_code why }
{
    match why {
        EventsRefusal::Form => Code::EventForm,
        EventsRefusal::Refused(Refusal::NotEnabled) => Code::NotEnabled,
        EventsRefusal::Refused(Refusal::BadChoice) => Code::BadChoice,
        EventsRefusal::Refused(Refusal::UnknownJob) => Code::UnknownJob,
    }
}

// The code of what the check itself refuses.
fn error_code(error: &CheckError) -> Option<Code> {
    match error {
        CheckError::Routine(fault) => Some(fault.code),
        CheckError::Rules(fault) => Some(fault.code),
        CheckError::Certificate(fault) => Some(fault.code),
        CheckError::Entry(_) => Some(Code::EntryMissing),
        CheckError::Workers => Some(Code::Workers),
        CheckError::OutOfMemory | CheckError::GateShut(_) => None,
    }
}

/// The code of a refusal; `None` if memory ran out.
pub fn refusal_code(refusal: &NoReport) -> Option<Code> {
    match refusal {
        NoReport::Check(error) => error_code(error),
        NoReport::GaveUp(_, _) => Some(Code::GaveUp),
        NoReport::Events(fault) => Some(events_code(fault.why)),
    }
}
