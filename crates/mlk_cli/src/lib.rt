//! What the words of `mlock`'s command line ask for.
#![tactic(auto)]

mod words;

pub use words::{
    Asked, Format, Invocation, Output, ProgramRequest, ReplayStyle, ReportStyle, Request,
    StubsRequest, SuggestRequest, SurveyOutput, SurveyRequest, UsageError, WantedStubs,
    read_request,
};
