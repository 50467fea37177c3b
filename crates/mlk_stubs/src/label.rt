// The labels of stubs, and what calls ask of each.

use crate::call::{Call, CallKind};
use mlk_text::Name;
use std::alloc::Global;

/// Where a label is in a stub.
#[derive(Clone, Copy, Drop, PartialEq, Eq, PartialOrd, Ord)]
pub(crate) enum LabelPlace<'a> {
    /// on the first line, whose label is the routine's name
    First,
    /// on a later line
    Later(&'a [u8]),
}

/// A label of a stub.
#[derive(Clone, Copy, Drop, PartialEq, Eq, PartialOrd, Ord)]
pub(crate) struct StubLabel<'a> {
    pub(crate) routine: &'a [u8],
    pub(crate) place: LabelPlace<'a>,
}

impl<'a> StubLabel<'a> {
    /// The label of the first line of the stub of `routine`.
    pub(crate) fn first(routine: &'a [u8]) -> StubLabel<'a> {
        StubLabel {
            routine,
            place: LabelPlace::First,
        }
    }

    /// The label `label` in the stub of `routine`. Without one, and with the routine's name, it is that of the first line.
    pub(crate) fn of(routine: &'a [u8], label: Option<&'a Name>) -> StubLabel<'a> {
        let place = match label {
            Some(label) if label.as_bytes() != routine => LabelPlace::Later(label.as_bytes()),
            _ => LabelPlace::First,
        };
        StubLabel { routine, place }
    }
}

/// What a label of a stub is for.
#[derive(Drop)]
pub(crate) struct LabelUse<'a> {
    /// the formals of the label in the routine whose place the stub takes, if it is given and has a list
    pub(crate) formals: Option<&'a [Name]>,
    /// the calls of the label
    pub(crate) calls: Vec<Call<'a>>,
}

impl<'a> LabelUse<'a> {
    /// A label without calls.
    pub(crate) fn new(alloc: Global, formals: Option<&'a [Name]>) -> LabelUse<'a> {
        LabelUse {
            formals,
            calls: Vec::new(alloc),
        }
    }

    /// Whether some call is of this kind.
    pub(crate) fn is_called_by(&self, kind: CallKind) -> bool {
        self.calls.iter().any(|call| call.kind == kind)
    }

    /// Whether some call passes the actual with this index by reference.
    pub(crate) fn is_by_reference(&self, index: usize) -> bool {
        self.calls.iter().any(|call| call.is_by_reference(index))
    }

    /// The first of the calls in the order of routines, lines and columns.
    pub(crate) fn first_call(&self) -> Option<&Call<'a>> {
        self.calls
            .iter()
            .min_by(|call, other| call.position.cmp(&other.position))
    }

    // The greatest number of actuals that a call passes, or `None` if no call has a list.
    fn most_actuals(&self) -> Option<usize> {
        self.calls
            .iter()
            .filter_map(|call| call.actual_count())
            .max()
    }

    // Whether some call has no list of actuals.
    fn is_called_without_list(&self) -> bool {
        self.calls.iter().any(|call| call.actuals.is_none())
    }

    /// The number of formals with which the label takes all its calls, or `None` for no list. `()` takes calls without a list too.
    pub(crate) fn formal_count(&self) -> Option<usize> {
        let most = self.most_actuals();
        match self.formals {
            None => most,
            Some(_) if most.unwrap_or(0) == 0 && self.is_called_without_list() => Some(0),
            Some(formals) => Some(formals.len().max(most.unwrap_or(0))),
        }
    }
}
