// The JSON value of each thing in a survey.

use crate::lines::root_text;
use mlk_hazards::HazardAt;
use mlk_report_text::{Field, escape_bytes, object};
use mlk_survey::{
    Entry, GlobalUse, Lack, ListLength, LockOrder, LockUse, MisfitCall, MissingCall, RefusalCount,
    RefusedRoutine,
};
use mlk_survey_trees::Position;
use mlk_text::Name;
use serde_json::Value;
use std::alloc::{AllocError, Global};

/// A thing that has a value in JSON.
pub(crate) trait Valued {
    /// The value.
    fn value(&self, alloc: Global) -> Result<Value, AllocError>;
}

/// The values of `things`, in order.
pub(crate) fn values<T: Valued>(alloc: Global, things: &[T]) -> Result<Value, AllocError> {
    let mut values = Vec::with_capacity(alloc, things.len())?;
    for thing in things {
        values.push(thing.value(alloc)?)?;
    }
    Ok(Value::Array(values))
}

impl<'a> Valued for Position<'a> {
    fn value(&self, alloc: Global) -> Result<Value, AllocError> {
        let members = vec![in alloc;
            ("routine", Field::Bytes(self.routine)),
            ("line", Field::Number(self.line.number() as usize)),
            ("column", Field::Number(self.column.number() as usize)),
        ]?;
        object(alloc, members)
    }
}

impl<'a> Valued for RefusalCount<'a> {
    fn value(&self, alloc: Global) -> Result<Value, AllocError> {
        let members = vec![in alloc;
            ("code", Field::Number(usize::from(self.code.number()))),
            ("name", Field::Bytes(self.code.word())),
            ("word", Field::of(self.word)),
            ("routines", Field::Number(self.routines)),
        ]?;
        object(alloc, members)
    }
}

impl<'a> Valued for RefusedRoutine<'a> {
    fn value(&self, alloc: Global) -> Result<Value, AllocError> {
        let place = self.position.value(alloc)?;
        let members = vec![in alloc;
            ("code", Field::Number(usize::from(self.code.number()))),
            ("name", Field::Bytes(self.code.word())),
            ("word", Field::of(self.word)),
            ("place", Field::Value(place)),
        ]?;
        object(alloc, members)
    }
}

impl<'a> Valued for MissingCall<'a> {
    fn value(&self, alloc: Global) -> Result<Value, AllocError> {
        let lack = match self.lack {
            Lack::Routine => "routine",
            Lack::Label => "label",
        };
        let first = self.first.value(alloc)?;
        let members = vec![in alloc;
            ("routine", Field::Bytes(self.called.routine)),
            ("label", Field::Bytes(self.called.label)),
            ("lacks", Field::Text(lack)),
            ("calls", Field::Number(self.calls)),
            ("first", Field::Value(first)),
        ]?;
        object(alloc, members)
    }
}

// The number of items of a list, or null if there is no list.
fn length_field(length: ListLength) -> Field<'static> {
    match length {
        ListLength::NoList => Field::Null,
        ListLength::Items(count) => Field::Number(count),
    }
}

impl<'a> Valued for MisfitCall<'a> {
    fn value(&self, alloc: Global) -> Result<Value, AllocError> {
        let place = self.position.value(alloc)?;
        let members = vec![in alloc;
            ("routine", Field::Bytes(self.called.routine)),
            ("label", Field::Bytes(self.called.label)),
            ("formals", length_field(self.formals)),
            ("actuals", length_field(self.actuals)),
            ("place", Field::Value(place)),
        ]?;
        object(alloc, members)
    }
}

impl Valued for Name {
    fn value(&self, alloc: Global) -> Result<Value, AllocError> {
        Ok(Value::String(escape_bytes(alloc, self.as_bytes())?))
    }
}

impl<'a> Valued for Entry<'a> {
    fn value(&self, alloc: Global) -> Result<Value, AllocError> {
        let formals = match self.formals {
            Some(names) => values(alloc, names)?,
            None => Value::Null,
        };
        let members = vec![in alloc;
            ("routine", Field::Bytes(self.routine)),
            ("line", Field::Number(self.line.number() as usize)),
            ("label", Field::of(self.label)),
            ("formals", Field::Value(formals)),
        ]?;
        object(alloc, members)
    }
}

impl<'a> Valued for GlobalUse<'a> {
    fn value(&self, alloc: Global) -> Result<Value, AllocError> {
        let members = vec![in alloc;
            ("name", Field::Bytes(self.name)),
            ("reads", Field::Number(self.uses.reads)),
            ("writes", Field::Number(self.uses.writes)),
            ("kills", Field::Number(self.uses.kills)),
        ]?;
        object(alloc, members)
    }
}

impl<'a> Valued for LockUse<'a> {
    fn value(&self, alloc: Global) -> Result<Value, AllocError> {
        let root = root_text(alloc, &self.root)?;
        let members = vec![in alloc;
            ("root", Field::Made(root)),
            ("claims", Field::Number(self.claims)),
        ]?;
        object(alloc, members)
    }
}

impl<'a> Valued for LockOrder<'a> {
    fn value(&self, alloc: Global) -> Result<Value, AllocError> {
        let held = root_text(alloc, &self.held)?;
        let claimed = root_text(alloc, &self.claimed)?;
        let members = vec![in alloc;
            ("held", Field::Made(held)),
            ("claimed", Field::Made(claimed)),
            ("claims", Field::Number(self.claims)),
        ]?;
        object(alloc, members)
    }
}

impl<'a> Valued for HazardAt<'a> {
    fn value(&self, alloc: Global) -> Result<Value, AllocError> {
        let place = self.position.value(alloc)?;
        let members = vec![in alloc;
            ("hazard", Field::Text(self.hazard.word())),
            ("place", Field::Value(place)),
            ("advice", Field::Text(self.hazard.advice())),
        ]?;
        object(alloc, members)
    }
}
