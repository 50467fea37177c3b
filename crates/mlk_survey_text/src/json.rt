// A survey as JSON.

use crate::values::{Valued, values};
use mlk_survey::{Facts, InRoutines};
use serde_json::{Map, Value, put};
use std::alloc::{AllocError, Global};

// Adds the values of `things`.
fn put_values<T: Valued>(
    object: &mut Map<String, Value>,
    alloc: Global,
    name: &str,
    things: &[T],
) -> Result<(), AllocError> {
    put(object, alloc, name, values(alloc, things)?)
}

// The number of routines that are read, and the refused ones.
fn reading_value(alloc: Global, facts: &Facts<'_>) -> Result<Value, AllocError> {
    let mut object = Map::new(alloc);
    put(&mut object, alloc, "read", Value::from(facts.read))?;
    put(
        &mut object,
        alloc,
        "refused",
        Value::from(facts.refused.len()),
    )?;
    put_values(&mut object, alloc, "refusals", &facts.refused)?;
    put_values(&mut object, alloc, "further", &facts.further)?;
    put_values(&mut object, alloc, "reasons", &facts.refusal_counts)?;
    put_values(&mut object, alloc, "missing", &facts.found.missing)?;
    put_values(&mut object, alloc, "misfits", &facts.found.misfits)?;
    Ok(Value::Object(object))
}

// The results for the routines that are read.
fn found_value(alloc: Global, found: &InRoutines<'_>) -> Result<Value, AllocError> {
    let mut object = Map::new(alloc);
    put_values(&mut object, alloc, "entries", &found.entries)?;
    put_values(&mut object, alloc, "globals", &found.globals)?;
    put_values(&mut object, alloc, "locks", &found.locks)?;
    put_values(&mut object, alloc, "orders", &found.orders)?;
    put_values(&mut object, alloc, "hazards", &found.hazards)?;
    Ok(Value::Object(object))
}

/// A survey as one JSON object on indented lines: all the facts of the text, without a limit on the lists.
pub fn survey_json(alloc: Global, facts: &Facts<'_>) -> Result<String, AllocError> {
    let mut object = Map::new(alloc);
    put(&mut object, alloc, "routines", reading_value(alloc, facts)?)?;
    put(
        &mut object,
        alloc,
        "found",
        found_value(alloc, &facts.found)?,
    )?;
    Value::Object(object).to_string_pretty(alloc)
}
