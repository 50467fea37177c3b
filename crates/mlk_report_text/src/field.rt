// JSON objects, as tables of fields.

use crate::escape::escape_bytes;
use serde_json::{Map, Value, put};
use std::alloc::{AllocError, Global};

/// The value of a member of an object.
#[derive(Drop)]
pub enum Field<'a> {
    /// no member
    Absent,
    Null,
    Flag(bool),
    Number(usize),
    /// a text, as it is
    Text(&'a str),
    /// bytes, escaped by `escape_bytes`
    Bytes(&'a [u8]),
    /// bytes that were built for this field, escaped by `escape_bytes`
    Made(Vec<u8>),
    Value(Value),
}

impl<'a> Field<'a> {
    /// The field of `bytes`, or null.
    pub fn of(bytes: Option<&'a [u8]>) -> Field<'a> {
        match bytes {
            Some(bytes) => Field::Bytes(bytes),
            None => Field::Null,
        }
    }
}

fn text_value(alloc: Global, bytes: &[u8]) -> Result<Value, AllocError> {
    Ok(Value::String(escape_bytes(alloc, bytes)?))
}

fn value_of(alloc: Global, field: Field<'_>) -> Result<Value, AllocError> {
    match field {
        Field::Absent | Field::Null => Ok(Value::Null),
        Field::Flag(flag) => Ok(Value::Bool(flag)),
        Field::Number(number) => Ok(Value::from(number)),
        Field::Text(text) => Ok(Value::String(String::from_str(alloc, text)?)),
        Field::Bytes(bytes) => text_value(alloc, bytes),
        Field::Made(bytes) => text_value(alloc, bytes.as_slice()),
        Field::Value(value) => Ok(value),
    }
}

fn put_field(
    object: &mut Map<String, Value>,
    alloc: Global,
    name: &str,
    field: Field<'_>,
) -> Result<(), AllocError> {
    if matches!(field, Field::Absent) {
        return Ok(());
    }
    let value = value_of(alloc, field)?;
    put(object, alloc, name, value)
}

/// The object with the members `members`.
pub fn object(alloc: Global, members: Vec<(&str, Field<'_>)>) -> Result<Value, AllocError> {
    let mut object = Map::new(alloc);
    for (name, field) in members {
        put_field(&mut object, alloc, name, field)?;
    }
    Ok(Value::Object(object))
}

/// The object with one member.
pub fn member(alloc: Global, name: &str, field: Field<'_>) -> Result<Value, AllocError> {
    let mut object = Map::new(alloc);
    put_field(&mut object, alloc, name, field)?;
    Ok(Value::Object(object))
}
