// Values as plain data, from which tests make what is known.
use sig_base::{Known, Scalar, Value};
use std::alloc::{AllocError, Global};

/// A number or a truth.
#[derive(Clone, Copy)]
pub(crate) enum Plain {
    Int(i64),
    Bool(bool),
}

/// The value that this is.
pub(crate) fn value_of(plain: Plain) -> Value {
    match plain {
        Plain::Int(number) => Value::Int(number),
        Plain::Bool(truth) => Value::Bool(truth),
    }
}

/// Whether a value is this.
pub(crate) fn is_value(value: &Value, plain: Plain) -> bool {
    match (value, plain) {
        (Value::Int(given), Plain::Int(number)) => *given == number,
        (Value::Bool(given), Plain::Bool(truth)) => *given == truth,
        _ => false,
    }
}

/// Whether a scalar is this number.
pub(crate) fn is_number(scalar: &Scalar, number: i64) -> bool {
    match scalar {
        Scalar::Int(given) => *given == number,
        _ => false,
    }
}

/// What is known of slots with these values.
pub(crate) fn known_of(alloc: Global, slots: &[(u32, Plain)]) -> Result<Vec<Known>, AllocError> {
    let mut known = Vec::with_capacity(alloc, slots.len())?;
    for (slot, plain) in slots {
        known.push(Known {
            slot: *slot,
            value: value_of(*plain),
        })?;
    }
    Ok(known)
}
