// What is shown of an outcome.
ghost use Rattle.std.specs.Prelude.{◌≡◌, ◌++◌, codes, unwrap_or, IfOk};
ghost use Rattle.sig_base.specs.Printer.{fault_name};
ghost use Rattle.sig_base.specs.Scalars.{shown_text};
ghost use Rattle.sig_base.specs.Values.{shown};
ghost use Rattle.tpl_model.specs.Shapes.{attribute_value, node_text};

use itoa::Buffer;
use sig_base::{Fault, NoMemory, Outcome, Scalar, Text, TextFault, Value};
use std::alloc::Global;

// A short text of these characters.
fn text_of(alloc: Global, characters: &str) -> Result<Text, NoMemory>
    ensures { IfOk result (λ t. t ≡ characters.now) }
{
    match Text::new(alloc, characters) {
        Ok(text) => Ok(text),
        Err(TextFault::Long | TextFault::NoMemory(_)) => Err(NoMemory),
    }
}

// A scalar as it is shown; a text shares its bytes.
fn shown_scalar(alloc: Global, scalar: Scalar) -> Result<Text, NoMemory>
    ensures { IfOk result (λ t. t ≡ shown_text scalar) }
{
    match scalar {
        Scalar::Bool(true) => text_of(alloc, "true"),
        Scalar::Bool(false) => text_of(alloc, "false"),
        Scalar::Int(number) => {
            let mut buffer = Buffer::new();
            text_of(alloc, buffer.format(number))
        }
        Scalar::Text(text) => Ok(text),
    }
}

// A scalar as it is shown, and none of rows.
fn shown(alloc: Global, value: Value) -> Result<Option<Text>, NoMemory>
    ensures { IfOk result (λ t. t ≡ shown value) }
{
    match value.into_scalar() {
        Some(scalar) => {
            let text = shown_scalar(alloc, scalar)?;
            Ok(Some(text))
        }
        None => Ok(None),
    }
}

// What a text shows of a value.
fn value_text(alloc: Global, value: Value) -> Result<Text, NoMemory>
    ensures { IfOk result (λ t. t ≡ unwrap_or (shown value) (codes "#ERR kind")) }
{
    match shown(alloc, value)? {
        Some(text) => Ok(text),
        None => text_of(alloc, "#ERR kind"),
    }
}

// What a text shows of a fault.
fn fault_text(alloc: Global, fault: Fault) -> Result<Text, NoMemory>
    ensures { IfOk result (λ t. t ≡ codes "#ERR " ++ fault_name fault) }
{
    let text = format!(in alloc; "#ERR {fault}")?;
    text_of(alloc, text.as_str())
}

/// What a text shows of an outcome.
pub fn node_text(alloc: Global, outcome: Outcome) -> Result<Text, NoMemory>
    ensures { IfOk result (λ t. t ≡ node_text outcome) }
{
    match outcome {
        Outcome::Good(value) => value_text(alloc, value),
        Outcome::Bad(fault) => fault_text(alloc, fault),
    }
}

/// The value of an attribute that comes to this, where it is present.
pub fn attribute_value(alloc: Global, outcome: Outcome) -> Result<Option<Text>, NoMemory>
    ensures { IfOk result (λ t. t ≡ attribute_value outcome) }
{
    match outcome {
        Outcome::Good(Value::Bool(true)) => {
            let empty = text_of(alloc, "")?;
            Ok(Some(empty))
        }
        Outcome::Good(Value::Bool(false)) | Outcome::Bad(_) => Ok(None),
        Outcome::Good(value) => shown(alloc, value),
    }
}
