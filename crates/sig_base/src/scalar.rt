// Values of one piece.
ghost use Rattle.std.specs.Prelude.{◌≡◌, ◌++◌, IfOk, OnOk};
ghost use Rattle.sig_base.specs.Scalars.{same_scalar, shown_text};
ghost use Rattle.std.specs.Cmp.{decided, partial_equiv_from_equiv};
ghost use Rattle.sig_base.specs.Scalars.{same_scalar-Decides};

use crate::{NoMemory, Text};
use itoa::{Buffer, Integer};
use std::fmt;

/// A truth, a whole number or a text.
#[derive(Drop)]
pub enum Scalar {
    Bool(bool),
    Int(i64),
    Text(Text),
}

impl Scalar {
    /// The same value.
    pub fn copy(&self) -> Result<Scalar, NoMemory>
        ensures { IfOk result (λ s. s ≡ self.now) }
    {
        match self {
            Scalar::Bool(b) => Ok(Scalar::Bool(*b)),
            Scalar::Int(n) => Ok(Scalar::Int(*n)),
            Scalar::Text(text) => Ok(Scalar::Text(text.copy()?)),
        }
    }
}

impl PartialEq for Scalar {
    ghost eq = { same_scalar };

    ghost laws = { partial_equiv_from_equiv (decided same_scalar same_scalar-Decides) };

    fn eq(&self, other: &Scalar) -> bool {
        match (self, other) {
            (Scalar::Bool(p), Scalar::Bool(q)) => p == q,
            (Scalar::Int(m), Scalar::Int(n)) => m == n,
            (Scalar::Text(s), Scalar::Text(t)) => s == t,
            _ => false,
        }
    }
}

impl Eq for Scalar {
    ghost laws = { decided same_scalar same_scalar-Decides };
}

impl fmt::Display for Scalar {
    ghost use Rattle.std.specs.Prelude.{Some};

    ghost output = { λ s. Some (shown_text s) };

    fn fmt<W: fmt::Write>(&self, f: &mut fmt::Formatter<W>) -> fmt::Result {
        match self {
            Scalar::Bool(true) => f.write_str("true"),
            Scalar::Bool(false) => f.write_str("false"),
            Scalar::Int(n) => write!(f, "{n}"),
            Scalar::Text(text) => f.write_str(text.as_str()),
        }
    }
}

/// Appends a whole number, as `{}` prints it.
pub fn put_decimal<I: Integer>(out: &mut Vec<u8>, number: I) -> Result<(), NoMemory>
    ensures { OnOk result (out.new.items ≡ out.old.items ++ I.text number) }
{
    let mut buffer = Buffer::new();
    out.extend_from_slice(buffer.format(number).as_bytes())?;
    Ok(())
}

/// Appends the shown text: `true` or `false`, the decimal digits, the text itself.
pub fn put_shown(out: &mut Vec<u8>, scalar: &Scalar) -> Result<(), NoMemory>
    ensures { OnOk result (out.new.items ≡ out.old.items ++ shown_text scalar.now) }
{
    match scalar {
        Scalar::Bool(true) => out.extend_from_slice(b"true")?,
        Scalar::Bool(false) => out.extend_from_slice(b"false")?,
        Scalar::Int(n) => put_decimal(out, *n)?,
        Scalar::Text(text) => out.extend_from_slice(text.as_str().as_bytes())?,
    }
    Ok(())
}
