// The last part of a line.
ghost use Rattle.std.specs.Prelude.{◌≡◌, ◌∷◌, [], None, Some, MatchOption};
ghost use Rattle.sig_base.specs.declared.scalar.Scalar.{Scalar};
ghost use Rattle.sig_words.specs.Tokens.{AreTokens};
ghost use Rattle.line_forms.specs.Forms as form;
ghost use Rattle.line_forms.specs.Reader.{read_form};
ghost use Rattle.line_forms.specs.Reads.{IfRead};
ghost use Rattle.line_forms.specs.Told.{ahead, IsToldScalar};

use line_forms::{ToldValue, Unread, ends_at, value_at};
use sig_words::Token;
use std::alloc::Global;

/// The value at the end of a line, or that its text is too long.
pub fn value_last(
    alloc: Global,
    line: &[u8],
    tokens: &[Token],
    at: usize,
) -> Result<ToldValue, Unread>
    requires { AreTokens line.now tokens.now }
    ensures { IfRead result (λ found. MatchOption found
        (read_form (form.part (form.one form.value) ∷ []) (ahead line.now tokens.now at) ≡ None)
        (λ r. (v : Scalar) × (read_form (form.part (form.one form.value) ∷ []) (ahead line.now tokens.now at) ≡ Some (v, tt)) × IsToldScalar v r)) }
{
    let (value, at) = value_at(alloc, line, tokens, at)?;
    ends_at(tokens, at)?;
    Ok(value)
}
