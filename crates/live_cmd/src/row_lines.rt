// Reads the lines of lists and of the edits of their rows.
ghost use Rattle.std.specs.Prelude.{◌≡◌, ℕ, List};
ghost use Rattle.sig_base.specs.declared.scalar.Scalar.{Scalar};
ghost use Rattle.sig_words.specs.Tokens.{AreTokens};
ghost use Rattle.line_forms.specs.Reads.{IfRead};
ghost use Rattle.line_forms.specs.Told.{ahead, AreToldValues, IsToldKey, IsToldScalar};
ghost use Rattle.live_cmd.specs.Grammar as rows;
ghost use Rattle.live_cmd.specs.Views.{found_as, found_of, line_or_fault};

use crate::fields::{are_fields, is_field};
use crate::last::value_last;
use crate::line::{Found, Line, alone, faulty};
use crate::names::{inside_text_last, made, made_both, made_owned, name_text_at};
use crate::{Command, RowEdit};
use formula_text::FormulaFault;
use line_forms::{
    ToldKey, ToldValue, ToldValues, Unread, count_at, ends_at, key_at, listed_names_at, values_at,
};
use sig_base::Name;
use sig_words::Token;
use std::alloc::Global;

/// `list N (FIELD, FIELD) [in O]`
pub fn list(alloc: Global, line: &[u8], tokens: &[Token]) -> Result<Found, Unread>
    ensures { IfRead result (λ found. found ≡ found_as rows.list (ahead line.now tokens.now 1)) }
{
    let (name, at) = name_text_at(line, tokens, 1)?;
    let (fields, at) = listed_names_at(alloc, line, tokens, at)?;
    let inside = inside_text_last(line, tokens, at)?;
    let (name, inside) = made_owned(alloc, name, inside)?;
    let alone = are_fields(fields.as_slice());
    let command = Command::List {
        name,
        fields,
        inside,
    };
    let line = Ok(Line::Alone(command));
    Ok(Found { alone, line })
}

// What is found of an insertion, or what is wrong with its key or else with its values.
fn inserted(name: Name, place: u64, key: ToldKey, values: ToldValues) -> Found
    ensures { (k : List ℕ) (vs : List Scalar) → IsToldKey k key → AreToldValues vs values
        → result ≡ found_of (rows.insert_row, (name, (place, (k, (vs, tt))))) }
{
    let key = match key {
        Ok(key) => key,
        Err(fault) => return faulty(fault),
    };
    match values {
        Ok(values) => {
            let edit = RowEdit::Insert { place, key, values };
            alone(Command::Edit { name, edit })
        }
        Err(fault) => faulty(fault),
    }
}

/// `insert N PLACE KEY (LIT, LIT)`
pub fn insert(alloc: Global, line: &[u8], tokens: &[Token]) -> Result<Found, Unread>
    requires { AreTokens line.now tokens.now }
    ensures { IfRead result (λ found. found ≡ found_as rows.insert_row (ahead line.now tokens.now 1)) }
{
    let (name, at) = name_text_at(line, tokens, 1)?;
    let (place, at) = count_at(line, tokens, at)?;
    let (key, at) = key_at(alloc, line, tokens, at)?;
    let (values, at) = values_at(alloc, line, tokens, at)?;
    ends_at(tokens, at)?;
    let name = made(alloc, name)?;
    Ok(inserted(name, place, key, values))
}

// What is found of a removal, or what is wrong with its key.
fn removed(name: Name, key: ToldKey) -> Found
    ensures { (k : List ℕ) → IsToldKey k key → result ≡ found_of (rows.remove_row, (name, (k, tt))) }
{
    match key {
        Ok(key) => {
            let edit = RowEdit::Remove(key);
            alone(Command::Edit { name, edit })
        }
        Err(fault) => faulty(fault),
    }
}

/// `remove N KEY`
pub fn remove(alloc: Global, line: &[u8], tokens: &[Token]) -> Result<Found, Unread>
    requires { AreTokens line.now tokens.now }
    ensures { IfRead result (λ found. found ≡ found_as rows.remove_row (ahead line.now tokens.now 1)) }
{
    let (name, at) = name_text_at(line, tokens, 1)?;
    let (key, at) = key_at(alloc, line, tokens, at)?;
    ends_at(tokens, at)?;
    let name = made(alloc, name)?;
    Ok(removed(name, key))
}

// What is found of a move, or what is wrong with its key.
fn moved(name: Name, key: ToldKey, place: u64) -> Found
    ensures { (k : List ℕ) → IsToldKey k key → result ≡ found_of (rows.move_row, (name, (k, (place, tt)))) }
{
    match key {
        Ok(key) => {
            let edit = RowEdit::Move(key, place);
            alone(Command::Edit { name, edit })
        }
        Err(fault) => faulty(fault),
    }
}

/// `move N KEY PLACE`
pub fn move_row(alloc: Global, line: &[u8], tokens: &[Token]) -> Result<Found, Unread>
    requires { AreTokens line.now tokens.now }
    ensures { IfRead result (λ found. found ≡ found_as rows.move_row (ahead line.now tokens.now 1)) }
{
    let (name, at) = name_text_at(line, tokens, 1)?;
    let (key, at) = key_at(alloc, line, tokens, at)?;
    let (place, at) = count_at(line, tokens, at)?;
    ends_at(tokens, at)?;
    let name = made(alloc, name)?;
    Ok(moved(name, key, place))
}

// What the line of a new value gives, or what is wrong with its key or else with the value.
fn put_line(name: Name, key: ToldKey, field: Name, value: ToldValue) -> Result<Line, FormulaFault>
    ensures { (k : List ℕ) (v : Scalar) → IsToldKey k key → IsToldScalar v value
        → result ≡ line_or_fault (rows.put_field, (name, (k, (field, (v, tt))))) }
{
    let key = key?;
    let value = value?;
    let edit = RowEdit::Put { key, field, value };
    Ok(Line::Alone(Command::Edit { name, edit }))
}

// So it is with what is found of it.
fn put_found(name: Name, key: ToldKey, field: Name, value: ToldValue) -> Found
    ensures { (k : List ℕ) (v : Scalar) → IsToldKey k key → IsToldScalar v value
        → result ≡ found_of (rows.put_field, (name, (k, (field, (v, tt))))) }
{
    let alone = is_field(&field);
    let line = put_line(name, key, field, value);
    Found { alone, line }
}

/// `put N KEY FIELD LIT`
pub fn put_field(alloc: Global, line: &[u8], tokens: &[Token]) -> Result<Found, Unread>
    requires { AreTokens line.now tokens.now }
    ensures { IfRead result (λ found. found ≡ found_as rows.put_field (ahead line.now tokens.now 1)) }
{
    let (name, at) = name_text_at(line, tokens, 1)?;
    let (key, at) = key_at(alloc, line, tokens, at)?;
    let (field, at) = name_text_at(line, tokens, at)?;
    let value = value_last(alloc, line, tokens, at)?;
    let (name, field) = made_both(alloc, name, field)?;
    Ok(put_found(name, key, field, value))
}
