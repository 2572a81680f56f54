// Reads one line of a script.
ghost use Rattle.std.specs.Prelude.{◌≡◌, ◌∷◌, ◌≤◌, [], true, IfOk, IfSome, MatchOption, option_map, length};
ghost use Rattle.std.specs.Result.{result_ok};
ghost use Rattle.sig_base.specs.Words.{is_name};
ghost use Rattle.sig_base.specs.declared.scalar.Scalar.{Scalar};
ghost use Rattle.sig_words.specs.Tokens.{AreTokens};
ghost use Rattle.sig_words.specs.Lexemes.{lexemes};
ghost use Rattle.line_forms.specs.Reader.{read_form};
ghost use Rattle.line_forms.specs.Reads.{IfRead};
ghost use Rattle.line_forms.specs.Rows.{rows_of, said_of};
ghost use Rattle.line_forms.specs.Told.{ahead, IsToldScalar};
ghost use Rattle.live_cmd.specs.Grammar.{commands, last_rows, later_rows, other_rows, table, Said, Writes};
ghost use Rattle.live_cmd.specs.Grammar as rows;
ghost use Rattle.live_cmd.specs.Views.{found_as, found_first, found_of};

use crate::last::value_last;
use crate::line::{Found, alone, around, faulty};
use crate::names::{inside_text_last, made, made_owned, name_text_at, name_text_last};
use crate::row_lines::{insert, list, move_row, put_field, remove};
use crate::sources::{any_computed, any_rewire};
use crate::watchers::{any_watcher, unwatch, watch};
use crate::{Bare, Command, Line, Verb};
use formula_text::Allow;
use line_forms::{
    NotThere, ToldValue, Unread, count_at, count_behind, ends_at, first_word, name_at, optional,
    symbol_at, tag_at, value_at,
};
use sig_base::{MOST_LINE, Name, NoMemory, Text};
use sig_words::{LineFault, Token, tokens};
use std::alloc::Global;

/// In the formulas of computeds there is no row, and every read is tracked.
pub const TRACKED: Allow = Allow {
    row: false,
    untrack: false,
};

// A verb and a name. The name is made at once, so that it is judged once.
fn named(alloc: Global, line: &[u8], tokens: &[Token], verb: Verb) -> Result<Found, Unread>
    ensures { IfRead result (λ found. found ≡ found_as (rows.verb verb) (ahead line.now tokens.now 1)) }
{
    let (name, at) = name_at(alloc, line, tokens, 1)?;
    ends_at(tokens, at)?;
    Ok(alone(Command::Named { verb, name }))
}

// A word alone.
fn only(line: &[u8], tokens: &[Token], bare: Bare) -> Result<Found, Unread>
    ensures { IfRead result (λ found. found ≡ found_as (rows.bare bare) (ahead line.now tokens.now 1)) }
{
    ends_at(tokens, 1)?;
    Ok(alone(Command::Bare(bare)))
}

// What may stand behind the value of a cell.
fn cell_options<'a>(
    line: &'a [u8],
    tokens: &[Token],
    at: usize,
) -> Result<(Option<u64>, Option<&'a str>), NotThere>
    ensures exact { option_map (λ o. (o.0, (option_map (λ t. t.now) o.1, tt))) (result_ok result) ≡ read_form (rows.equals_K ∷ rows.in_O ∷ []) (ahead line.now tokens.now at) }
    ensures name { IfOk result (λ o. IfSome o.1 (λ t. is_name t.now ≡ true)) }
{
    let (equals, at) = count_behind(line, tokens, at, b"equals")?;
    let inside = inside_text_last(line, tokens, at)?;
    Ok((equals, inside))
}

// What is found of a cell, or what is wrong with its value.
fn cell_found(name: Name, value: ToldValue, equals: Option<u64>, inside: Option<Name>) -> Found
    ensures { (v : Scalar) → IsToldScalar v value → result ≡ found_of (rows.cell, (name, (v, (equals, (inside, tt))))) }
{
    match value {
        Ok(value) => alone(Command::Cell {
            name,
            value,
            equals,
            inside,
        }),
        Err(fault) => faulty(fault),
    }
}

// `cell N = LIT [equals K] [in O]`
fn cell(alloc: Global, line: &[u8], tokens: &[Token]) -> Result<Found, Unread>
    requires { AreTokens line.now tokens.now }
    ensures { IfRead result (λ found. found ≡ found_as rows.cell (ahead line.now tokens.now 1)) }
{
    let (name, at) = name_text_at(line, tokens, 1)?;
    let at = symbol_at(line, tokens, at, b"=")?;
    let (value, at) = value_at(alloc, line, tokens, at)?;
    let (equals, inside) = cell_options(line, tokens, at)?;
    let (name, inside) = made_owned(alloc, name, inside)?;
    Ok(cell_found(name, value, equals, inside))
}

// What is found of another value of a cell, or what is wrong with it.
fn set_found(name: Name, value: ToldValue) -> Found
    ensures { (v : Scalar) → IsToldScalar v value → result ≡ found_of (rows.set, (name, (v, tt))) }
{
    match value {
        Ok(value) => alone(Command::Set { name, value }),
        Err(fault) => faulty(fault),
    }
}

// `set N LIT`. Here too the name is judged once.
fn set(alloc: Global, line: &[u8], tokens: &[Token]) -> Result<Found, Unread>
    requires { AreTokens line.now tokens.now }
    ensures { IfRead result (λ found. found ≡ found_as rows.set (ahead line.now tokens.now 1)) }
{
    let (name, at) = name_at(alloc, line, tokens, 1)?;
    let value = value_last(alloc, line, tokens, at)?;
    Ok(set_found(name, value))
}

// `owner O [in P]`
fn owner(alloc: Global, line: &[u8], tokens: &[Token]) -> Result<Found, Unread>
    ensures { IfRead result (λ found. found ≡ found_as rows.owner (ahead line.now tokens.now 1)) }
{
    let (name, at) = name_text_at(line, tokens, 1)?;
    let inside = inside_text_last(line, tokens, at)?;
    let (name, inside) = made_owned(alloc, name, inside)?;
    Ok(alone(Command::Owner { name, inside }))
}

// `mount P T [in O]`
fn mount(alloc: Global, line: &[u8], tokens: &[Token]) -> Result<Found, Unread>
    ensures { IfRead result (λ found. found ≡ found_as rows.mount (ahead line.now tokens.now 1)) }
{
    let (name, at) = name_text_at(line, tokens, 1)?;
    let (template, at) = name_text_at(line, tokens, at)?;
    let inside = inside_text_last(line, tokens, at)?;
    let template = made(alloc, template)?;
    let (name, inside) = made_owned(alloc, name, inside)?;
    Ok(alone(Command::Mount {
        name,
        template,
        inside,
    }))
}

// `effect E [in O]`
fn effect(alloc: Global, line: &[u8], tokens: &[Token]) -> Result<Found, Unread>
    ensures { IfRead result (λ found. found ≡ found_as rows.effect (ahead line.now tokens.now 1)) }
{
    let (name, at) = name_text_at(line, tokens, 1)?;
    let inside = inside_text_last(line, tokens, at)?;
    let (name, inside) = made_owned(alloc, name, inside)?;
    Ok(around(Line::Effect(name, inside)))
}

// A name, a number and an event behind `@`, which stand behind `on` and behind `fire`.
fn event_last(alloc: Global, line: &[u8], tokens: &[Token]) -> Result<(Name, u64, Text), Unread>
    requires { AreTokens line.now tokens.now }
    ensures { IfRead result (λ found. option_map (λ e. (e.0, (e.1, (e.2, tt)))) found ≡ read_form (rows.row rows.on).1 (ahead line.now tokens.now 1)) }
{
    let (name, at) = name_text_at(line, tokens, 1)?;
    let (number, at) = count_at(line, tokens, at)?;
    let (event, at) = tag_at(alloc, line, tokens, at)?;
    ends_at(tokens, at)?;
    let name = made(alloc, name)?;
    Ok((name, number, event))
}

// `on T PLACE @EVENT`
fn on(alloc: Global, line: &[u8], tokens: &[Token]) -> Result<Found, Unread>
    requires { AreTokens line.now tokens.now }
    ensures { IfRead result (λ found. found ≡ found_as rows.on (ahead line.now tokens.now 1)) }
{
    let (template, place, event) = event_last(alloc, line, tokens)?;
    Ok(around(Line::On(template, place, event)))
}

// `fire P ID @EVENT`
fn fire(alloc: Global, line: &[u8], tokens: &[Token]) -> Result<Found, Unread>
    requires { AreTokens line.now tokens.now }
    ensures { IfRead result (λ found. found ≡ found_as rows.fire (ahead line.now tokens.now 1)) }
{
    let (page, node, event) = event_last(alloc, line, tokens)?;
    Ok(alone(Command::Fire { page, node, event }))
}

// `template T`
fn template(alloc: Global, line: &[u8], tokens: &[Token]) -> Result<Found, Unread>
    ensures { IfRead result (λ found. found ≡ found_as rows.template (ahead line.now tokens.now 1)) }
{
    let name = name_text_last(line, tokens, 1)?;
    let name = made(alloc, name)?;
    Ok(around(Line::Template(name)))
}

// `end`
fn close(line: &[u8], tokens: &[Token]) -> Result<Found, NotThere>
    ensures { result_ok result ≡ found_as rows.close (ahead line.now tokens.now 1) }
{
    ends_at(tokens, 1)?;
    Ok(around(Line::End))
}

// What the tokens behind one of the last words say.
fn behind_last_word(
    alloc: Global,
    line: &[u8],
    tokens: &[Token],
    word: &str,
) -> Result<Found, Unread>
    requires { AreTokens line.now tokens.now }
    ensures { IfRead result (λ found. found ≡ found_first (rows_of word.now last_rows) (ahead line.now tokens.now 1)) }
{
    match word {
        "owner" => owner(alloc, line, tokens),
        "watcher" => any_watcher(alloc, line, tokens),
        "watch" => watch(alloc, line, tokens),
        "unwatch" => unwatch(alloc, line, tokens),
        "mount" => mount(alloc, line, tokens),
        "effect" => effect(alloc, line, tokens),
        "on" => on(alloc, line, tokens),
        "fire" => fire(alloc, line, tokens),
        "template" => template(alloc, line, tokens),
        "end" => Ok(close(line, tokens)?),
        _ => Err(Unread::NotThere),
    }
}

// So it is with those before them too.
fn behind_later_word(
    alloc: Global,
    line: &[u8],
    tokens: &[Token],
    word: &str,
) -> Result<Found, Unread>
    requires { AreTokens line.now tokens.now }
    ensures { IfRead result (λ found. found ≡ found_first (rows_of word.now later_rows) (ahead line.now tokens.now 1)) }
{
    match word {
        "cell" => cell(alloc, line, tokens),
        "set" => set(alloc, line, tokens),
        "list" => list(alloc, line, tokens),
        "insert" => insert(alloc, line, tokens),
        "remove" => remove(alloc, line, tokens),
        "move" => move_row(alloc, line, tokens),
        "put" => put_field(alloc, line, tokens),
        "computed" => any_computed(alloc, line, tokens),
        "rewire" => any_rewire(alloc, line, tokens),
        _ => behind_last_word(alloc, line, tokens, word),
    }
}

// What the tokens behind a word say that isn't a verb.
fn behind_other_word(
    alloc: Global,
    line: &[u8],
    tokens: &[Token],
    word: &str,
) -> Result<Found, Unread>
    requires { AreTokens line.now tokens.now }
    ensures { IfRead result (λ found. found ≡ found_first (rows_of word.now other_rows) (ahead line.now tokens.now 1)) }
{
    match Bare::of(word) {
        Some(bare) => only(line, tokens, bare),
        None => behind_later_word(alloc, line, tokens, word),
    }
}

// What the tokens behind any first word say.
fn behind_any_word(
    alloc: Global,
    line: &[u8],
    tokens: &[Token],
    word: &str,
) -> Result<Found, Unread>
    requires { AreTokens line.now tokens.now }
    ensures { IfRead result (λ found. found ≡ found_first (rows_of word.now table) (ahead line.now tokens.now 1)) }
{
    match Verb::of(word) {
        Some(verb) => named(alloc, line, tokens, verb),
        None => behind_other_word(alloc, line, tokens, word),
    }
}

// So it is too where the commonest words are looked at before all others.
fn behind_word(alloc: Global, line: &[u8], tokens: &[Token], word: &str) -> Result<Found, Unread>
    requires { AreTokens line.now tokens.now }
    ensures { IfRead result (λ found. found ≡ found_first (rows_of word.now table) (ahead line.now tokens.now 1)) }
{
    match word {
        "set" => set(alloc, line, tokens),
        "computed" => any_computed(alloc, line, tokens),
        "cell" => cell(alloc, line, tokens),
        "effect" => effect(alloc, line, tokens),
        "end" => Ok(close(line, tokens)?),
        _ => behind_any_word(alloc, line, tokens, word),
    }
}

// What the tokens of a line say, behind a pointer.
fn spelled(alloc: Global, line: &[u8], tokens: &[Token]) -> Result<Box<Found>, Unread>
    requires { AreTokens line.now tokens.now }
    ensures { IfRead result (λ held. option_map (λ f. f.value) held ≡ option_map found_of (said_of commands (lexemes line.now tokens.now))) }
{
    let word = first_word(line, tokens)?;
    let found = behind_word(alloc, line, tokens, word)?;
    let held = Box::new(alloc, found)?;
    Ok(held)
}

/// What a line of at most `MOST_LINE` bytes says, or what is wrong with it; `None` exactly where its bytes write nothing, as where
/// they have no tokens.
pub fn read_line(alloc: Global, line: &[u8]) -> Result<Option<Box<Found>>, NoMemory>
    requires { length line.now ≤ MOST_LINE }
    ensures { IfOk result (λ found. MatchOption found ((x : Said) → Writes x line.now → ⊥) (λ f. (x : Said) × Writes x line.now × (f.value ≡ found_of x))) }
{
    match tokens(alloc, line) {
        Ok(found) => optional(spelled(alloc, line, &found)),
        Err(LineFault::Bad(_)) => Ok(None),
        Err(LineFault::TooLong) => unreachable!(),
        Err(LineFault::NoMemory(e)) => Err(e),
    }
}
