// Reads the lines of watchers.
ghost use Rattle.std.specs.Prelude.{◌≡◌, ◌∷◌, [], true, Ok, Some};
ghost use Rattle.sig_base.specs.declared.scalar.Scalar.{Scalar};
ghost use Rattle.sig_words.specs.Tokens.{AreTokens};
ghost use Rattle.line_forms.specs.Reads.{IfRead};
ghost use Rattle.line_forms.specs.Told.{ahead, IsToldScalar};
ghost use Rattle.live_cmd.specs.declared.command.Command.TheVariants as command;
ghost use Rattle.live_cmd.specs.declared.line.Line.TheVariants as given;
ghost use Rattle.live_cmd.specs.Grammar as rows;
ghost use Rattle.live_cmd.specs.Views.{found_as, found_first, found_of};

use crate::last::value_last;
use crate::line::{Found, alone, faulty};
use crate::names::{made, made_both, name_text_at, name_text_last};
use crate::{Command, Try};
use line_forms::{ToldValue, Unread, ends_at, names_at, word_at};
use sig_base::Name;
use sig_words::Token;
use std::alloc::Global;

// A watcher that tries something.
fn trying(name: Name, tried: Try) -> Found
    ensures { result ≡ record { alone = true; line = Ok (given.Alone (command.Watcher name (Some tried))) } }
{
    alone(Command::Watcher {
        name,
        tries: Some(tried),
    })
}

// `watcher W`
fn watcher(alloc: Global, line: &[u8], tokens: &[Token]) -> Result<Found, Unread>
    ensures { IfRead result (λ found. found ≡ found_as rows.watcher (ahead line.now tokens.now 1)) }
{
    let name = name_text_last(line, tokens, 1)?;
    let name = made(alloc, name)?;
    Ok(alone(Command::Watcher { name, tries: None }))
}

// `watcher W tries get N`
fn tries_get(alloc: Global, line: &[u8], tokens: &[Token]) -> Result<Found, Unread>
    ensures { IfRead result (λ found. found ≡ found_as rows.tries_get (ahead line.now tokens.now 1)) }
{
    let (name, at) = name_text_at(line, tokens, 1)?;
    let at = word_at(line, tokens, at, b"tries")?;
    let at = word_at(line, tokens, at, b"get")?;
    let read = name_text_last(line, tokens, at)?;
    let (name, read) = made_both(alloc, name, read)?;
    Ok(trying(name, Try::Get(read)))
}

// What is found of a watcher that sets a cell, or what is wrong with the value.
fn setting(name: Name, cell: Name, value: ToldValue) -> Found
    ensures { (v : Scalar) → IsToldScalar v value → result ≡ found_of (rows.tries_set, (name, (cell, (v, tt)))) }
{
    match value {
        Ok(value) => trying(name, Try::Set(cell, value)),
        Err(fault) => faulty(fault),
    }
}

// `watcher W tries set N LIT`
fn tries_set(alloc: Global, line: &[u8], tokens: &[Token]) -> Result<Found, Unread>
    requires { AreTokens line.now tokens.now }
    ensures { IfRead result (λ found. found ≡ found_as rows.tries_set (ahead line.now tokens.now 1)) }
{
    let (name, at) = name_text_at(line, tokens, 1)?;
    let at = word_at(line, tokens, at, b"tries")?;
    let at = word_at(line, tokens, at, b"set")?;
    let (cell, at) = name_text_at(line, tokens, at)?;
    let value = value_last(alloc, line, tokens, at)?;
    let (name, cell) = made_both(alloc, name, cell)?;
    Ok(setting(name, cell, value))
}

// `watcher W tries watch V a b ..`
fn tries_watch(alloc: Global, line: &[u8], tokens: &[Token]) -> Result<Found, Unread>
    ensures { IfRead result (λ found. found ≡ found_as rows.tries_watch (ahead line.now tokens.now 1)) }
{
    let (name, at) = name_text_at(line, tokens, 1)?;
    let at = word_at(line, tokens, at, b"tries")?;
    let at = word_at(line, tokens, at, b"watch")?;
    let (watcher, at) = name_text_at(line, tokens, at)?;
    let (signals, at) = names_at(alloc, line, tokens, at)?;
    ends_at(tokens, at)?;
    let (name, watcher) = made_both(alloc, name, watcher)?;
    Ok(trying(name, Try::Watch(watcher, signals)))
}

// `watcher W tries unwatch V a`
fn tries_unwatch(alloc: Global, line: &[u8], tokens: &[Token]) -> Result<Found, Unread>
    ensures { IfRead result (λ found. found ≡ found_as rows.tries_unwatch (ahead line.now tokens.now 1)) }
{
    let (name, at) = name_text_at(line, tokens, 1)?;
    let at = word_at(line, tokens, at, b"tries")?;
    let at = word_at(line, tokens, at, b"unwatch")?;
    let (watcher, at) = name_text_at(line, tokens, at)?;
    let signal = name_text_last(line, tokens, at)?;
    let name = made(alloc, name)?;
    let (watcher, signal) = made_both(alloc, watcher, signal)?;
    Ok(trying(name, Try::Unwatch(watcher, signal)))
}

/// `watcher W [tries CMD]`
pub fn any_watcher(alloc: Global, line: &[u8], tokens: &[Token]) -> Result<Found, Unread>
    requires { AreTokens line.now tokens.now }
    ensures { IfRead result (λ found. found
        ≡ found_first (rows.watcher ∷ rows.tries_get ∷ rows.tries_set ∷ rows.tries_watch ∷ rows.tries_unwatch ∷ []) (ahead line.now tokens.now 1)) }
{
    match watcher(alloc, line, tokens) {
        Err(Unread::NotThere) => {}
        found => return found,
    }
    match tries_get(alloc, line, tokens) {
        Err(Unread::NotThere) => {}
        found => return found,
    }
    match tries_set(alloc, line, tokens) {
        Err(Unread::NotThere) => {}
        found => return found,
    }
    match tries_watch(alloc, line, tokens) {
        Err(Unread::NotThere) => {}
        found => return found,
    }
    tries_unwatch(alloc, line, tokens)
}

/// `watch W a b ..`
pub fn watch(alloc: Global, line: &[u8], tokens: &[Token]) -> Result<Found, Unread>
    ensures { IfRead result (λ found. found ≡ found_as rows.watch (ahead line.now tokens.now 1)) }
{
    let (name, at) = name_text_at(line, tokens, 1)?;
    let (signals, at) = names_at(alloc, line, tokens, at)?;
    ends_at(tokens, at)?;
    let name = made(alloc, name)?;
    Ok(alone(Command::Watch { name, signals }))
}

/// `unwatch W a`
pub fn unwatch(alloc: Global, line: &[u8], tokens: &[Token]) -> Result<Found, Unread>
    ensures { IfRead result (λ found. found ≡ found_as rows.unwatch (ahead line.now tokens.now 1)) }
{
    let (name, at) = name_text_at(line, tokens, 1)?;
    let signal = name_text_last(line, tokens, at)?;
    let (name, signal) = made_both(alloc, name, signal)?;
    Ok(alone(Command::Unwatch { name, signal }))
}
