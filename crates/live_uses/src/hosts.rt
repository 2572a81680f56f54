// The host formulas that the rewirings of a body ask.
ghost use Rattle.std.specs.Prelude.{◌≡◌, ◌++◌, IfOk, OnOk, map};
ghost use Rattle.sig_untrack.specs.Stated as stated;
ghost use Rattle.sig_untrack.specs.Stated.{before, no_bodies, put, rewiring, Stated};
ghost use Rattle.live_model.specs.Uses.{at_place, host_in, hosts_of_body, hosts_of_statements};
ghost use Rattle.live_uses.specs.Views.{inner_hosts, rewired_hosts};

use sig_base::NoMemory;
use sig_untrack::{Body, Recipe2, Rewire, Stmt};
use std::alloc::Global;

/// The places of host formulas in the nested effects of a body, and its rewirings.
#[derive(Clone, Copy)]
pub struct Hosting<'b> {
    pub effects: &'b [Vec<u64>],
    pub rewires: &'b [Rewire],
}

// Puts the places of the nested effect at a place behind others, if there is one.
fn put_effect(places: &mut Vec<u64>, effects: &[Vec<u64>], place: u32) -> Result<(), NoMemory>
    ensures { OnOk result (places.new.items ≡ places.old.items ++ at_place (map (λ v. v.items) effects.now) place) }
{
    match effects.get(place as usize) {
        Some(more) => {
            places.extend_from_slice(more)?;
            Ok(())
        }
        None => Ok(()),
    }
}

// Puts the place of a rewiring's host formula, if it asks one.
fn put_rewiring(places: &mut Vec<u64>, rewire: &Rewire) -> Result<(), NoMemory>
    ensures { OnOk result (places.new.items ≡ places.old.items ++ host_in (rewiring rewire.now).source) }
{
    match &rewire.recipe {
        Recipe2::Formula(_) => Ok(()),
        Recipe2::Host(place) => {
            places.push(*place)?;
            Ok(())
        }
    }
}

// Puts the place of the host formula of the rewiring at a place, if there is one and it asks one.
fn put_rewired(places: &mut Vec<u64>, rewires: &[Rewire], place: u32) -> Result<(), NoMemory>
    ensures { OnOk result (places.new.items ≡ places.old.items ++ at_place (rewired_hosts rewires.now) place) }
{
    match rewires.get(place as usize) {
        Some(rewire) => {
            put_rewiring(places, rewire)?;
            Ok(())
        }
        None => Ok(()),
    }
}

// Puts the places in a statement.
#[cycle(hosting)]
fn put_statement(places: &mut Vec<u64>, hosting: &Hosting, statement: &Stmt) -> Result<(), NoMemory>
    ensures { OnOk result ((rest : Stated) →
        places.new.items ++ hosts_of_statements (inner_hosts hosting.now) (rewired_hosts hosting.now.rewires.now) rest
        ≡ places.old.items ++ hosts_of_statements (inner_hosts hosting.now) (rewired_hosts hosting.now.rewires.now) (put statement.now rest)) }
{
    match statement {
        Stmt::Plain(_) => Ok(()),
        Stmt::When(_, inner) => {
            put_statements(places, hosting, inner)?;
            Ok(())
        }
        Stmt::Effect(place) => {
            put_effect(places, hosting.effects, *place)?;
            Ok(())
        }
        Stmt::Rewire(place) => {
            put_rewired(places, hosting.rewires, *place)?;
            Ok(())
        }
    }
}

// Puts the places in statements.
#[cycle(hosting)]
fn put_statements(
    places: &mut Vec<u64>,
    hosting: &Hosting,
    statements: &[Stmt],
) -> Result<(), NoMemory>
    ensures { OnOk result ((rest : Stated) →
        places.new.items ++ hosts_of_statements (inner_hosts hosting.now) (rewired_hosts hosting.now.rewires.now) rest
        ≡ places.old.items ++ hosts_of_statements (inner_hosts hosting.now) (rewired_hosts hosting.now.rewires.now) (stated.stated statements.now rest)) }
{
    for statement in statements {
        put_statement(places, hosting, statement)?;
    }
    Ok(())
}

/// The places of the host formulas in a body in the order of the text, those in its nested effects too.
pub fn hosts_of_body(alloc: Global, body: &Body) -> Result<Vec<u64>, NoMemory>
    ensures { IfOk result (λ places. places.items ≡ hosts_of_body (before body.now no_bodies)) }
{
    let mut effects = Vec::new(alloc);
    for inner in &body.effects {
        effects.push(hosts_of_body(alloc, inner)?)?;
    }
    let hosting = Hosting {
        effects: &effects,
        rewires: &body.rewires,
    };
    let mut places = Vec::new(alloc);
    put_statements(&mut places, &hosting, &body.statements)?;
    Ok(places)
}
