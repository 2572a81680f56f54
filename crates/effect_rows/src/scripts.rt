// Scripts of bodies that say nothing.
ghost use Rattle.std.specs.Prelude.{◌≡◌, []};
ghost use Rattle.sig_untrack.specs.Stated as stated;
ghost use Rattle.sig_untrack.specs.Stated.{before, no_bodies};
ghost use Rattle.effect_tables.specs.Scripts.{IsFitting};
ghost use Rattle.effect_tables.specs.Bodies as linking;
ghost use Rattle.effect_tables.specs.Bodies.{links_before, no_links};

use effect_tables::{Links, Script, Target};
use sig_untrack::Body;
use std::alloc::Global;

// A body that says nothing.
fn no_statements(alloc: Global) -> Body
    ensures { before result no_bodies ≡ stated.body stated.no_more [] [] no_bodies [] no_bodies }
{
    Body {
        statements: Vec::new(alloc),
        targets: Vec::new(alloc),
        names: Vec::new(alloc),
        effects: Vec::new(alloc),
        rewires: Vec::new(alloc),
    }
}

// Links of targets alone.
fn linked_to(alloc: Global, targets: Vec<Target>) -> Links
    ensures { links_before result no_links ≡ linking.links [] targets.items no_links [] no_links }
{
    Links {
        names: Vec::new(alloc),
        targets,
        inner: Vec::new(alloc),
        rewires: Vec::new(alloc),
    }
}

/// A body that says nothing, with these targets.
pub(crate) fn idle(alloc: Global, targets: Vec<Target>) -> Script
    ensures { IsFitting result }
{
    let body = no_statements(alloc);
    let links = linked_to(alloc, targets);
    Script { body, links }
}
