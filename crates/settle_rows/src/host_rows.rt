// What settling asks of host formulas.
ghost use Rattle.std.specs.Prelude.{◌≡◌, IfOk, OnOk};
ghost use Rattle.settle_rows.specs.Scenes.{IsReady};

use crate::hosts::{Again, First};
use crate::scene::Scene;
use sig_base::Value;
use sig_host::{HostFormula, Lent, Shelf};
use std::alloc::Global;
use std::test::Fail;

// A scene with one host formula, at place 0.
fn scene_of(alloc: Global, lent: Box<dyn HostFormula>) -> Result<Box<Scene>, Fail>
    requires { asks lent ≡ 0 }
    ensures ready { IfOk result (λ s. IsReady s.value.graph (⟦<Shelf as Lent>⟧.asked s.value.shelf) s.value.ids.items s.value.commands) }
    ensures counted { IfOk result (λ s. ⟦<Shelf as Lent>⟧.counted s.value.shelf) }
{
    let mut hosts = Vec::new(alloc);
    hosts.push(lent)?;
    let scene = Scene::lent(alloc, hosts)?;
    Ok(Box::new(alloc, scene)?)
}

// Gets a host formula over a computed twice, and once more after a change.
fn get_over_a_computed(s: &mut Scene) -> Result<(), Fail>
    requires ready { IsReady s.old.graph (⟦<Shelf as Lent>⟧.asked s.old.shelf) s.old.ids.items s.old.commands }
    requires counted { ⟦<Shelf as Lent>⟧.counted s.old.shelf }
    ensures { OnOk result (⟦<Shelf as Lent>⟧.counted s.new.shelf) }
{
    s.cell("a", Value::Int(1))?;
    s.computed("b", "a + 1")?;
    s.host("h", 0, "b")?;
    s.get("h")?;
    s.get("h")?;
    s.set("a", Value::Int(2))?;
    s.get("h")?;
    Ok(())
}

#[test]
fn a_run_asks_once_more_than_it_reads(rt: HostRuntime) -> Result<(), Fail> {
    let alloc = rt.alloc();
    let mut s = scene_of(alloc, Box::new(alloc, First::new())?)?;
    get_over_a_computed(&mut s)?;
    assert!(rt;
        s.wrote("run b (a) = 2\nrun h (b) = 2\nh = 2\nh = 2\nrun b (a) = 3\nrun h (b) = 3\nh = 3\n")
    );
    assert!(rt; s.asks(0)? == 4);
    Ok(())
}

// Gets a host formula over a cell.
fn get_over_a_cell(s: &mut Scene) -> Result<(), Fail>
    requires ready { IsReady s.old.graph (⟦<Shelf as Lent>⟧.asked s.old.shelf) s.old.ids.items s.old.commands }
    requires counted { ⟦<Shelf as Lent>⟧.counted s.old.shelf }
    ensures { OnOk result (⟦<Shelf as Lent>⟧.counted s.new.shelf) }
{
    s.cell("a", Value::Int(1))?;
    s.host("h", 0, "a")?;
    s.get("h")?;
    Ok(())
}

#[test]
fn a_slot_asked_for_again_is_twice(rt: HostRuntime) -> Result<(), Fail> {
    let alloc = rt.alloc();
    let mut s = scene_of(alloc, Box::new(alloc, Again::new(0))?)?;
    get_over_a_cell(&mut s)?;
    assert!(rt; s.wrote("run h (a) ! twice\nh ! twice\n"));
    assert!(rt; s.asks(0)? == 2);
    Ok(())
}
