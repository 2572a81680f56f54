// What settling runs, and in which order.
ghost use Rattle.std.specs.Prelude.{IfOk};
ghost use Rattle.settle_rows.specs.Scenes.{IsReady};

use crate::scene::Scene;
use sig_base::Value;
use sig_host::{Lent, Shelf};
use std::alloc::Global;
use std::test::Fail;

// A scene with no host formulas.
fn empty(alloc: Global) -> Result<Box<Scene>, Fail>
    ensures ready { IfOk result (λ s. IsReady s.value.graph (⟦<Shelf as Lent>⟧.asked s.value.shelf) s.value.ids.items s.value.commands) }
    ensures counted { IfOk result (λ s. ⟦<Shelf as Lent>⟧.counted s.value.shelf) }
{
    let scene = Scene::new(alloc)?;
    Ok(Box::new(alloc, scene)?)
}

// A change of the cell that changes no truth above it.
fn change_in_vain(s: &mut Scene) -> Result<(), Fail>
    requires ready { IsReady s.old.graph (⟦<Shelf as Lent>⟧.asked s.old.shelf) s.old.ids.items s.old.commands }
    requires counted { ⟦<Shelf as Lent>⟧.counted s.old.shelf }
{
    s.cell("a", Value::Int(5))?;
    s.computed("big", "a > 10")?;
    s.computed("say", "if big then 1 else 2")?;
    s.get("say")?;
    s.set("a", Value::Int(6))?;
    s.get("say")
}

#[test]
fn a_run_that_changes_nothing_stops_there(rt: HostRuntime) -> Result<(), Fail> {
    let mut s = empty(rt.alloc())?;
    change_in_vain(&mut s)?;
    assert!(rt;
        s.wrote("run big (a) = false\nrun say (big) = 2\nsay = 2\nrun big (a) = false\nsay = 2\n")
    );
    Ok(())
}

// A rewiring that makes a chain go in a circle.
fn close_a_circle(s: &mut Scene) -> Result<(), Fail>
    requires ready { IsReady s.old.graph (⟦<Shelf as Lent>⟧.asked s.old.shelf) s.old.ids.items s.old.commands }
    requires counted { ⟦<Shelf as Lent>⟧.counted s.old.shelf }
{
    s.computed("c", "1")?;
    s.computed("b", "c")?;
    s.computed("a", "b")?;
    s.get("a")?;
    s.rewire("c", "a")?;
    s.get("b")
}

#[test]
fn a_source_under_evaluation_counts_as_changed(rt: HostRuntime) -> Result<(), Fail> {
    let mut s = empty(rt.alloc())?;
    close_a_circle(&mut s)?;
    assert!(rt;
        s.wrote(
            "run c () = 1\nrun b (c) = 1\nrun a (b) = 1\na = 1\nrun a (b) ! cycle\nrun c (a) ! cycle\nrun b (c) ! cycle\nb ! cycle\n"
        )
    );
    Ok(())
}
