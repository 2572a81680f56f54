// How many steps settling counts.
ghost use Rattle.std.specs.Prelude.{OnOk};
ghost use Rattle.settle_rows.specs.Scenes.{IsReady};

use crate::scene::Scene;
use sig_base::Value;
use sig_host::{Lent, Shelf};
use std::test::Fail;

// A computed over two computeds of one cell, which is set once all of them have run.
fn change_under_three(s: &mut Scene) -> Result<(), Fail>
    requires ready { IsReady s.old.graph (⟦<Shelf as Lent>⟧.asked s.old.shelf) s.old.ids.items s.old.commands }
    requires counted { ⟦<Shelf as Lent>⟧.counted s.old.shelf }
    ensures ready { OnOk result (IsReady s.new.graph (⟦<Shelf as Lent>⟧.asked s.new.shelf) s.new.ids.items s.new.commands) }
    ensures counted { OnOk result (⟦<Shelf as Lent>⟧.counted s.new.shelf) }
{
    s.cell("a", Value::Int(1))?;
    s.computed("b", "a + 1")?;
    s.computed("c", "a * 2")?;
    s.computed("d", "b + c")?;
    s.get("d")?;
    s.set("a", Value::Int(2))?;
    Ok(())
}

#[test]
fn what_is_clean_takes_one_look(rt: HostRuntime) -> Result<(), Fail> {
    let mut s = Scene::new(rt.alloc())?;
    change_under_three(&mut s)?;
    let changed = s.steps("d")?;
    let again = s.steps("d")?;
    assert!(rt; changed <= 31 && again <= 1);
    assert!(rt;
        s.wrote(
            "run b (a) = 2\nrun c (a) = 2\nrun d (b c) = 4\nd = 4\nrun b (a) = 3\nrun c (a) = 4\nrun d (b c) = 7\n"
        )
    );
    Ok(())
}
