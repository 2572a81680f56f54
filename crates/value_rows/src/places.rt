// The call with ample memory.
ghost use Rattle.std.specs.Prelude.{◌≡◌, ◌∷◌, [], IfOk};

use keyed_each::{RowStep, place};
use sig_base::Text;
use std::alloc::Global;
use std::test::Fail;

fn keys(alloc: Global, first: &str, second: &str, third: &str) -> Result<Vec<Text>, Fail>
    ensures { IfOk result (λ v. v.items ≡ first.now ∷ second.now ∷ third.now ∷ []) }
{
    let mut keys = Vec::new(alloc);
    keys.push(Text::new(alloc, first)?)?;
    keys.push(Text::new(alloc, second)?)?;
    keys.push(Text::new(alloc, third)?)?;
    Ok(keys)
}

#[test]
fn places_rows(rt: HostRuntime) -> Result<(), Fail> {
    let alloc = rt.alloc();
    let old = keys(alloc, "a", "b", "c")?;
    let new = keys(alloc, "c", "d", "a")?;
    let steps = place(alloc, &old, &new)?;
    let want = [RowStep::Move(2), RowStep::Insert(1), RowStep::Keep];
    assert!(rt; steps.as_slice() == want.as_slice());
    Ok(())
}

// Keys that stand in place, and keys that are shared.
#[test]
fn places_long_keys(rt: HostRuntime) -> Result<(), Fail> {
    let alloc = rt.alloc();
    let old = keys(alloc, "abcdefg", "abcdef", "abcdefgh")?;
    let new = keys(alloc, "abcdefgh", "abcdefghi", "abcdefg")?;
    let steps = place(alloc, &old, &new)?;
    let want = [RowStep::Move(2), RowStep::Insert(1), RowStep::Keep];
    assert!(rt; steps.as_slice() == want.as_slice());
    Ok(())
}
