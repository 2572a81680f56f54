// A store by number, and the counts of numbers, with ample memory.

use sig_base::one_given;
use sig_store::Store;
use std::test::Fail;

#[test]
fn gives_no_number_twice(rt: HostRuntime) -> Result<(), Fail> {
    let mut store: Store<u64> = Store::new(rt.alloc());
    store.reserve(3)?;
    let first = store.push(10);
    let second = store.push(20);
    let taken = store.remove(first);
    let third = store.push(30);
    *store.value_mut(second) = 21;
    assert!(rt; taken == 10);
    assert!(rt; first == 0 && second == 1 && third == 2);
    assert!(rt; store.made() == 3);
    assert!(rt; store.get(first) == None);
    assert!(rt; store.get(second) == Some(&21));
    assert!(rt; store.get(third) == Some(&30));
    Ok(())
}

#[test]
fn gives_no_number_behind_the_last(rt: HostRuntime) -> Result<(), Fail> {
    assert!(rt; one_given(3)? == 4);
    assert!(rt; one_given(u64::MAX).is_err());
    Ok(())
}
