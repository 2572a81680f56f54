// Which signals stand in a store.
ghost use Rattle.std.specs.Prelude.{◌≡◌, is_some};
ghost use Rattle.sig_store.specs.Stored.{entry};

use sig_store::Store;

/// Whether something stands under a number.
#[inline(always)]
pub(crate) fn stands_in<T>(store: &Store<T>, id: u64) -> bool
    ensures { result ≡ is_some (entry store.now.entries id) }
{
    store.get(id).is_some()
}
