// What lives by the tables.
ghost use Rattle.std.specs.Prelude.{◌≡◌};
ghost use Rattle.signal_model.specs.Signals.{is_in};
ghost use Rattle.effect_tables.specs.Consistency.{TablesAgree};
ghost use Rattle.effect_teardown.specs.Rows.{effect_row};

use effect_tables::{Tables, effect_place};
use sig_base::{EffectId, OwnerId, PageId};

/// The row of an effect that lives. It is found by halves among all that live.
pub fn effect_row(tables: &Tables, id: EffectId) -> Option<OwnerId>
    requires { TablesAgree tables.now }
    ensures { result ≡ effect_row id tables.now.effects.items }
{
    let place = effect_place(&tables.effects, id)?;
    Some(tables.effects[place].row)
}

/// Whether a page is among these.
pub(crate) fn has_page(pages: &[PageId], id: PageId) -> bool
    ensures { result ≡ is_in id pages.now }
{
    for page in pages {
        if id == *page {
            return true;
        }
    }
    false
}
