// What ends goes out of the tables.
ghost use Rattle.std.specs.Prelude.{◌≡◌, ◌==◌, ℕ, not};
ghost use Rattle.std.specs.List.{filter};
ghost use Rattle.sig_store.specs.Stored.{entry};
ghost use Rattle.effect_tables.specs.Consistency.{AreRising};
ghost use Rattle.effect_tables.specs.Bodies.{undoing_of, undoings_of};
ghost use Rattle.effect_tables.specs.Things.{noted};
ghost use Rattle.effect_tables.specs.Owners.{closed_at};
ghost use Rattle.effect_teardown.specs.Ends.{effects_after, effects_without, owners_after, owners_without, pages_after, pages_without, forgotten, things_after, things_without};
ghost use Rattle.effect_teardown.specs.Rows.{effect_row};

use effect_tables::{Effect, OwnerRows, Thing, Undoing, effect_place, forget_row};
use indexmap::IndexMap;
use sig_base::{EffectId, OwnerId, PageId};

// Nothing is noted any more of the row that is given, if any.
fn forget(things: &mut IndexMap<OwnerId, Thing>, row: Option<OwnerId>)
    ensures { (k : ℕ) → noted things.new k ≡ forgotten row (noted things.old) k }
{
    let Some(row) = row else {
        return;
    };
    forget_row(things, row);
}

// The owner of a number is gone, and nothing is noted of its row.
fn close_owner(owners: &mut OwnerRows, things: &mut IndexMap<OwnerId, Thing>, id: OwnerId)
    ensures owners { owners.new.items ≡ closed_at id owners.old.items }
    ensures things { (k : ℕ) → noted things.new k ≡ forgotten (entry owners.old.items id) (noted things.old) k }
{
    let row = owners.close(id);
    forget(things, row);
}

// An effect goes out, and its row is given; its place is found by halves.
fn drop_effect(effects: &mut Vec<Effect>, id: EffectId) -> Option<OwnerId>
    requires { AreRising 0 effects.old.items }
    ensures row { result ≡ effect_row id effects.old.items }
    ensures left { effects.new.items ≡ filter (λ x. not (id == x.id)) effects.old.items }
{
    let Some(place) = effect_place(effects, id) else {
        return None;
    };
    let effect = effects.remove(place);
    Some(effect.row)
}

// An effect goes out, and nothing is noted of its row.
fn end_effect(effects: &mut Vec<Effect>, things: &mut IndexMap<OwnerId, Thing>, id: EffectId)
    requires { AreRising 0 effects.old.items }
    ensures effects { effects.new.items ≡ filter (λ x. not (id == x.id)) effects.old.items }
    ensures things { (k : ℕ) → noted things.new k ≡ forgotten (effect_row id effects.old.items) (noted things.old) k }
{
    let row = drop_effect(effects, id);
    forget(things, row);
}

fn drop_page(pages: &mut Vec<PageId>, id: PageId)
    ensures { pages.new.items ≡ filter (λ n. not (id == n)) pages.old.items }
{
    pages.retain(|page| id != *page);
}

// What ends in one step goes out of its table.
fn end_one(
    owners: &mut OwnerRows,
    effects: &mut Vec<Effect>,
    pages: &mut Vec<PageId>,
    things: &mut IndexMap<OwnerId, Thing>,
    undoing: &Undoing,
)
    requires { AreRising 0 effects.old.items }
    ensures owners { owners.new.items ≡ owners_without (undoing_of undoing.now) owners.old.items }
    ensures effects { effects.new.items ≡ effects_without (undoing_of undoing.now) effects.old.items }
    ensures pages { pages.new.items ≡ pages_without (undoing_of undoing.now) pages.old.items }
    ensures things { (k : ℕ) → noted things.new k ≡ things_without (undoing_of undoing.now) owners.old.items effects.old.items (noted things.old) k }
{
    match undoing {
        Undoing::Gone(Thing::Owner(id)) => close_owner(owners, things, *id),
        Undoing::Gone(Thing::Effect(id)) => end_effect(effects, things, *id),
        Undoing::Gone(Thing::Page(id)) => drop_page(pages, *id),
        _ => {}
    }
}

/// What ends in these steps goes out of its table.
pub(crate) fn end_all(
    owners: &mut OwnerRows,
    effects: &mut Vec<Effect>,
    pages: &mut Vec<PageId>,
    things: &mut IndexMap<OwnerId, Thing>,
    undoings: &[Undoing],
)
    requires { AreRising 0 effects.old.items }
    ensures owners { owners.new.items ≡ owners_after (undoings_of undoings.now) owners.old.items }
    ensures effects { effects.new.items ≡ effects_after (undoings_of undoings.now) effects.old.items }
    ensures pages { pages.new.items ≡ pages_after (undoings_of undoings.now) pages.old.items }
    ensures things { (k : ℕ) → noted things.new k ≡ things_after (undoings_of undoings.now) owners.old.items effects.old.items (noted things.old) k }
{
    for undoing in undoings {
        end_one(owners, effects, pages, things, undoing);
    }
}
