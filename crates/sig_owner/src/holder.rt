// Owners and effects by number, and edits of one of them. Of what ended nothing is kept.
ghost use Rattle.std.specs.Prelude.{◌≡◌, ◌+◌, if◌then◌else◌, true, ◌++◌, ◌∷◌, [], length, filter, not, IfSome, IfNone, OnOk, OnErr};
ghost use Rattle.sig_owner.specs.Removals.{is_held_of, is_leaf_of, sifted_inside, sifted_row};
ghost use Rattle.sig_owner.specs.Tables as tables;
ghost use Rattle.sig_owner.specs.Tables.{above_at, all_ended, changed_at, ended_row, emptied_row, is_owner_row, is_row_of, item_of, items_at, items_of, live_at, no_row, owner_count, row_at, row_of, rows_of, thing_at, thing_of, with_holder, with_item};

use crate::thing::{CleanupAct, Thing};
use sig_base::{NoMemory, OwnerId};
use sig_store::Store;
use std::alloc::Global;

/// What was made under a holder: another holder, a node or a page, or a cleanup.
#[derive(Drop)]
pub(crate) enum Made {
    Held(OwnerId),
    Leaf(Thing),
    Cleanup(CleanupAct),
}

/// An owner that lives, or an effect that does with the owner that was made for it: what it stands in, and what was made under it, in the
/// order of making.
#[derive(Drop)]
pub(crate) struct Holder {
    pub thing: Thing,
    pub above: Option<OwnerId>,
    pub made: Vec<Made>,
}

// ---- looks

// The holder that lives there, if any.
fn holder_at(holders: &Store<Holder>, id: OwnerId) -> Option<&Holder>
    ensures some { IfSome result (λ h. row_at (rows_of holders.now.entries) id ≡ row_of h.now) }
    ensures none { IfNone result (row_at (rows_of holders.now.entries) id ≡ no_row) }
{
    holders.get(id.number())
}

/// Whether a holder lives there.
pub(crate) fn is_live_at(holders: &Store<Holder>, id: OwnerId) -> bool
    ensures { result ≡ live_at (rows_of holders.now.entries) id }
{
    match holder_at(holders, id) {
        Some(_) => true,
        None => false,
    }
}

/// Whether more can be made there: at the top, or inside a holder that lives.
pub(crate) fn is_open(holders: &Store<Holder>, inside: &Option<OwnerId>) -> bool
    ensures { result ≡ tables.is_open (rows_of holders.now.entries) inside.now }
{
    match inside {
        Some(outer) => is_live_at(holders, *outer),
        None => true,
    }
}

/// What was made under a holder, in order.
pub(crate) fn made_at(holders: &Store<Holder>, id: OwnerId) -> &[Made]
    ensures { items_of result.now ≡ items_at (rows_of holders.now.entries) id }
{
    match holder_at(holders, id) {
        Some(holder) => &holder.made,
        None => &[],
    }
}

/// Which thing a holder is that lives.
pub(crate) fn thing_at(holders: &Store<Holder>, id: OwnerId) -> Thing
    requires { live_at (rows_of holders.now.entries) id ≡ true }
    ensures { thing_of result ≡ thing_at (rows_of holders.now.entries) id }
{
    match holder_at(holders, id) {
        Some(holder) => holder.thing,
        None => unreachable!(),
    }
}

fn is_owner(holder: &Holder) -> bool
    ensures { result ≡ is_owner_row (row_of holder.now) }
{
    match holder.thing {
        Thing::Owner(_) => true,
        _ => false,
    }
}

// Whether an owner lives there that is no effect's.
fn is_owner_at(holders: &Store<Holder>, id: OwnerId) -> bool
    ensures { result ≡ is_owner_row (row_at (rows_of holders.now.entries) id) }
{
    match holder_at(holders, id) {
        Some(holder) => is_owner(holder),
        None => false,
    }
}

fn is_thing(holder: &Holder, thing: &Thing) -> bool
    ensures { result ≡ is_row_of (thing_of thing.now) (row_of holder.now) }
{
    *thing == holder.thing
}

/// Whether the holder there lives and is this thing.
pub(crate) fn is_thing_at(holders: &Store<Holder>, id: OwnerId, thing: &Thing) -> bool
    ensures { result ≡ is_row_of (thing_of thing.now) (row_at (rows_of holders.now.entries) id) }
{
    match holder_at(holders, id) {
        Some(holder) => is_thing(holder, thing),
        None => false,
    }
}

// In which holder the one there stands, if any.
fn above_at(holders: &Store<Holder>, id: OwnerId) -> Option<OwnerId>
    ensures { result ≡ above_at (rows_of holders.now.entries) id }
{
    match holder_at(holders, id) {
        Some(holder) => holder.above,
        None => None,
    }
}

// ---- edits

// Puts one more under a holder.
fn put(holder: &mut Holder, made: Made) -> Result<(), NoMemory>
    ensures ok { OnOk result (row_of holder.new ≡ with_item (item_of made) (row_of holder.old)) }
    ensures err { OnErr result (row_of holder.new ≡ row_of holder.old) }
{
    holder.made.push(made)?;
    Ok(())
}

/// Puts one more under a holder that lives; without memory all is as before.
pub(crate) fn put_at(holders: &mut Store<Holder>, id: OwnerId, made: Made) -> Result<(), NoMemory>
    requires { live_at (rows_of holders.old.entries) id ≡ true }
    ensures ok { OnOk result (rows_of holders.new.entries ≡ changed_at (with_item (item_of made)) id (rows_of holders.old.entries)) }
    ensures err { OnErr result (rows_of holders.new.entries ≡ rows_of holders.old.entries) }
    ensures room { holders.new.room ≡ holders.old.room }
{
    put(holders.value_mut(id.number()), made)?;
    Ok(())
}

// Takes away what stands under a holder.
fn clear(holder: &mut Holder)
    ensures { row_of holder.new ≡ emptied_row (row_of holder.old) }
{
    holder.made.clear();
}

/// Takes away what stands under a holder.
pub(crate) fn clear_at(holders: &mut Store<Holder>, id: OwnerId)
    ensures { rows_of holders.new.entries ≡ changed_at emptied_row id (rows_of holders.old.entries) }
{
    if !is_live_at(holders, id) {
        return;
    }
    clear(holders.value_mut(id.number()));
}

/// Ends a holder, of which nothing is kept then.
pub(crate) fn end_at(holders: &mut Store<Holder>, id: OwnerId)
    ensures { rows_of holders.new.entries ≡ changed_at ended_row id (rows_of holders.old.entries) }
{
    if !is_live_at(holders, id) {
        return;
    }
    holders.remove(id.number());
}

// Puts an item under the holder that is given, if any; without memory all is as before.
fn put_inside(
    holders: &mut Store<Holder>,
    inside: &Option<OwnerId>,
    made: Made,
) -> Result<(), NoMemory>
    requires { tables.is_open (rows_of holders.old.entries) inside.now ≡ true }
    ensures ok { OnOk result (rows_of holders.new.entries ≡ tables.put_inside inside.now (item_of made) (rows_of holders.old.entries)) }
    ensures err { OnErr result (rows_of holders.new.entries ≡ rows_of holders.old.entries) }
    ensures room { holders.new.room ≡ holders.old.room }
{
    match inside {
        Some(outer) => {
            put_at(holders, *outer, made)?;
            Ok(())
        }
        None => Ok(()),
    }
}

/// One holder more, whose number is the next; without memory all is as before.
pub(crate) fn add_holder(
    alloc: Global,
    holders: &mut Store<Holder>,
    thing: Thing,
    inside: Option<OwnerId>,
) -> Result<(), NoMemory>
    requires { tables.is_open (rows_of holders.old.entries) inside ≡ true }
    ensures ok { OnOk result (rows_of holders.new.entries ≡ with_holder (rows_of holders.old.entries) inside (thing_of thing)) }
    ensures err { OnErr result (rows_of holders.new.entries ≡ rows_of holders.old.entries) }
{
    holders.reserve(1)?;
    let id = OwnerId::of(holders.made());
    put_inside(holders, &inside, Made::Held(id))?;
    holders.push(Holder {
        thing,
        above: inside,
        made: Vec::new(alloc),
    });
    Ok(())
}

// Takes one off the count of owners where an owner lives there.
fn discount(holders: &Store<Holder>, owners: &mut usize, id: OwnerId)
    requires { owners.old ≡ owner_count (rows_of holders.now.entries) }
    ensures { owners.new + (if is_owner_row (row_at (rows_of holders.now.entries) id) then 1 else 0) ≡ owners.old }
{
    if is_owner_at(holders, id) {
        *owners -= 1;
    }
}

// Ends a holder, and counts the owners that are left.
fn end_one(holders: &mut Store<Holder>, owners: &mut usize, id: OwnerId)
    requires { owners.old ≡ owner_count (rows_of holders.old.entries) }
    ensures rows { rows_of holders.new.entries ≡ changed_at ended_row id (rows_of holders.old.entries) }
    ensures count { owners.new ≡ owner_count (rows_of holders.new.entries) }
{
    discount(holders, owners, id);
    end_at(holders, id);
}

/// Ends these holders, and counts the owners that are left.
pub(crate) fn end_each(holders: &mut Store<Holder>, owners: &mut usize, ended: &[OwnerId])
    requires { owners.old ≡ owner_count (rows_of holders.old.entries) }
    ensures rows { rows_of holders.new.entries ≡ all_ended ended.now (rows_of holders.old.entries) }
    ensures count { owners.new ≡ owner_count (rows_of holders.new.entries) }
{
    for id in ended {
        end_one(holders, owners, *id);
    }
}

// ---- one thing taken out

fn is_leaf(made: &Made, thing: &Thing) -> bool
    ensures { result ≡ is_leaf_of thing.now (item_of made.now) }
{
    match made {
        Made::Leaf(leaf) => thing == leaf,
        _ => false,
    }
}

fn is_held(made: &Made, id: OwnerId) -> bool
    ensures { result ≡ is_held_of id (item_of made.now) }
{
    match made {
        Made::Held(inner) => *inner == id,
        _ => false,
    }
}

fn sift_leaves(all: &mut Vec<Made>, thing: &Thing)
    ensures { all.new.items ≡ filter (λ m. not (is_leaf_of thing.now (item_of m))) all.old.items }
{
    all.retain(|made| !is_leaf(made, thing));
}

fn sift_held(all: &mut Vec<Made>, id: OwnerId)
    ensures { all.new.items ≡ filter (λ m. not (is_held_of id (item_of m))) all.old.items }
{
    all.retain(|made| !is_held(made, id));
}

// Takes a node or a page out of what was made under a holder.
fn drop_leaf(holder: &mut Holder, thing: &Thing)
    ensures { row_of holder.new ≡ sifted_row (is_leaf_of thing.now) (row_of holder.old) }
{
    sift_leaves(&mut holder.made, thing);
}

/// Takes a node or a page out of what was made under a holder.
pub(crate) fn drop_leaf_at(holders: &mut Store<Holder>, id: OwnerId, thing: &Thing)
    ensures { rows_of holders.new.entries ≡ changed_at (sifted_row (is_leaf_of thing.now)) id (rows_of holders.old.entries) }
{
    if !is_live_at(holders, id) {
        return;
    }
    drop_leaf(holders.value_mut(id.number()), thing);
}

// Takes a holder out of what was made under another.
fn drop_held(holder: &mut Holder, id: OwnerId)
    ensures { row_of holder.new ≡ sifted_row (is_held_of id) (row_of holder.old) }
{
    sift_held(&mut holder.made, id);
}

// Takes a holder out of what was made under another one of a number.
fn drop_held_at(holders: &mut Store<Holder>, outer: OwnerId, id: OwnerId)
    ensures { rows_of holders.new.entries ≡ changed_at (sifted_row (is_held_of id)) outer (rows_of holders.old.entries) }
{
    if !is_live_at(holders, outer) {
        return;
    }
    drop_held(holders.value_mut(outer.number()), id);
}

// Takes a holder out of what was made under the one that is given, if any.
fn drop_inside(holders: &mut Store<Holder>, inside: Option<OwnerId>, id: OwnerId)
    ensures { rows_of holders.new.entries ≡ sifted_inside inside (is_held_of id) (rows_of holders.old.entries) }
{
    match inside {
        Some(outer) => drop_held_at(holders, outer, id),
        None => {}
    }
}

/// Takes a holder out of the one in which it stands, ends it, and counts the owners that are left.
pub(crate) fn drop_holder_at(holders: &mut Store<Holder>, owners: &mut usize, id: OwnerId)
    requires { owners.old ≡ owner_count (rows_of holders.old.entries) }
    ensures rows { rows_of holders.new.entries
        ≡ changed_at ended_row id (sifted_inside (above_at (rows_of holders.old.entries) id) (is_held_of id) (rows_of holders.old.entries)) }
    ensures count { owners.new ≡ owner_count (rows_of holders.new.entries) }
{
    let above = above_at(holders, id);
    drop_inside(holders, above, id);
    end_one(holders, owners, id);
}
