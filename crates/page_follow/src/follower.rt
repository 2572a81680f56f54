// What is told of pages is done.
ghost use Rattle.std.specs.Prelude.{◌≡◌, ◌++◌, ◌∷◌, [], map, IfOk, MatchResult, OnOk};
ghost use Rattle.std.specs.List.{AllByRecursion};
ghost use Rattle.page_model.specs.Pages.{bare, tree_of};
ghost use Rattle.page_model.specs.Replay.{Answer, Done, do_op};
ghost use Rattle.page_model.specs.Trees.{Brings};
ghost use Rattle.page_ops.specs.Ops.{Causes, op_of};
ghost use Rattle.wire_model.specs.Following.{take_note};
ghost use Rattle.wire_model.specs.Notes as told;
ghost use Rattle.page_follow.specs.declared.follower.FollowFault.TheVariants as fault;
ghost use Rattle.page_follow.specs.Following.{Halts, TakesAll};
ghost use Rattle.page_follow.specs.Views.{Fails, IsCause, IsDoable, Takes, pages_of};
ghost use Rattle.page_wire.specs.Views.{note_of};

use crate::page::{MountedPage, is_mounted, place_of, unmount};
use crate::writer::put_page;
use page_ops::{ApplyFault, Op, apply};
use page_tree::Tree;
use page_wire::Note;
use sig_base::{Name, NoMemory};
use std::alloc::Global;
use std::marker::Model;
use thiserror::Error;

/// Why a note isn't taken.
#[derive(Clone, Copy, Debug, PartialEq, Eq, Error)]
pub enum FollowFault {
    /// It tells that a page is there which is already, or something of one that isn't, or an operation that can't be done.
    #[error("the note is refused")]
    Refused,
    #[error("out of memory")]
    NoMemory,
}

impl From<NoMemory> for FollowFault {
    ghost from_gives = { λ _ e. e ≡ fault.NoMemory };

    fn from(_: NoMemory) -> Self {
        FollowFault::NoMemory
    }
}

// Why a note isn't taken whose operation isn't done.
fn cause(why: ApplyFault) -> FollowFault
    ensures { (answer : Answer) → Causes why answer → IsCause result answer }
{
    match why {
        ApplyFault::NoSuchNode(_) => FollowFault::Refused,
        ApplyFault::NoSuchPlace(_) => FollowFault::Refused,
        ApplyFault::NumberUsed(_) => FollowFault::Refused,
        ApplyFault::TooDeep(_) => FollowFault::Refused,
        ApplyFault::NoMemory => FollowFault::NoMemory,
    }
}

// A page without nodes below its root is there, whatever there is.
fn add_page(alloc: Global, pages: &mut Vec<MountedPage>, name: &Name) -> Result<(), NoMemory>
    ensures { OnOk result (pages_of pages.new.items ≡ pages_of pages.old.items ++ record { name = name.now; tree = tree_of bare } ∷ []) }
{
    let page = MountedPage {
        name: name.copy()?,
        tree: Tree::new(alloc)?,
    };
    pages.push(page)?;
    Ok(())
}

// A page without nodes below its root is told to be there.
fn mount(alloc: Global, pages: &mut Vec<MountedPage>, name: &Name) -> Result<(), FollowFault>
    ensures { MatchResult result
        (λ u. Takes (take_note (told.mount name.now) (pages_of pages.old.items)) (pages_of pages.new.items) [] [])
        (λ e. Fails e (take_note (told.mount name.now) (pages_of pages.old.items)) (pages_of pages.old.items) (pages_of pages.new.items) [] []) }
{
    if is_mounted(pages, name) {
        return Err(FollowFault::Refused);
    }
    add_page(alloc, pages, name)?;
    Ok(())
}

// An operation on a page.
fn change_page(alloc: Global, page: &mut MountedPage, op: &Op) -> Result<(), FollowFault>
    requires { Brings (op_of op.now) }
    ensures name { page.new.name ≡ page.old.name }
    ensures tree { MatchResult result
        (λ u. do_op (op_of op.now) page.old.tree ≡ Done page.new.tree)
        (λ e. (page.new.tree ≡ page.old.tree) × IsCause e (do_op (op_of op.now) page.old.tree)) }
{
    match apply(alloc, &mut page.tree, op) {
        Ok(()) => Ok(()),
        Err(why) => Err(cause(why)),
    }
}

// An operation on the page of a name.
fn change(
    alloc: Global,
    pages: &mut Vec<MountedPage>,
    name: &Name,
    op: &Op,
) -> Result<(), FollowFault>
    requires { Brings (op_of op.now) }
    ensures { MatchResult result
        (λ u. Takes (take_note (told.op name.now (op_of op.now)) (pages_of pages.old.items)) (pages_of pages.new.items) [] [])
        (λ e. Fails e (take_note (told.op name.now (op_of op.now)) (pages_of pages.old.items)) (pages_of pages.old.items) (pages_of pages.new.items) [] []) }
{
    let Some(place) = place_of(pages, name) else {
        return Err(FollowFault::Refused);
    };
    change_page(alloc, &mut pages[place], op)
}

// The page of a name is printed.
fn show(pages: &[MountedPage], name: &Name, out: &mut Vec<u8>) -> Result<(), FollowFault>
    ensures { MatchResult result
        (λ u. Takes (take_note (told.ready name.now) (pages_of pages.now)) (pages_of pages.now) out.old.items out.new.items)
        (λ e. Fails e (take_note (told.ready name.now) (pages_of pages.now)) (pages_of pages.now) (pages_of pages.now) out.old.items out.new.items) }
{
    let Some(place) = place_of(pages, name) else {
        return Err(FollowFault::Refused);
    };
    put_page(out, name, &pages[place].tree)?;
    Ok(())
}

// The page of a name is taken out.
fn leave(pages: &mut Vec<MountedPage>, name: &Name) -> Result<(), FollowFault>
    ensures { MatchResult result
        (λ u. Takes (take_note (told.gone name.now) (pages_of pages.old.items)) (pages_of pages.new.items) [] [])
        (λ e. Fails e (take_note (told.gone name.now) (pages_of pages.old.items)) (pages_of pages.old.items) (pages_of pages.new.items) [] []) }
{
    if !is_mounted(pages, name) {
        return Err(FollowFault::Refused);
    }
    unmount(pages, name);
    Ok(())
}

/// The pages of which notes told, each under its name. A page is looked for among all, since there are few.
pub struct Follower {
    pages: Vec<MountedPage>,
}

impl Drop for Follower {
    fn drop(self) {
        let Follower { pages: _ } = self;
    }
}

impl Model for Follower {
    ghost use Rattle.std.specs.Coded.{codes};
    ghost use Rattle.std.specs.Prelude.{List};
    ghost use Rattle.page_model.specs.Codes.{tree_code};
    ghost use Rattle.wire_model.specs.Following.{Mounted};
    ghost use Rattle.page_follow.specs.Views.{pages_of};

    ghost Value = { List Mounted };

    ghost coded = { Prim.hlevel (codes, tree_code) };

    ghost view = { λ f. pages_of f.pages.items };
}

impl Follower {
    /// A follower of no page.
    ///
    /// # Errors
    ///
    /// `NoMemory` alone.
    pub fn new(alloc: Global) -> Result<Follower, NoMemory>
        ensures { IfOk result (λ f. f ≡ []) }
    {
        Ok(Follower {
            pages: Vec::new(alloc),
        })
    }

    /// Does what a note tells, and appends what it prints: a page that is there has no nodes below its root; an operation is done; a
    /// page that is as it shall be seen is printed, as `page`, its name and the number of its bytes, and on the next line the
    /// bytes; and one that is gone is dropped. It asks that the attribute names of each element that comes are distinct. After
    /// `NoMemory` a follower may only be dropped.
    ///
    /// # Errors
    ///
    /// `Refused` exactly where the page is there already that is told to be, where there is none of which anything else is told, or where
    /// the operation is refused; follower and output are as before then. Else `NoMemory` alone.
    pub fn take_note(&mut self, note: &Note, out: &mut Vec<u8>) -> Result<(), FollowFault>
        requires { IsDoable (note_of note.now) }
        ensures { MatchResult result
            (λ u. Takes (take_note (note_of note.now) self.old) self.new out.old.items out.new.items)
            (λ e. Fails e (take_note (note_of note.now) self.old) self.old self.new out.old.items out.new.items) }
    {
        let alloc = *out.allocator();
        match note {
            Note::Mount(name) => mount(alloc, &mut self.pages, name),
            Note::Op(name, op) => change(alloc, &mut self.pages, name, op),
            Note::Ready(name) => show(&self.pages, name, out),
            Note::Gone(name) => leave(&mut self.pages, name),
        }
    }

    /// Does what notes tell, one after the other, up to the first that is refused, and appends what they print. It asks of each what
    /// `take_note` asks. After `NoMemory` a follower may only be dropped.
    ///
    /// # Errors
    ///
    /// `Refused` exactly where a note is refused; what the notes before it print is appended then. Else `NoMemory` alone.
    pub fn take_notes(&mut self, notes: &[Note], out: &mut Vec<u8>) -> Result<(), FollowFault>
        requires { AllByRecursion IsDoable (map note_of notes.now) }
        ensures { MatchResult result
            (λ u. TakesAll (map note_of notes.now) self.old self.new out.old.items out.new.items)
            (λ e. Halts e (map note_of notes.now) self.old out.old.items out.new.items) }
    {
        for note in notes {
            match self.take_note(note, out) {
                Ok(()) => {}
                Err(why) => return Err(why),
            }
        }
        Ok(())
    }
}
