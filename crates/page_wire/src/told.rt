// What entries tell of pages, as frames.
ghost use Rattle.std.specs.Prelude.{◌≡◌, ◌++◌, ◌∷◌, [], OnOk};
ghost use Rattle.std.specs.List.{AllByRecursion, list_any};
ghost use Rattle.std.specs.Str.{bytes_eq};
ghost use Rattle.page_model.specs.Texts.{IsSized};
ghost use Rattle.live_entries.specs.Printed.{IsSizedEntry};
ghost use Rattle.wire_model.specs.Notes.{frames, op as op_note, ready as ready_note};
ghost use Rattle.wire_model.specs.Wired.{is_listed, is_page_label, mounting, no_wires, notes_of, unlisted, wired_from, wires_after, with_name};
ghost use Rattle.page_wire.specs.Telling.{gone_notes, gone_wires, wires_behind};

use crate::note::Note;
use crate::writer::{put_frame, put_op_frame};
use live_entries::{Entry, Label, PageOp};
use sig_base::{Name, NoMemory};
use std::alloc::Global;
use std::marker::Model;

// Whether one of the names is this.
fn has_name(names: &[Name], name: &Name) -> bool
    ensures { result ≡ list_any (λ m. bytes_eq name.now m) names.now }
{
    names.iter().any(|other| *name == *other)
}

// Whether a name is among these.
fn is_among(names: &[Name], name: &Name) -> bool
    ensures { result ≡ is_listed name.now names.now }
{
    let among = has_name(names, name);
    among
}

// Takes a name out.
fn take_out(names: &mut Vec<Name>, name: &Name)
    ensures { names.new.items ≡ unlisted name.now names.old.items }
{
    names.retain(|other| *name != *other);
}

// A name comes first of all.
fn put_first(names: &mut Vec<Name>, name: &Name) -> Result<(), NoMemory>
    ensures { OnOk result (names.new.items ≡ name.now ∷ names.old.items) }
{
    names.insert(0, name.copy()?)?;
    Ok(())
}

/// Of which pages something was told already, and which of them aren't gone. They are looked for one by one, since pages are few.
pub struct ToldPages {
    seen: Vec<Name>,
    here: Vec<Name>,
}

impl Drop for ToldPages {
    fn drop(self) {
        let ToldPages { seen: _, here: _ } = self;
    }
}

impl Model for ToldPages {
    ghost use Rattle.wire_model.specs.Wired.{Wires};

    ghost Value = { Wires };

    ghost view = { λ t. record { seen = t.seen.items; here = t.here.items } };
}

impl ToldPages {
    /// Nothing was told yet.
    pub fn new(alloc: Global) -> ToldPages
        ensures { result ≡ no_wires }
    {
        ToldPages {
            seen: Vec::new(alloc),
            here: Vec::new(alloc),
        }
    }

    // Appends the frame that tells that a page is there, if nothing was told of it.
    fn meet(&mut self, out: &mut Vec<u8>, name: &Name) -> Result<(), NoMemory>
        ensures notes { OnOk result (out.new.items ≡ out.old.items ++ frames (mounting self.old name.now)) }
        ensures told { OnOk result (self.new ≡ with_name name.now self.old) }
    {
        if is_among(&self.seen, name) {
            return Ok(());
        }
        put_frame(out, &Note::Mount(name.copy()?))?;
        put_first(&mut self.seen, name)?;
        put_first(&mut self.here, name)?;
        Ok(())
    }

    // Appends the frames of an operation on a page.
    fn put_op(&mut self, out: &mut Vec<u8>, name: &Name, op: &PageOp) -> Result<(), NoMemory>
        ensures notes { OnOk result (out.new.items ≡ out.old.items ++ frames (mounting self.old name.now ++ op_note name.now op.now ∷ [])) }
        ensures told { OnOk result (self.new ≡ with_name name.now self.old) }
        ensures sized { OnOk result (IsSized op.now) }
    {
        self.meet(out, name)?;
        put_op_frame(out, name, op.as_op())?;
        Ok(())
    }

    // Appends the frames of a page that is as it shall be seen.
    fn put_ready(&mut self, out: &mut Vec<u8>, name: &Name) -> Result<(), NoMemory>
        ensures notes { OnOk result (out.new.items ≡ out.old.items ++ frames (mounting self.old name.now ++ ready_note name.now ∷ [])) }
        ensures told { OnOk result (self.new ≡ with_name name.now self.old) }
    {
        self.meet(out, name)?;
        put_frame(out, &Note::Ready(name.copy()?))?;
        Ok(())
    }

    // Whether a label is that of a page that is there.
    fn has_label(&self, label: &Label) -> bool
        ensures { result ≡ is_page_label self.now label.now }
    {
        label.path.as_slice().is_empty() && is_among(&self.here, &label.name)
    }

    // Appends the frame of a page that is gone, if the label is a page's.
    fn put_gone(&mut self, out: &mut Vec<u8>, label: &Label) -> Result<(), NoMemory>
        ensures notes { OnOk result (out.new.items ≡ out.old.items ++ frames (gone_notes self.old label.now)) }
        ensures told { OnOk result (self.new ≡ gone_wires self.old label.now) }
    {
        if !self.has_label(label) {
            return Ok(());
        }
        put_frame(out, &Note::Gone(label.name.copy()?))?;
        take_out(&mut self.here, &label.name);
        Ok(())
    }

    // Appends the frames of an entry.
    fn put_entry(&mut self, out: &mut Vec<u8>, entry: &Entry) -> Result<(), NoMemory>
        ensures notes { OnOk result (out.new.items ≡ out.old.items ++ frames (notes_of self.old entry.now)) }
        ensures told { OnOk result (self.new ≡ wires_after self.old entry.now) }
        ensures sized { OnOk result (IsSizedEntry entry.now) }
    {
        match entry {
            Entry::Op(name, op) => self.put_op(out, name, op),
            Entry::Page(name, _) => self.put_ready(out, name),
            Entry::Gone(label) => self.put_gone(out, label),
            _ => Ok(()),
        }
    }

    /// Appends the frames of the notes that entries give, behind those that came before.
    ///
    /// # Errors
    ///
    /// `NoMemory` where it finds no room; a front of the frames may be appended, and what was told may only be dropped.
    pub fn put_entries(&mut self, out: &mut Vec<u8>, entries: &[Entry]) -> Result<(), NoMemory>
        ensures notes { OnOk result (out.new.items ≡ out.old.items ++ frames (wired_from self.old entries.now)) }
        ensures told { OnOk result (self.new ≡ wires_behind self.old entries.now) }
        ensures sized { OnOk result (AllByRecursion IsSizedEntry entries.now) }
    {
        for entry in entries {
            self.put_entry(out, entry)?;
        }
        Ok(())
    }
}
