// The body of a frame is read.
ghost use Rattle.std.specs.Prelude.{◌≡◌, ◌++◌, ◌∷◌, length, true, false, IfNone, IfOk, IfSome, IsErrOf};
ghost use Rattle.sig_base.specs.Words.{is_name};
ghost use Rattle.wire_model.specs.Notes.{HasOp, IsNote, body_of, name_in};
ghost use Rattle.wire_model.specs.Streams.{IsNoBody};
ghost use Rattle.page_wire.specs.Views.{note_of};

use crate::note::Note;
use page_ops::{OpFault, read_op};
use sig_base::{Name, NameFault, NoMemory, is_name};
use std::alloc::Global;
use std::str;

/// Why a body gives no note.
#[derive(Clone, Copy)]
pub(crate) enum BodyFault {
    /// It is no note's.
    Bad,
    NoMemory(NoMemory),
}

// The kind, the bytes of the name, and those behind it, if there are as many as are told.
fn parts(body: &[u8]) -> Option<(u8, &[u8], &[u8])>
    ensures some { IfSome result (λ p. body.now ≡ p.0 ∷ length p.1.now ∷ (p.1.now ++ p.2.now)) }
    ensures none { IfNone result (IsNoBody body.now) }
{
    let [kind, count, behind @ ..] = body else {
        return None;
    };
    let (name, rest) = behind.split_at_checked(*count as usize)?;
    Some((*kind, name, rest))
}

fn read_name(alloc: Global, bytes: &[u8]) -> Result<Name, BodyFault>
    ensures found { IfOk result (λ n. n ≡ bytes.now) }
    ensures good { IfOk result (λ n. is_name bytes.now ≡ true) }
    ensures bad { IsErrOf result BodyFault.Bad → is_name bytes.now ≡ false }
{
    if !is_name(bytes) {
        return Err(BodyFault::Bad);
    }
    let Ok(text) = str::from_utf8(bytes) else {
        unreachable!()
    };
    match Name::new(alloc, text) {
        Ok(name) => Ok(name),
        Err(NameFault::Bad) => Err(BodyFault::Bad),
        Err(NameFault::NoMemory(e)) => Err(BodyFault::NoMemory(e)),
    }
}

// The operation on the page of a name whose text stands behind the name.
fn op_note(alloc: Global, name: Name, rest: &[u8]) -> Result<Note, BodyFault>
    ensures name { IfOk result (λ n. name_in (note_of n) ≡ name) }
    ensures text { IfOk result (λ n. HasOp (note_of n)) }
    ensures found { IfOk result (λ n. body_of (note_of n) ≡ 2 ∷ length name ∷ (name ++ rest.now)) }
    ensures bad { IsErrOf result BodyFault.Bad → IsNoBody (2 ∷ length name ∷ (name ++ rest.now)) }
{
    match read_op(alloc, rest) {
        Ok(op) => Ok(Note::Op(name, op)),
        Err(OpFault::Bad(_)) => Err(BodyFault::Bad),
        Err(OpFault::NoMemory(e)) => Err(BodyFault::NoMemory(e)),
    }
}

// The note of a kind on the page of a name, with these bytes behind the name.
fn note_with(alloc: Global, kind: u8, name: Name, rest: &[u8]) -> Result<Note, BodyFault>
    ensures name { IfOk result (λ n. name_in (note_of n) ≡ name) }
    ensures text { IfOk result (λ n. HasOp (note_of n)) }
    ensures found { IfOk result (λ n. body_of (note_of n) ≡ kind ∷ length name ∷ (name ++ rest.now)) }
    ensures bad { IsErrOf result BodyFault.Bad → IsNoBody (kind ∷ length name ∷ (name ++ rest.now)) }
{
    if kind == 2 {
        return op_note(alloc, name, rest);
    }
    if !rest.is_empty() {
        return Err(BodyFault::Bad);
    }
    match kind {
        1 => Ok(Note::Mount(name)),
        3 => Ok(Note::Ready(name)),
        4 => Ok(Note::Gone(name)),
        _ => Err(BodyFault::Bad),
    }
}

/// The note whose body this is.
///
/// # Errors
///
/// `Bad` exactly where it is no note's, else `NoMemory` alone.
pub(crate) fn read_body(alloc: Global, body: &[u8]) -> Result<Note, BodyFault>
    ensures found { IfOk result (λ n. body_of (note_of n) ≡ body.now) }
    ensures note { IfOk result (λ n. IsNote (note_of n)) }
    ensures bad { IsErrOf result BodyFault.Bad → IsNoBody body.now }
{
    let Some((kind, name, rest)) = parts(body) else {
        return Err(BodyFault::Bad);
    };
    let name = read_name(alloc, name)?;
    note_with(alloc, kind, name, rest)
}
