// A stream of frames that comes in pieces.
ghost use Rattle.std.specs.Prelude.{◌≡◌, ◌+◌, ◌<◌, ◌^◌, ◌≤◌, ◌++◌, drop, false, length, map, true, IfErr, IfNone, IfOk, IfSome, OnOk, Err};
ghost use Rattle.std.specs.Int.{from_be_bytes, to_be_bytes, w64};
ghost use Rattle.wire_model.specs.Notes.{frame_of_body};
ghost use Rattle.wire_model.specs.Streams.{IsPartial};
ghost use Rattle.page_wire.specs.declared.decoder.WireFault.TheVariants as fault;
ghost use Rattle.page_wire.specs.Decoding.{Fails, Goes, fresh};
ghost use Rattle.page_wire.specs.Fronts.{Stands};
ghost use Rattle.page_wire.specs.Views.{note_of};

use crate::note::Note;
use crate::reader::{BodyFault, read_body};
use sig_base::NoMemory;
use std::alloc::{AllocError, Global};
use std::marker::Model;
use thiserror::Error;

/// Why a piece of a stream isn't taken.
#[derive(Clone, Copy, Debug, PartialEq, Eq, Error)]
pub enum WireFault {
    /// The frame that begins at this byte of the stream came whole, and is no note's.
    #[error("no note at byte {0}")]
    Bad(u64),
    #[error("out of memory")]
    NoMemory,
}

impl From<NoMemory> for WireFault {
    ghost from_gives = { λ _ e. e ≡ fault.NoMemory };

    fn from(_: NoMemory) -> Self {
        WireFault::NoMemory
    }
}

impl From<AllocError> for WireFault {
    ghost from_gives = { λ _ e. e ≡ fault.NoMemory };

    fn from(_: AllocError) -> Self {
        WireFault::NoMemory
    }
}

/// How many bytes the frames at the front have that are notes', and what comes next.
#[derive(Clone, Copy)]
pub(crate) enum Front {
    /// Less than a whole frame.
    Partial(usize),
    /// A whole frame that is no note's.
    Bad(usize),
}

// The number that eight bytes tell.
fn told_length(front: &[u8]) -> u64
    requires { length front.now ≡ 8 }
    ensures number { result ≡ from_be_bytes w64 front.now }
    ensures bytes { to_be_bytes w64 result ≡ front.now }
{
    u64::from_be_bytes([
        front[0], front[1], front[2], front[3], front[4], front[5], front[6], front[7],
    ])
}

// The body of the frame at the front, and what stands behind the frame, if all of it is there.
fn first_frame(bytes: &[u8]) -> Option<(&[u8], &[u8])>
    ensures whole { IfSome result (λ f. bytes.now ≡ frame_of_body f.0.now ++ f.1.now) }
    ensures shorter { IfSome result (λ f. length f.1.now < length bytes.now) }
    ensures partial { IfNone result (IsPartial bytes.now) }
{
    let (front, behind) = bytes.split_at_checked(8)?;
    let (body, behind) = behind.split_at_checked(told_length(front) as usize)?;
    Some((body, behind))
}

// Appends the notes of the frames at the front.
fn take_frames(alloc: Global, bytes: &[u8], notes: &mut Vec<Note>) -> Result<Front, NoMemory>
    ensures { IfOk result (λ f. Stands f bytes.now (map note_of notes.old.items) (map note_of notes.new.items)) }
{
    let mut left = bytes;
    while let Some((body, behind)) = first_frame(left) {
        match read_body(alloc, body) {
            Ok(note) => notes.push(note)?,
            Err(BodyFault::Bad) => return Ok(Front::Bad(bytes.len() - left.len())),
            Err(BodyFault::NoMemory(e)) => return Err(e),
        }
        left = behind;
    }
    Ok(Front::Partial(bytes.len() - left.len()))
}

// Takes out the first bytes.
fn cut_front(bytes: &mut Vec<u8>, count: usize)
    requires { count ≤ length bytes.old.items }
    ensures { bytes.new.items ≡ drop count bytes.old.items }
{
    bytes.drain(..count);
}

/// Reads a stream of frames that comes in pieces, however it is cut. It keeps no more of it than the frame that isn't whole yet.
pub struct Decoder {
    // how many bytes the whole frames have that came
    place: u64,
    // what came of the next one
    held: Vec<u8>,
    // whether that one came whole and is no note's; nothing is held then
    stopped: bool,
}

impl Drop for Decoder {
    fn drop(self) {
        let Decoder {
            place: _,
            held: _,
            stopped: _,
        } = self;
    }
}

impl Model for Decoder {
    ghost use Rattle.page_wire.specs.Decoding.{Decoding};

    ghost Value = { Decoding };

    ghost view = { λ d. record { at = d.place; rest = d.held.items; stopped = d.stopped } };
}

impl Decoder {
    /// A decoder of a stream of which nothing came.
    ///
    /// # Errors
    ///
    /// `NoMemory` alone.
    pub fn new(alloc: Global) -> Result<Decoder, NoMemory>
        ensures { IfOk result (λ d. d ≡ fresh) }
    {
        Ok(Decoder {
            place: 0,
            held: Vec::new(alloc),
            stopped: false,
        })
    }

    /// Takes the next piece of the stream, and appends the notes of the frames that are whole now. The stream has fewer than 2^63 bytes
    /// in all. After `NoMemory` a decoder may only be dropped.
    ///
    /// # Errors
    ///
    /// `Bad` where the first whole frame begins that is no note's; the notes before it were appended, and every later piece is
    /// answered the same. Else `NoMemory` alone.
    pub fn feed(&mut self, piece: &[u8], notes: &mut Vec<Note>) -> Result<(), WireFault>
        requires { self.old.at + (length self.old.rest + length piece.now) < 2 ^ 63 }
        ensures notes { OnOk result (Goes self.old piece.now (map note_of notes.old.items) (map note_of notes.new.items) self.new) }
        ensures count { OnOk result (self.new.at + length self.new.rest ≡ self.old.at + (length self.old.rest + length piece.now)) }
        ensures bad { IfErr result (λ e. self.old.stopped ≡ false → Fails e self.old piece.now (map note_of notes.old.items) (map note_of notes.new.items) self.new) }
        ensures again { self.old.stopped ≡ true → (result ≡ Err (fault.Bad self.old.at)) × (self.new ≡ self.old) × (notes.new.items ≡ notes.old.items) }
    {
        if self.stopped {
            return Err(WireFault::Bad(self.place));
        }
        self.held.extend_from_slice(piece)?;
        match take_frames(*self.held.allocator(), &self.held, notes)? {
            Front::Partial(taken) => {
                self.place += taken as u64;
                cut_front(&mut self.held, taken);
                Ok(())
            }
            Front::Bad(taken) => {
                self.place += taken as u64;
                self.held.clear();
                self.stopped = true;
                Err(WireFault::Bad(self.place))
            }
        }
    }

    /// How many bytes came of the frame that isn't whole yet.
    pub fn rest(&self) -> usize
        ensures { result ≡ length self.now.rest }
    {
        self.held.len()
    }
}
