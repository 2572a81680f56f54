// Frames that come in pieces are followed.
ghost use Rattle.std.specs.Prelude.{◌≡◌, ◌+◌, ◌<◌, ◌^◌, ◌++◌, false, length, map, IfOk, IsErrOf, OnOk};
ghost use Rattle.std.specs.List.{AllByRecursion};
ghost use Rattle.wire_model.specs.Following.{follow};
ghost use Rattle.page_wire.specs.Decoding.{fresh};
ghost use Rattle.page_wire.specs.Views.{note_of};
ghost use Rattle.page_follow.specs.Following.{Falls, Passes, unbegun};
ghost use Rattle.page_follow.specs.Views.{IsDoable};

use crate::follower::{FollowFault, Follower};
use page_wire::{Decoder, Note, WireFault};
use sig_base::NoMemory;
use std::alloc::Global;
use std::marker::Model;

// Takes the notes before a frame that is no note's, and gives why no more are taken.
fn take_last(follower: &mut Follower, notes: &[Note], out: &mut Vec<u8>) -> FollowFault
    requires { AllByRecursion IsDoable (map note_of notes.now) }
    ensures { result ≡ FollowFault.Refused → out.new.items ≡ out.old.items ++ (follow (map note_of notes.now) follower.old).out }
{
    match follower.take_notes(notes, out) {
        Ok(()) => FollowFault::Refused,
        Err(why) => why,
    }
}

/// Follows a stream of frames that comes in pieces, however it is cut. It keeps the pages, and no more of the stream than the frame that
/// isn't whole yet.
pub struct FrameFollower {
    decoder: Decoder,
    follower: Follower,
}

impl Drop for FrameFollower {
    fn drop(self) {
        let FrameFollower {
            decoder: _,
            follower: _,
        } = self;
    }
}

impl Model for FrameFollower {
    ghost use Rattle.std.specs.Coded.{codes};
    ghost use Rattle.page_model.specs.Codes.{tree_code};
    ghost use Rattle.page_follow.specs.Following.{Streaming};

    ghost Value = { Streaming };

    ghost coded = { Prim.hlevel (codes, tree_code) };

    ghost view = { λ f. record { decoding = f.decoder; pages = f.follower } };
}

impl FrameFollower {
    /// A follower of a stream of which nothing came.
    ///
    /// # Errors
    ///
    /// `NoMemory` alone.
    pub fn new(alloc: Global) -> Result<FrameFollower, NoMemory>
        ensures { IfOk result (λ f. f ≡ unbegun fresh) }
    {
        Ok(FrameFollower {
            decoder: Decoder::new(alloc)?,
            follower: Follower::new(alloc)?,
        })
    }

    /// Takes the next piece of the stream, does what its notes tell, and appends what they print. The stream has fewer than 2^63 bytes in all, and
    /// no fault yet. After an error it may only be dropped.
    ///
    /// # Errors
    ///
    /// `Refused` exactly where a frame came whole that is no note's, or a note is refused; what the notes before it print is appended then. Else
    /// `NoMemory` alone.
    pub fn feed(&mut self, piece: &[u8], out: &mut Vec<u8>) -> Result<(), FollowFault>
        requires few { self.old.decoding.at + (length self.old.decoding.rest + length piece.now) < 2 ^ 63 }
        requires going { self.old.decoding.stopped ≡ false }
        ensures passes { OnOk result (Passes self.old piece.now out.old.items out.new.items self.new) }
        ensures count { OnOk result (self.new.decoding.at + length self.new.decoding.rest ≡ self.old.decoding.at + (length self.old.decoding.rest + length piece.now)) }
        ensures falls { IsErrOf result FollowFault.Refused → Falls self.old piece.now out.old.items out.new.items }
    {
        let mut notes = Vec::new(*out.allocator());
        match self.decoder.feed(piece, &mut notes) {
            Ok(()) => self.follower.take_notes(&notes, out),
            Err(WireFault::Bad(_)) => Err(take_last(&mut self.follower, &notes, out)),
            Err(WireFault::NoMemory) => Err(FollowFault::NoMemory),
        }
    }

    /// How many bytes came of the frame that isn't whole yet.
    pub fn rest(&self) -> usize
        ensures { result ≡ length self.now.decoding.rest }
    {
        self.decoder.rest()
    }
}
