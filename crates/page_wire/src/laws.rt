// The laws of frames.
ghost use Rattle.page_wire.specs.OneFrame.{FrontSpells, FrontStops, GoesOn, NoEnd, OneFrame, OneStop, OneStream, StopsLater};

use page_ops::one_reading;

/// No note's frame is another's, nor begins it, where their bodies have fewer than 2^64 bytes.
pub fn one_frame()
    ensures { OneFrame }
{
    one_reading();
}

/// A stream of fewer than 2^64 bytes is the frames of some notes and less than a whole frame in at most one way; or behind the frames
/// of one list of notes a whole frame begins that is no note's, and then it is not the former. The notes of a front of it are the first of its own.
pub fn one_stream()
    ensures stream { OneStream }
    ensures stop { OneStop }
    ensures no_end { NoEnd }
    ensures front { FrontSpells }
    ensures front_stop { FrontStops }
{
    one_reading();
}

/// However a stream is cut, what is left of it and the next piece spell the notes that come next of the whole.
pub fn pieces_law()
    ensures on { GoesOn }
    ensures stop { StopsLater }
{}
