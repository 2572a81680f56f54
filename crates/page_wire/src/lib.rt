//! Notes of pages as frames: writing them, and reading a stream of them that comes in pieces.
#![tactic(auto)]

mod decoder;
mod laws;
mod note;
mod reader;
mod told;
mod writer;

pub use decoder::{Decoder, WireFault};
pub use laws::{one_frame, one_stream, pieces_law};
pub use note::Note;
pub use told::ToldPages;
pub use writer::{put_frame, put_op_frame};
