//! A script's lines with their numbers, and the lines of each of its commands.
#![tactic(auto)]

mod block;
mod line;
mod piece;
mod word;

pub use block::{last_number, lines_of};
pub use line::NumberedLine;
pub use piece::{Piece, cut_law, next_piece};
