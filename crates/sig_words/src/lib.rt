//! The tokens of one line of a script: words, tags, numbers, texts and symbols.
#![tactic(auto)]

mod bytes;
mod line;
mod number;
mod quotes;
mod scan;
mod token;

pub use line::{LineFault, one_cutting, tokens};
pub use number::integer;
pub use quotes::{each_character_is_written, literal};
pub use token::{Token, TokenKind, token_bytes};
