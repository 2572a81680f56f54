// Lines one after the other, each with those inside it.

use sig_base::Text;
use sig_formula::Formula;

/// Lines one after the other, each with those inside it. A line that makes a node has its ordinal among all lines of the
/// template, counted from 1.
#[derive(Drop)]
pub enum Block {
    /// No more lines.
    Empty,
    /// The ordinal of a text and its formula, and the lines after it.
    Text(usize, Formula, Box<Block>),
    /// The ordinal of an element, its name and its attributes, the lines inside it, and those after it.
    Tag(usize, Text, Vec<(Text, Formula)>, Box<Block>, Box<Block>),
    /// A test, what is shown where it is true and where it is false, and the lines after it.
    Choice(Formula, Box<Block>, Box<Block>, Box<Block>),
    /// Rows, what is shown for each of them, and the lines after it.
    Each(Formula, Box<Block>, Box<Block>),
    /// What is shown unless it meets a fault, what is shown in its place where it does, and the lines after it.
    Attempt(Box<Block>, Box<Block>, Box<Block>),
}
