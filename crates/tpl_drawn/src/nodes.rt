// What is kept of lines, read line by line.
mod parts;

pub(crate) use parts::{attributes_of, fits, inside_of, later_of, loop_of, shows};
