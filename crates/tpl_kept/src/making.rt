// What a page keeps of its lines, made on signals that are settled as they are asked for.
mod builder;
mod head;

pub(crate) use builder::hear_attempt;
pub use builder::make;
pub use head::Head;
pub(crate) use head::{
    attributes_of, close, formula_of, inner_of, last, lent_row, own_row, rest_of, shows_first,
};
