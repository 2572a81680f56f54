//! Lines whose form is data: which tokens spell them, how they are read, and how they are written.
#![tactic(auto)]

mod cursor;
mod laws;
mod lists;
mod names;
mod reslot;
mod unread;
mod values;
mod writer;

pub use cursor::{
    ToldFormula, ToldKey, ToldValue, as_name, count_at, count_behind, ends_at, first_word,
    formula_at, key_at, name_at, rough_at, symbol_at, tag_at, told, value_at, word_at,
};
pub use laws::forms_read;
pub use lists::{ToldArguments, are_distinct, arguments_at, listed_names_at, names_at};
pub use names::NameList;
pub use reslot::{formula_among, put_new_name, put_new_names, slot_of};
pub use unread::{NotThere, Unread, optional};
pub use values::{ToldValues, values_at};
pub use writer::{
    put_arguments, put_count, put_count_behind, put_fixed, put_key, put_listed_names,
    put_listed_values, put_name, put_names, put_tag, put_value, put_wired,
};
