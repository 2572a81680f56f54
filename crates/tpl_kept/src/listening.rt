// What is heard of the lines of a page, and how what is kept of them is put together.
mod again;
mod formulas;
mod names;
mod outcomes;

pub use again::{listen_again, listen_all_again};
pub(crate) use again::{listen_all_here, listen_here};
pub use formulas::{listen, listen_all};
pub(crate) use names::{put_all, put_each};
pub(crate) use outcomes::{row_at, row_count, truth_of};
