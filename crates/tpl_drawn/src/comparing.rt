// Which nodes of a page are compared when it is brought up to date, by what became of what is kept of its lines.
mod children;
mod comparer;
mod keeping;
mod kept;
mod laws;
mod node_marks;
mod passing;
mod texts;

pub use comparer::compared;
pub use laws::compare_law;
pub use node_marks::Compared;
