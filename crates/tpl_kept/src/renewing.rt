// What a page keeps of its lines, brought up to date by what changed.
mod front;
mod leading;
mod looking;
mod names;
mod parts;
mod places;
mod round;
mod rows;
mod silent;
mod staying;
mod update;

pub use front::renew;
pub use parts::Renewed;
