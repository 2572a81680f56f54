//! The tables of owners, effects and pages: what lives, and what stands under what. Owners have their own numbers, as effects and pages
//! have.
//! And the laws by which acts, runs, turns and flushes are put together: of worlds at rest, and of turns effect by effect.
#![tactic(auto)]

mod creation;
mod effect;
mod heard;
mod laws;
mod links;
mod looks;
mod lookup;
mod noted;
mod owner_rows;
mod quiet_places;
mod reads;
mod tables;
mod thing;

pub use effect::{Effect, MOST_STATEMENTS, Script, Site};
pub use heard::Heard;
pub use laws::{resting_law, visiting_law};
pub use links::{Links, Slots, Target};
pub use lookup::{effect_at, effect_place};
pub use noted::{forget_row, noted_thing};
pub use owner_rows::OwnerRows;
pub use quiet_places::QuietPlaces;
pub use tables::Tables;
pub use thing::{Thing, Undoing};
