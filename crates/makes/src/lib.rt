// The make order: processes, makes inside makes, and targets with prerequisites.
#![tactic(auto)]

mod calls;
mod climb;
mod events;
mod judge;
mod lookups;
mod places;
mod room;
mod rows;
mod start;
mod state;
mod tree;

pub use room::Room;
pub use state::Makes;
