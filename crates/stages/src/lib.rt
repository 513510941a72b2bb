// The stage order: each process is born into a stage, and what a lower stage does comes before what a higher one does.
#![tactic(auto)]

mod calls;
mod state;

pub use state::Stages;
