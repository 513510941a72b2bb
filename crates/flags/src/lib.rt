// The flags layer: over any order, what a process did before it posted a flag comes before what another does after it awaited that
// flag.
#![tactic(auto)]

mod calls;
mod chains;
mod pair;
mod state;

pub use state::Flags;
