// What is kept of the accesses on one key, how a new access is checked against them, and why those few checks are enough.
#![tactic(auto)]

mod accesses;
mod attempts;
mod checks;
mod example;
mod kept;
mod keys;
mod rules;

pub use accesses::{Access, Checked, Kind, Race};
pub use attempts::Directory;
pub use example::{Seen, SeenLookup, made_and_looked_up, two_accesses};
pub use kept::History;
pub use keys::{EqualTo, InodePair, Row, find, find_pair, find_path};
pub use rules::{ConflictRule, ContentsRule, PathRule};

#[cfg(test)]
mod tests;
