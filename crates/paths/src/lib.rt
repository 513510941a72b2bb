// Paths: their form, a path that is borrowed from the bytes it was found in, and a path that owns its bytes.
#![tactic(auto)]

mod borrowed;
mod form;
mod held;

pub use borrowed::{Malformed, Path};
pub use form::is_wellformed;
pub use held::HeldPath;

#[cfg(test)]
mod tests;
