// The state of the flags layer. It has no impl Model: the Value there cannot name the bound's machine (`O.machine` has type `Type 0`).
ghost use Rattle.std.specs.Prelude.{◌≤◌, vec_len, vec_capacity};

use crate::pair::Pair;
use order::Timestamp;

// Flags run from 1 to this.
pub(crate) const FLAGS: usize = 32;

#[derive(Drop)]
pub struct Flags<O> {
    // the order below
    pub(crate) below: O,
    // the post of each flag, from flag 1 on
    pub(crate) posts: [Option<Timestamp>; FLAGS],
    // the awaits, oldest first
    pub(crate) pairs: Vec<Pair>,
    ghost few: { vec_len pairs ≤ 32 },
    ghost reserved: { 32 ≤ vec_capacity pairs },
}
