// The table of births that an order keeps, oldest first.
#![tactic(auto)]

ghost use Rattle.std.specs.Prelude.{◌≡◌, ◌<◌, reverse, length, IfSome};
ghost use Rattle.births.specs.Births.{is_live, live_birth};

// A process from its birth on, with where it was born or is now: a stage in one order, a place in another. A flag says whether it lives, and
// no Option holds what stands beside it: both are asked for after the death too.
#[derive(Clone, Copy, Debug, PartialEq, Eq)]
pub struct Birth<T> {
    pub process: u32,
    pub at: T,
    pub live: bool,
}

impl<T> Birth<T> {
    // Whether this is the birth of the process, and the process lives on. The process is tested first: most births are of others, while
    // which births live can't be foretold, so that a search which tests that first takes twice as long.
    pub fn is_live(&self, process: u32) -> bool
        ensures answer { result ≡ is_live self.now process }
    {
        self.process == process && self.live
    }
}

// The birth of a live process, by its index. Live processes are mostly young, so the newest birth is looked at first.
pub fn live_birth<T>(births: &[Birth<T>], process: u32) -> Option<usize>
    ensures answer { result ≡ live_birth (reverse births.now) process }
    ensures within { IfSome result (λ i. i < length births.now) }
{
    births.iter().rposition(|birth| birth.is_live(process))
}
