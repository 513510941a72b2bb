// An order at rest, for tests: nobody lives, and there are as many numbers as were given out. Of two timestamps the earlier is before
// the later unless its place is higher.
ghost use Rattle.histories.specs.Frozen.{frozen};
ghost use Rattle.std.proofs.Common.{rules};

use faults::OrderFault;
use order::{Event, Order, Timestamp};

// How many numbers were given out.
const GIVEN: u32 = 1000;

#[derive(Clone, Copy)]
pub struct Frozen;

impl Order for Frozen {
    ghost machine = { frozen };

    ghost model = { λ _. tt };

    ghost right = { Prim.search rules };

    fn tell(&mut self, _event: Event<'_>) -> Result<(), OrderFault> {
        Err(OrderFault::Unfit)
    }

    fn stamp(&mut self, _process: u32) -> Result<Timestamp, OrderFault> {
        Err(OrderFault::NotLive)
    }

    fn number(&self) -> u32 {
        GIVEN
    }

    fn lives(&self, _process: u32) -> bool {
        false
    }

    fn any_lives(&self) -> bool {
        false
    }

    fn known(&self, a: Timestamp) -> bool {
        (1..=GIVEN).contains(&a.number)
    }

    fn before(&self, a: Timestamp, b: Timestamp) -> bool {
        self.known(a) && self.known(b) && a.number < b.number && a.place <= b.place
    }
}
