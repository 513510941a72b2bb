// The orders at work: a session over flags and stages, and worked rows that are evaluated.
#![tactic(auto)]

ghost use Rattle.std.specs.Prelude.{◌≡◌, ◌≤◌, true, length, IfOk};
ghost use Rattle.order.specs.Meaning.{last_number};
ghost use Rattle.order.specs.Runs.{Ran};
ghost use Rattle.stages.specs.Machine.{stages, start};
ghost use Rattle.flags.specs.Machine.{flagged, new_flags};
ghost use Rattle.orders_shown.specs.Rows.{at, all_hold};
ghost use Rattle.orders_shown.specs.Session.{session};
ghost use Rattle.orders_shown.specs.Table.{worked_rows};

use flags::Flags;
use order::{Event, Order, Timestamp};
use stages::Stages;
use std::alloc::{AllocError, Global};

// A timestamp, by its number and its place.
pub fn at(number: u32, place: u32) -> Timestamp
    ensures answer { result ≡ at number place }
{
    Timestamp { number, place }
}

// A session of two processes in one stage, the second of which waits for the first. Each event is accepted, as what unwrap requires
// says, and the law's premise is met from the start to the end.
pub fn flag_session(heap: Global) -> Result<Flags<Stages>, AllocError>
    ensures run { IfOk result (λ s. Ran (flagged stages) (new_flags (start 2)) session (⟦<Flags<Stages> as Order>⟧.model s)) }
    ensures valid { IfOk result (λ s. (flagged stages).valid (⟦<Flags<Stages> as Order>⟧.model s)) }
{
    let stages = Stages::new(heap, 2)?;
    let mut order = Flags::new(heap, stages)?;
    order.tell(Event::birth(10, 0, 1)).unwrap();
    order.tell(Event::birth(11, 0, 1)).unwrap();
    order.tell(Event::post(10, 1)).unwrap();
    order.tell(Event::wait(11, 1)).unwrap();
    Ok(order)
}

// What the first process of the session did at its birth comes before the second one's await.
pub fn first_comes_before(heap: Global) -> Result<bool, AllocError>
    ensures answer { IfOk result (λ yes. yes ≡ true) }
{
    let order = flag_session(heap)?;
    Ok(order.before(at(1, 1), at(4, 2)))
}

// How many worked rows there are: each order gives every answer of its row. No argument can carry a table of specs/, so each table
// has a function of its own.
pub fn worked_rows() -> usize
    ensures count { result ≡ length worked_rows }
    ensures hold { all_hold worked_rows ≡ true }
{
    8
}

// A layer over a layer is an order like any other, and its law's premise is met at the start.
pub fn two_layers(heap: Global, room: usize) -> Result<Flags<Flags<Stages>>, AllocError>
    ensures start { IfOk result (λ s. ⟦<Flags<Flags<Stages>> as Order>⟧.model s ≡ new_flags (new_flags (start room))) }
    ensures valid { IfOk result (λ s. (flagged (flagged stages)).valid (⟦<Flags<Flags<Stages>> as Order>⟧.model s)) }
{
    let stages = Stages::new(heap, room)?;
    let lower = Flags::new(heap, stages)?;
    Ok(Flags::new(heap, lower)?)
}

// The number of an order below a layer, and what that order keeps to, told through the layer.
pub fn number_below(order: &Flags<Stages>) -> u32
    ensures answer { result ≡ (stages.means order.now.below).number }
    ensures few { (result ≤ last_number) × (length order.now.below.births ≤ 4096) }
    ensures valid { stages.valid order.now.below }
{
    order.below().number()
}

#[cfg(test)]
mod tests {
    use super::*;
    use faults::OrderFault;
    use std::test::Fail;

    // A session has room for 4,096 births, whatever room was asked for.
    #[test]
    fn births_at_the_limit(rt: HostRuntime) -> Result<(), Fail> {
        let mut order = Stages::new(rt.alloc(), 5_000)?;
        for i in 0..4_096u32 {
            assert_eq!(rt; order.tell(Event::birth(i + 1, 0, 1)), Ok(()));
        }
        assert_eq!(rt; order.number(), 4_096);
        assert_eq!(rt;
            order.tell(Event::birth(5_000, 0, 1)),
            Err(OrderFault::TableFull)
        );
        Ok(())
    }

    // What the first process did before its post comes before what the second does after its await, and not the other way round.
    #[test]
    fn posted_and_awaited(rt: HostRuntime) -> Result<(), Fail> {
        let order = flag_session(rt.alloc())?;
        assert!(rt; order.before(at(1, 1), at(4, 2)));
        assert!(rt; !order.before(at(4, 2), at(1, 1)));
        assert!(rt; !order.before(at(1, 1), at(3, 2)));
        Ok(())
    }
}
