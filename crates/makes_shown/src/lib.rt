// The make order at work: under the flags layer, and worked rows that are evaluated.
#![tactic(auto)]

ghost use Rattle.std.specs.Prelude.{◌≡◌, true, length, IfOk};
ghost use Rattle.makes.specs.Machine.{start};
ghost use Rattle.makes.specs.Order.{make_machine};
ghost use Rattle.flags.specs.Machine.{flagged, new_flags};
ghost use Rattle.orders_shown.specs.Rows.{all_hold};
ghost use Rattle.makes_shown.specs.Table.{worked_rows};

use flags::Flags;
use makes::{Makes, Room};
use order::Order;
use std::alloc::{AllocError, Global};

// The flags layer over a new make order: the law's premise is met.
pub fn flagged_makes(heap: Global, room: Room) -> Result<Flags<Makes>, AllocError>
    ensures start { IfOk result (λ s. ⟦<Flags<Makes> as Order>⟧.model s ≡ new_flags (start room)) }
    ensures valid { IfOk result (λ s. (flagged make_machine).valid (⟦<Flags<Makes> as Order>⟧.model s)) }
{
    let makes = Makes::new(heap, room)?;
    Ok(Flags::new(heap, makes)?)
}

// How many worked rows there are: the order gives every answer of each. No argument can carry a table of specs/, so each table has a
// function of its own.
pub fn worked_rows() -> usize
    ensures count { result ≡ length worked_rows }
    ensures hold { all_hold worked_rows ≡ true }
{
    12
}

#[cfg(test)]
mod tests {
    use super::*;
    use faults::OrderFault;
    use order::{Event, Order};
    use orders_shown::at;
    use std::test::Fail;

    fn target<'a>(process: u32, prerequisites: &'a [u16]) -> Event<'a> {
        Event::Target {
            process,
            prerequisites,
        }
    }

    // 512 targets, each of which needs the one before it, and no more: the last needs the first.
    #[test]
    fn targets_at_the_limit(rt: HostRuntime) -> Result<(), Fail> {
        let room = Room {
            births: 9,
            makes: 9,
            targets: 9_999,
        };
        let mut order = Makes::new(rt.alloc(), room)?;
        for event in [Event::birth(1, 0, 0), Event::make(1), target(1, &[])] {
            assert_eq!(rt; order.tell(event), Ok(()));
        }
        for i in 1..512u16 {
            assert_eq!(rt; order.tell(target(1, &[i])), Ok(()));
        }
        assert_eq!(rt; order.tell(target(1, &[512])), Err(OrderFault::TableFull));
        for event in [Event::birth(2, 1, 1), Event::birth(3, 1, 512)] {
            assert_eq!(rt; order.tell(event), Ok(()));
        }
        assert!(rt; order.before(at(515, 514), at(516, 515)));
        Ok(())
    }

    // A session has room for 4,096 births, whatever room was asked for.
    #[test]
    fn births_at_the_limit(rt: HostRuntime) -> Result<(), Fail> {
        let room = Room {
            births: 5_000,
            makes: 0,
            targets: 0,
        };
        let mut order = Makes::new(rt.alloc(), room)?;
        for i in 0..4_096u32 {
            assert_eq!(rt; order.tell(Event::birth(i + 1, i, 0)), Ok(()));
        }
        assert_eq!(rt;
            order.tell(Event::birth(5_000, 1, 0)),
            Err(OrderFault::TableFull)
        );
        assert_eq!(rt; order.tell(Event::make(1)), Err(OrderFault::TableFull));
        Ok(())
    }

    // What a process did before its post comes before what another does after its await, though their targets are unrelated.
    #[test]
    fn posted_and_awaited(rt: HostRuntime) -> Result<(), Fail> {
        let room = Room {
            births: 3,
            makes: 1,
            targets: 2,
        };
        let mut order = flagged_makes(rt.alloc(), room)?;
        for event in [
            Event::birth(1, 0, 0),
            Event::make(1),
            target(1, &[]),
            target(1, &[]),
            Event::birth(2, 1, 1),
            Event::birth(3, 1, 2),
            Event::post(2, 7),
        ] {
            assert_eq!(rt; order.tell(event), Ok(()));
        }
        assert!(rt; !order.before(at(5, 4), at(7, 5)));
        assert_eq!(rt; order.tell(Event::wait(3, 7)), Ok(()));
        assert!(rt; !order.before(at(5, 4), at(7, 5)));
        assert!(rt; order.before(at(5, 4), at(8, 5)));
        Ok(())
    }
}
