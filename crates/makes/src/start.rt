// A new make order.
ghost use Rattle.std.specs.Prelude.{◌≡◌, IfOk};
ghost use Rattle.makes.specs.Machine.{start};
ghost use Rattle.makes.specs.Order.{make_machine};

use crate::room::Room;
use crate::state::Makes;
use crate::tree::Tree;
use std::alloc::{AllocError, Global};

impl Makes {
    // A new order with this room: the session alone.
    pub fn new(heap: Global, room: Room) -> Result<Makes, AllocError>
        ensures start { IfOk result (λ s. s ≡ start room) }
        ensures valid { IfOk result (λ s. make_machine.valid s) }
    {
        let room = room.capped();
        let births = Vec::with_capacity(heap, room.births)?;
        let tree = Tree::new(heap, 1 + room.births + room.makes + room.targets)?;
        let slots = vec![in heap; 0; room.makes * room.targets]?;
        let rows = Vec::with_capacity(heap, room.targets)?;
        Ok(Makes {
            number: 0,
            room,
            births,
            tree,
            makes: 0,
            slots,
            rows,
        })
    }
}
