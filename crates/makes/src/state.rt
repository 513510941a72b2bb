// The state of the make order.
use crate::room::Room;
use crate::rows::Row;
use crate::tree::Tree;
use births::Birth;
use std::marker::Model;

#[derive(Drop)]
pub struct Makes {
    // how many events and timestamps there were
    pub(crate) number: u32,
    // how many births, makes and targets there may be
    pub(crate) room: Room,
    // the births so far, each with its home: the make that the process is, or else the place where it stands
    pub(crate) births: Vec<Birth<usize>>,
    // the places so far; a make stands right below the place of its own process
    pub(crate) tree: Tree,
    // how many makes there are: a count of its own, since they stand among the other places
    pub(crate) makes: usize,
    // for each make the places of its targets, from its ordinal times the room for targets on: one table of fixed size, since no event
    // may allocate, and a table for each make would be as many to make at the start
    pub(crate) slots: Vec<usize>,
    // for each target the row of those that it needs
    pub(crate) rows: Vec<Row>,
}

// Contracts see a state of the machine.
impl Model for Makes {
    ghost use Rattle.makes.specs.Machine.{Build};

    ghost Value = { Build };

    ghost use Rattle.makes.specs.Model.{built, Kept};

    ghost view = { built };

    ghost invariant = { Kept };
}
