// The state of the stage order.
use births::Birth;
use std::marker::Model;

// The count of the events and timestamps that there were, the room for births, and the births so far, oldest first.
#[derive(Drop)]
pub struct Stages {
    pub(crate) number: u32,
    pub(crate) room: usize,
    pub(crate) births: Vec<Birth<u8>>,
}

// Contracts see a state of the machine.
impl Model for Stages {
    ghost use Rattle.stages.specs.Machine.{Staged};

    ghost Value = { Staged };

    ghost use Rattle.stages.specs.Model.{staged, Sound};

    ghost view = { staged };

    ghost invariant = { Sound };
}
