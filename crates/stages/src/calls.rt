// The calls of the stage order. A place is cast by `as`, since no `From` goes between `u32` and `usize`.
ghost use Rattle.std.specs.Prelude.{◌≡◌, ◌+◌, ◌≤◌, ◌&&◌, cond, List, map, length, IfOk, Some, None, Decides, nat_le};
ghost use Rattle.order.specs.Machine.{Tells, Stamps};
ghost use Rattle.order.specs.Runs.{Call, Alive};
ghost use Rattle.stages.specs.Births.{stage_at, ended};
ghost use Rattle.stages.specs.Machine.{stages, start, tell_birth, tell_death};
ghost use Rattle.stages.specs.Runs.{SinceStart, Placed, Known, Before};
ghost use Rattle.stages.specs.Law.{stages_right};

use crate::state::Stages;
use births::{Birth, live_birth};
use faults::OrderFault;
use order::{Event, Order, Timestamp, next_number};
use std::alloc::{AllocError, Global};

// The most births that a session has room for.
const MOST_BIRTHS: usize = 4_096;

// Ends the process: no birth of it lives any more.
fn end_process(births: &mut [Birth<u8>], process: u32)
    ensures after { births.new ≡ map (ended process) births.old }
{
    for birth in births.iter_mut() {
        birth.live &= birth.process != process;
    }
}

impl Stages {
    // A new order with room for so many births, at most 4,096.
    pub fn new(heap: Global, room: usize) -> Result<Stages, AllocError>
        ensures start { IfOk result (λ s. s ≡ start room) }
        ensures valid { IfOk result (λ s. stages.valid s) }
    {
        let room = room.min(MOST_BIRTHS);
        let births = Vec::with_capacity(heap, room)?;
        Ok(Stages {
            number: 0,
            room,
            births,
        })
    }

    // A process is born into a stage.
    fn birth(&mut self, process: u32, parent: u32, target: u16) -> Result<(), OrderFault>
        ensures answer { Tells (tell_birth self.old process parent target) result self.old self.new }
    {
        if process == 0 || self.lives(process) {
            return Err(OrderFault::LiveAlready);
        }
        if self.births.len() >= self.room {
            return Err(OrderFault::TableFull);
        }
        let number = next_number(self.number)?;
        let stage = u8::try_from(target).map_err(|_| OrderFault::Unfit)?;
        if parent != 0 || stage == 0 {
            return Err(OrderFault::Unfit);
        }
        self.births.push_reserved(Birth {
            process,
            at: stage,
            live: true,
        });
        self.number = number;
        Ok(())
    }

    // A process ends.
    fn death(&mut self, process: u32) -> Result<(), OrderFault>
        ensures answer { Tells (tell_death self.old process) result self.old self.new }
    {
        if !self.lives(process) {
            return Err(OrderFault::NotLive);
        }
        self.number = next_number(self.number)?;
        end_process(&mut self.births, process);
        Ok(())
    }

    // The stage of a place, if there was a birth with this count.
    fn stage_of(&self, place: u32) -> Option<u8>
        ensures answer { result ≡ cond (nat_le 1 place && nat_le place (length self.now.births)) (Some (stage_at self.now.births place)) None }
    {
        let i = (place as usize).checked_sub(1)?;
        Some(self.births.get(i)?.at)
    }
}

impl Order for Stages {
    ghost machine = { stages };

    ghost model = { λ s. s };

    ghost right = { stages_right };

    fn tell(&mut self, event: Event<'_>) -> Result<(), OrderFault> {
        match event {
            Event::Birth {
                process,
                parent,
                target,
            } => self.birth(process, parent, target),
            Event::Death { process } => self.death(process),
            Event::Make { .. } | Event::Target { .. } | Event::Post { .. } | Event::Await { .. } =>
                Err(OrderFault::Unfit),
        }
    }

    fn stamp(&mut self, process: u32) -> Result<Timestamp, OrderFault>
        ensures answer { Stamps (stages.stamp self.old process) result self.old self.new }
        ensures run { (calls : List Call) → SinceStart calls self.old → IfOk result (λ k. (k.number ≡ length calls + 1) × Placed process calls k.place) }
    {
        let i = live_birth(&self.births, process).ok_or(OrderFault::NotLive)?;
        self.number = next_number(self.number)?;
        Ok(Timestamp {
            number: self.number,
            place: i as u32 + 1,
        })
    }

    fn number(&self) -> u32
        ensures answer { result ≡ (stages.means self.now).number }
        ensures valid { stages.valid self.now }
        ensures room { (length self.now.births ≤ self.now.room) × (self.now.room ≤ 4096) }
    {
        self.number
    }

    fn lives(&self, process: u32) -> bool
        ensures answer { result ≡ (stages.means self.now).lives process }
        ensures run { (calls : List Call) → SinceStart calls self.now → Decides result (Alive process calls) }
    {
        live_birth(&self.births, process).is_some()
    }

    fn any_lives(&self) -> bool {
        self.births.iter().rev().any(|birth| birth.live)
    }

    fn known(&self, a: Timestamp) -> bool
        ensures answer { result ≡ (stages.means self.now).known a }
        ensures run { (calls : List Call) → SinceStart calls self.now → Decides result (Known calls a) }
    {
        (1..=self.number).contains(&a.number) && self.stage_of(a.place).is_some()
    }

    fn before(&self, a: Timestamp, b: Timestamp) -> bool
        ensures answer { result ≡ (stages.means self.now).before a b }
        ensures run { (calls : List Call) → SinceStart calls self.now → Decides result (Before calls a b) }
    {
        self.known(a)
            && self.known(b)
            && a.number < b.number
            && (a.place == b.place || self.stage_of(a.place) < self.stage_of(b.place))
    }
}
