// The calls of the make order. A place is cast by `as`, since no `From` goes between `u32` and `usize`.
ghost use Rattle.std.specs.Prelude.{◌≡◌, ℕ, ◌+◌, ◌<◌, ◌≤◌, List, length, IfOk, Some, Decides};
ghost use Rattle.order.specs.Machine.{Tells, Stamps};
ghost use Rattle.order.specs.Runs.{Call, Alive};
ghost use Rattle.makes.specs.Machine.{tell_birth, tell_make, tell_target, tell_death};
ghost use Rattle.makes.specs.Order.{make_machine};
ghost use Rattle.makes.specs.Places.{shapes, parents};
ghost use Rattle.makes.specs.Runs.{SinceStart, place_in, Known, Before, Orderly};
ghost use Rattle.makes.specs.Sound.{makes_above};
ghost use Rattle.makes.specs.Tree.{levels};
ghost use Rattle.makes.specs.Law.{make_right};

use crate::places::Kind;
use crate::rows::all_declared;
use crate::state::Makes;
use births::live_birth;
use faults::OrderFault;
use order::{Event, Order, Timestamp, next_number};

// How many makes may hold a place.
const MOST_DEEP: usize = 16;

impl Makes {
    // A process is born: with its parent, or at a new step of a target of its parent.
    fn birth(&mut self, process: u32, parent: u32, target: u16) -> Result<(), OrderFault>
        ensures answer { Tells (tell_birth self.old process parent target) result self.old self.new }
    {
        let home = self.parent_home(parent).ok_or(OrderFault::NotLive)?;
        if process == 0 || self.lives(process) {
            return Err(OrderFault::LiveAlready);
        }
        if target != 0 {
            let Kind::Make(make) = self.tree.kind(home) else {
                return Err(OrderFault::NotMake);
            };
            if make.targets < usize::from(target) {
                return Err(OrderFault::Undeclared);
            }
        }
        if self.births.len() >= self.room.births {
            return Err(OrderFault::TableFull);
        }
        let number = next_number(self.number)?;
        if target == 0 {
            let place = self.tree.stand(home);
            self.bear(number, process, place);
        } else {
            self.bear_step(number, process, home, target);
        }
        Ok(())
    }

    // A process turns out to be a make.
    fn make(&mut self, process: u32) -> Result<(), OrderFault>
        ensures answer { Tells (tell_make self.old process) result self.old self.new }
    {
        let i = live_birth(&self.births, process).ok_or(OrderFault::NotLive)?;
        let place = self.tree.place(self.birth_home(i));
        if place.kind.is_make() {
            return Err(OrderFault::MakeAlready);
        }
        if place.depth >= MOST_DEEP {
            return Err(OrderFault::TooDeep);
        }
        if self.makes >= self.room.makes {
            return Err(OrderFault::TableFull);
        }
        let number = next_number(self.number)?;
        self.turn_make(number, i);
        Ok(())
    }

    // A make declares its next target.
    fn target(&mut self, process: u32, prerequisites: &[u16]) -> Result<(), OrderFault>
        ensures answer { Tells (tell_target self.old process prerequisites.now) result self.old self.new }
    {
        let home = self.home(process).ok_or(OrderFault::NotLive)?;
        let Kind::Make(make) = self.tree.kind(home) else {
            return Err(OrderFault::NotMake);
        };
        if !all_declared(prerequisites, make.targets) {
            return Err(OrderFault::Undeclared);
        }
        if self.rows.len() >= self.room.targets {
            return Err(OrderFault::TableFull);
        }
        let number = next_number(self.number)?;
        self.declare(number, home, prerequisites);
        Ok(())
    }

    // A process ends.
    fn death(&mut self, process: u32) -> Result<(), OrderFault>
        ensures answer { Tells (tell_death self.old process) result self.old self.new }
    {
        let i = live_birth(&self.births, process).ok_or(OrderFault::NotLive)?;
        let number = next_number(self.number)?;
        self.end(number, i);
        Ok(())
    }
}

impl Order for Makes {
    ghost machine = { make_machine };

    ghost model = { λ s. s };

    ghost right = { make_right };

    fn tell(&mut self, event: Event<'_>) -> Result<(), OrderFault> {
        match event {
            Event::Birth {
                process,
                parent,
                target,
            } => self.birth(process, parent, target),
            Event::Make { process } => self.make(process),
            Event::Target {
                process,
                prerequisites,
            } => self.target(process, prerequisites),
            Event::Death { process } => self.death(process),
            Event::Post { .. } | Event::Await { .. } => Err(OrderFault::Unfit),
        }
    }

    fn stamp(&mut self, process: u32) -> Result<Timestamp, OrderFault>
        ensures answer { Stamps (make_machine.stamp self.old process) result self.old self.new }
        ensures run { (calls : List Call) → SinceStart calls self.old → IfOk result (λ k. (k.number ≡ length calls + 1) × (place_in calls process ≡ Some k.place)) }
    {
        let home = self.home(process).ok_or(OrderFault::NotLive)?;
        let number = next_number(self.number)?;
        let place = self.tree.stand(home);
        self.number = number;
        Ok(Timestamp {
            number,
            place: place as u32,
        })
    }

    fn number(&self) -> u32
        ensures answer { result ≡ (make_machine.means self.now).number }
        ensures valid { make_machine.valid self.now }
        ensures run { (calls : List Call) → SinceStart calls self.now → (result ≡ length calls) × Orderly calls }
    {
        self.number
    }

    fn lives(&self, process: u32) -> bool
        ensures answer { result ≡ (make_machine.means self.now).lives process }
        ensures run { (calls : List Call) → SinceStart calls self.now → Decides result (Alive process calls) }
    {
        live_birth(&self.births, process).is_some()
    }

    fn any_lives(&self) -> bool {
        self.tree.place(0).live > 0
    }

    // Whether the number lies from 1 to the present one, and the place is the session or a step.
    fn known(&self, a: Timestamp) -> bool
        ensures answer { result ≡ (make_machine.means self.now).known a }
        ensures run { (calls : List Call) → SinceStart calls self.now → Decides result (Known calls a) }
        ensures depth { (x : ℕ) → x < length self.now.places → (makes_above (shapes self.now.places) x ≤ 16) × (levels (parents self.now.places) x ≤ 48) }
    {
        (1..=self.number).contains(&a.number)
            && (a.place as usize) < self.tree.len()
            && self.tree.kind(a.place as usize).is_stand()
    }

    // Whether both are known, the first has the lower number, and where their places meet it is before.
    fn before(&self, a: Timestamp, b: Timestamp) -> bool
        ensures answer { result ≡ (make_machine.means self.now).before a b }
        ensures run { (calls : List Call) → SinceStart calls self.now → Decides result (Before calls a b) }
    {
        if !self.known(a) || !self.known(b) || a.number >= b.number {
            return false;
        }
        let meeting = self.tree.climb(a.place as usize, b.place as usize);
        self.judge(meeting, a.number, b.number)
    }
}
