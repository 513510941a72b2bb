// An order: a source of happens-before between timestamps. Several orders stand behind the one trait below.
#![tactic(auto)]

ghost use Rattle.std.specs.Prelude.{◌≡◌, ℕ, ◌+◌, ◌<◌, ◌≤◌, false, List, MatchResult, Decides};
ghost use Rattle.faults.specs.declared.OrderFault.TheVariants.{UsedUp};
ghost use Rattle.order.specs.Events.{told, birth, make, death, post, await};
ghost use Rattle.order.specs.Machine.{Machine, Tells, Stamps};
ghost use Rattle.order.specs.Meaning.{last_number};
ghost use Rattle.order.specs.Right.{Right};
ghost use Rattle.order.specs.Runs.{Call, Ran, Alive};

use faults::OrderFault;

// The last number that an order gives out.
pub const LAST_NUMBER: u32 = 1_000_000;

// The number after this one, unless the numbers are used up.
pub fn next_number(number: u32) -> Result<u32, OrderFault>
    ensures answer { MatchResult result (λ n. (number < last_number) × (n ≡ number + 1)) (λ f. (last_number ≤ number) × (f ≡ UsedUp)) }
{
    if number < LAST_NUMBER {
        Ok(number + 1)
    } else {
        Err(OrderFault::UsedUp)
    }
}

// A moment of the session: its number, and the place of the process that it was given to.
#[derive(Clone, Copy, Debug, PartialEq, Eq)]
pub struct Timestamp {
    pub number: u32,
    pub place: u32,
}

// One event of the session, told to any order. Its zeros are those of the log and of the rules, which number a parent and a target so. A
// record of a log has cases like these, and others, in a crate that knows no order.
#[derive(Clone, Copy, Debug, PartialEq, Eq)]
pub enum Event<'a> {
    // A process is born, with a parent (0 for the session itself) and a target (0 for none).
    Birth {
        process: u32,
        parent: u32,
        target: u16,
    },
    // A process turns out to be a make.
    Make {
        process: u32,
    },
    // A make declares its next target, with some of its earlier targets as prerequisites.
    Target {
        process: u32,
        prerequisites: &'a [u16],
    },
    // A process ends.
    Death {
        process: u32,
    },
    // A process posts a flag.
    Post {
        process: u32,
        flag: u8,
    },
    // A process has waited for a flag.
    Await {
        process: u32,
        flag: u8,
    },
}

// Events that refer to nothing, by their values: a line each, where a literal takes five. The lifetime is whichever the caller wants.
impl<'a> Event<'a> {
    pub fn birth(process: u32, parent: u32, target: u16) -> Event<'a>
        ensures value { told result ≡ birth process parent target }
    {
        Event::Birth {
            process,
            parent,
            target,
        }
    }

    pub fn make(process: u32) -> Event<'a>
        ensures value { told result ≡ make process }
    {
        Event::Make { process }
    }

    pub fn death(process: u32) -> Event<'a>
        ensures value { told result ≡ death process }
    {
        Event::Death { process }
    }

    pub fn post(process: u32, flag: u8) -> Event<'a>
        ensures value { told result ≡ post process flag }
    {
        Event::Post { process, flag }
    }

    pub fn wait(process: u32, flag: u8) -> Event<'a>
        ensures value { told result ≡ await process flag }
    {
        Event::Await { process, flag }
    }
}

// What an order does is said by its machine, and a value of the order stands for a state of that machine, its model. Each call
// answers what the machine answers and leaves what the machine leaves; a refused call leaves the model as it was.
pub trait Order {
    ghost machine: { Machine };

    ghost model: { Self → machine.State };

    // Takes an event in, or refuses it.
    fn tell(&mut self, event: Event<'_>) -> Result<(), OrderFault>
        ensures answer { Tells (machine.tell (model self.old) (told event.entry)) result (model self.old) (model self.new) };

    // Gives a live process its next timestamp, or refuses.
    fn stamp(&mut self, process: u32) -> Result<Timestamp, OrderFault>
        ensures answer { Stamps (machine.stamp (model self.old) process) result (model self.old) (model self.new) };

    // The present number: how many events and timestamps there were.
    fn number(&self) -> u32
        ensures answer { result ≡ (machine.means (model self.now)).number };

    // Whether a process lives.
    fn lives(&self, process: u32) -> bool
        ensures answer { result ≡ (machine.means (model self.now)).lives process };

    // Whether any process lives.
    fn any_lives(&self) -> bool
        ensures answer { result ≡ machine.any (model self.now) };

    // Whether a timestamp is one of this session so far.
    fn known(&self, a: Timestamp) -> bool
        ensures answer { result ≡ (machine.means (model self.now)).known a };

    // Whether the build's rules order the first before the second; never so for unknown ones.
    fn before(&self, a: Timestamp, b: Timestamp) -> bool
        ensures answer { result ≡ (machine.means (model self.now)).before a b };

    // The law of orders, owed by each implementation of its machine.
    ghost right: { Right machine };
}

// Whether a process lives, over a whole run: from a valid state in which nobody lived, exactly the processes live that were born and
// have not died since.
pub fn lives_since<O: Order>(order: &O, process: u32) -> bool
    ensures answer { result ≡ (O.machine.means (O.model order.now)).lives process }
    ensures run { (s : O.machine.State) (calls : List Call) → O.machine.valid s → ((p : ℕ) → (O.machine.means s).lives p ≡ false) → Ran O.machine s calls (O.model order.now) → Decides result (Alive process calls) }
{
    order.lives(process)
}
