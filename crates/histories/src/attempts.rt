// The attempts to create a directory, and the lookups in it.
ghost use Rattle.std.specs.Prelude.{◌≡◌, true, List, is_ok};
ghost use Rattle.order.specs.Meaning.{Meaning};
ghost use Rattle.histories.specs.Found.{Looked, Found};
ghost use Rattle.histories.specs.Lookups.{Use, untried, tried, forgotten, looked, failed_lookup};
ghost use Rattle.histories.specs.Model.{kept_attempts, HasRoomForAttempt};

use crate::accesses::Race;
use crate::checks::{failed_lookup, first_race};
use order::{Order, Timestamp};
use std::alloc::{AllocError, Global};

// No `impl Model`, for the same reason as of `History`.
#[derive(Drop)]
pub struct Directory {
    // the creation attempts that remain, oldest first
    attempts: Vec<Timestamp>,
    // the first failing pair, of an attempt and a lookup
    failed: Option<Race>,
}

impl Directory {
    pub fn new(heap: Global) -> Directory
        ensures value { kept_attempts result ≡ untried }
    {
        Directory {
            attempts: Vec::new(heap),
            failed: None,
        }
    }

    // Makes room for one attempt more, so that adding it cannot fail.
    pub fn reserve(&mut self) -> Result<(), AllocError>
        ensures same { kept_attempts self.new ≡ kept_attempts self.old }
        ensures room { is_ok result ≡ true → HasRoomForAttempt self.new }
    {
        self.attempts.reserve(1)
    }

    // Adds a creation attempt.
    pub fn attempt(&mut self, at: Timestamp)
        requires room { HasRoomForAttempt self.old }
        ensures after { kept_attempts self.new ≡ tried (kept_attempts self.old) at }
    {
        self.attempts.push_reserved(at);
    }

    // Forgets the attempts: the directory was removed.
    pub fn forget(&mut self)
        ensures after { kept_attempts self.new ≡ forgotten (kept_attempts self.old) }
    {
        self.attempts.clear();
    }

    // Looks the directory up. If the lookup fails, it answers the attempt that it fails by.
    pub fn look_up<O: Order>(&mut self, order: &O, at: Timestamp) -> Option<Timestamp>
        ensures value { result ≡ failed_lookup (O.machine.means (O.model order.now)).before (kept_attempts self.old).remaining at }
        ensures after { kept_attempts self.new ≡ looked (O.machine.means (O.model order.now)).before (kept_attempts self.old) at }
    {
        let shown = failed_lookup(order, &self.attempts, at);
        self.failed = first_race(self.failed, shown, at);
        shown
    }

    // The first failing pair, if any.
    pub fn race(&self) -> Option<Race>
        ensures value { result ≡ (kept_attempts self.now).failed }
        ensures law { (x : Meaning) (uses : List Use) → Looked x uses (kept_attempts self.now) → Found x.before uses result }
    {
        self.failed
    }
}
