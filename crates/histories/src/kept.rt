// The history of one key.
ghost use Rattle.std.specs.Prelude.{◌≡◌, ℕ, Bool, true, List, is_ok, reverse};
ghost use Rattle.order.specs.Meaning.{Meaning, Lawful};
ghost use Rattle.histories.specs.Histories.{unused, asked, finds, enter};
ghost use Rattle.histories.specs.Judged.{Entered, Judged};
ghost use Rattle.histories.specs.Model.{kept, HasRoom};
ghost use Rattle.histories.specs.declared.accesses.Access.{Access};
ghost use Rattle.histories.specs.declared.accesses.Kind.{Kind};

use crate::accesses::{Access, Checked, Race};
use crate::checks::{check_each, first_race};
use crate::rules::ConflictRule;
use order::{Order, Timestamp};
use std::alloc::{AllocError, Global};

// No `impl Model`: `enter` asks for room, which is no part of what is kept, so clauses would only say `self.new.kept` for `kept self.new`.
#[derive(Drop)]
pub struct History {
    // the last critical access
    critical: Option<Timestamp>,
    // the noncritical ones since, oldest first
    since: Vec<Timestamp>,
    // the first failing pair
    failed: Option<Race>,
}

impl History {
    // The history of a key on which nothing was entered.
    pub fn new(heap: Global) -> History
        ensures value { kept result ≡ unused }
    {
        History {
            critical: None,
            since: Vec::new(heap),
            failed: None,
        }
    }

    // Makes room for one access more, so that entering it cannot fail.
    pub fn reserve(&mut self) -> Result<(), AllocError>
        ensures same { kept self.new ≡ kept self.old }
        ensures room { is_ok result ≡ true → HasRoom self.new }
    {
        self.since.reserve(1)
    }

    // Whom a new access is checked against, oldest first. A critical one: the noncritical ones since the last critical one. If there
    // are none, and for any other access: that last critical one.
    fn asked(&self, critical: bool) -> &[Timestamp]
        ensures { reverse result.now ≡ asked critical (kept self.now) }
    {
        if critical && !self.since.is_empty() {
            &self.since
        } else {
            self.critical.as_slice()
        }
    }

    // Enters an access: it is checked against the earlier ones that the rule has it checked against, and kept.
    pub fn enter<O: Order, R: ConflictRule>(
        &mut self,
        order: &O,
        rule: &R,
        access: Access,
    ) -> Checked
        requires room { HasRoom self.old }
        ensures value { result ≡ finds (R.critical rule.now) (O.machine.means (O.model order.now)).before (kept self.old) access }
        ensures after { kept self.new ≡ enter (R.critical rule.now) (O.machine.means (O.model order.now)).before (kept self.old) access }
    {
        let critical = rule.is_critical(access.kind);
        let found = check_each(order, self.asked(critical), access.at);
        self.failed = first_race(self.failed, found.failed, access.at);
        if critical {
            self.critical = Some(access.at);
            self.since.clear();
        } else {
            self.since.push_reserved(access.at);
        }
        found
    }

    // The first failing pair, if any.
    #[tactic(auto, using(crate::proofs::Critical::judged))]
    pub fn race(&self) -> Option<Race>
        ensures value { result ≡ (kept self.now).failed }
        ensures law { (critical : Kind → Bool) (x : Meaning) (accesses : List Access) (n : ℕ) → Lawful x → Entered critical x accesses (kept self.now) n → Judged critical x.before accesses result n }
    {
        self.failed
    }
}
