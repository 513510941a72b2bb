// The calls of the flags layer.
ghost use Rattle.std.specs.Prelude.{◌≡◌, ◌-◌, cond, List, IfOk, Some, None, Decides, MatchResult};
ghost use Rattle.order.specs.Machine.{Tells};
ghost use Rattle.order.specs.Runs.{Call, Ran};
ghost use Rattle.flags.specs.Machine.{flagged, new_flags, is_flag, tell_post, tell_await, post_of};
ghost use Rattle.flags.specs.Model.{flag_model};
ghost use Rattle.flags.specs.Relation.{FlagBefore};
ghost use Rattle.flags.specs.Runs.{PairsTold};
ghost use Rattle.flags.specs.Law.{flagged_right};

use crate::pair::Pair;
use crate::state::{FLAGS, Flags};
use faults::OrderFault;
use order::{Event, Order, Timestamp};
use std::alloc::{AllocFailed, Global};

// How many awaits there may be.
const MOST_AWAITS: usize = 32;

// Where the post of a flag is kept, if it is a flag.
fn slot(flag: u8) -> Option<usize>
    ensures answer { result ≡ cond (is_flag flag) (Some (flag - 1)) None }
{
    usize::from(flag).checked_sub(1).filter(|i| *i < FLAGS)
}

impl<O: Order> Flags<O> {
    // The layer over an order, with no flag posted. Where there is no memory it hands the order back.
    pub fn new(heap: Global, below: O) -> Result<Flags<O>, AllocFailed<O>>
        ensures start { MatchResult result (λ s. flag_model O.Order.model s ≡ new_flags (O.Order.model below)) (λ e. e.value ≡ below) }
        ensures valid { O.Order.machine.valid (O.Order.model below) → IfOk result (λ s. (flagged O.Order.machine).valid (flag_model O.Order.model s)) }
    {
        let Ok(pairs) = Vec::with_capacity(heap, MOST_AWAITS) else {
            return Err(AllocFailed { value: below });
        };
        Ok(Flags {
            below,
            posts: [None; FLAGS],
            pairs,
        })
    }

    // The order below, which says of itself what its type keeps.
    pub fn below(&self) -> &O
        ensures answer { result.now ≡ self.now.below }
    {
        &self.below
    }

    // The post of a flag, if it is a flag and was posted.
    fn post_of(&self, flag: u8) -> Option<Timestamp>
        ensures answer { result ≡ post_of (flag_model O.Order.model self.now) flag }
    {
        self.posts[slot(flag)?]
    }

    // A process posts a flag.
    fn post(&mut self, process: u32, flag: u8) -> Result<(), OrderFault>
        ensures answer { Tells (tell_post O.Order.machine (flag_model O.Order.model self.old) process flag) result (flag_model O.Order.model self.old) (flag_model O.Order.model self.new) }
    {
        let i = slot(flag).ok_or(OrderFault::BadFlag)?;
        if self.posts[i].is_some() {
            return Err(OrderFault::BadFlag);
        }
        let stamp = self.below.stamp(process)?;
        self.posts[i] = Some(stamp);
        Ok(())
    }

    // A process has waited for a flag.
    fn wait(&mut self, process: u32, flag: u8) -> Result<(), OrderFault>
        ensures answer { Tells (tell_await O.Order.machine (flag_model O.Order.model self.old) process flag) result (flag_model O.Order.model self.old) (flag_model O.Order.model self.new) }
    {
        let post = self.post_of(flag).ok_or(OrderFault::BadFlag)?;
        if self.pairs.len() >= MOST_AWAITS {
            return Err(OrderFault::AwaitsFull);
        }
        let wait = self.below.stamp(process)?;
        let earlier = self.earlier_pairs(post);
        self.pairs.push_reserved(Pair {
            post,
            wait,
            earlier,
        });
        Ok(())
    }
}

impl<O: Order> Order for Flags<O> {
    ghost machine = { flagged O.Order.machine };

    ghost model = { flag_model O.Order.model };

    ghost right = { flagged_right O.Order.machine O.Order.right };

    fn tell(&mut self, event: Event<'_>) -> Result<(), OrderFault> {
        match event {
            Event::Post { process, flag } => self.post(process, flag),
            Event::Await { process, flag } => self.wait(process, flag),
            other => self.below.tell(other),
        }
    }

    fn stamp(&mut self, process: u32) -> Result<Timestamp, OrderFault> {
        self.below.stamp(process)
    }

    fn number(&self) -> u32 {
        self.below.number()
    }

    fn lives(&self, process: u32) -> bool {
        self.below.lives(process)
    }

    fn any_lives(&self) -> bool {
        self.below.any_lives()
    }

    fn known(&self, a: Timestamp) -> bool {
        self.below.known(a)
    }

    fn before(&self, a: Timestamp, b: Timestamp) -> bool
        ensures answer { result ≡ ((flagged O.Order.machine).means (flag_model O.Order.model self.now)).before a b }
        ensures chained { (flagged O.Order.machine).valid (flag_model O.Order.model self.now) → Decides result (FlagBefore (O.Order.machine.means (O.Order.model self.now.below)) self.now.pairs.items a b) }
        ensures run { (s : O.Order.machine.State) (calls : List Call) → Ran (flagged O.Order.machine) (new_flags s) calls (flag_model O.Order.model self.now) → PairsTold O.Order.machine s calls self.now.pairs.items }
    {
        self.below.before(a, b) || self.leads_through(a, b)
    }
}
