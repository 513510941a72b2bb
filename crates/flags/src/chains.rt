// Chains through pairs of a post and an await.
ghost use Rattle.std.specs.Prelude.{◌≡◌, reverse};
ghost use Rattle.flags.specs.Chains.{leads, row, through};

use crate::state::Flags;
use order::{Order, Timestamp};

impl<O: Order> Flags<O> {
    // Whether a is b or is before it in the order below.
    fn leads_to(&self, a: Timestamp, b: Timestamp) -> bool
        ensures answer { result ≡ leads (O.Order.machine.means (O.Order.model self.now.below)) a b }
    {
        a == b || self.below.before(a, b)
    }

    // The pairs whose await is, or is before, this post.
    pub(crate) fn earlier_pairs(&self, post: Timestamp) -> u32
        ensures answer { result ≡ row (O.Order.machine.means (O.Order.model self.now.below)) post (reverse self.now.pairs.items) }
    {
        let mut earlier = 0;
        for (i, pair) in self.pairs.iter().enumerate() {
            if self.leads_to(pair.wait, post) {
                earlier |= 1 << i;
            }
        }
        earlier
    }

    // Whether a leads to b through one or more pairs in a row. From the newest pair down, `wanted` has the pairs that lead on to b
    // through a newer one; so each pair costs at most two questions to the order below.
    pub(crate) fn leads_through(&self, a: Timestamp, b: Timestamp) -> bool
        ensures answer { result ≡ through (O.Order.machine.means (O.Order.model self.now.below)) a b 0 (reverse self.now.pairs.items) }
    {
        let mut wanted = 0;
        for (i, pair) in self.pairs.iter().enumerate().rev() {
            if (wanted >> i) % 2 == 1 || self.leads_to(pair.wait, b) {
                if self.leads_to(a, pair.post) {
                    return true;
                }
                wanted |= pair.earlier;
            }
        }
        false
    }
}
