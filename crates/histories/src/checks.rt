// Checks of a new access against earlier ones, over any order.
ghost use Rattle.std.specs.Prelude.{◌≡◌, reverse};
ghost use Rattle.histories.specs.Histories.{checked, earlier_number, first_race};
ghost use Rattle.histories.specs.Lookups.{failed_lookup};

use crate::accesses::{Checked, Race};
use order::{Order, Timestamp};

// No check was made.
const NOTHING: Checked = Checked {
    checks: 0,
    failed: None,
};

impl Checked {
    // The number of the earlier access of the first check that failed; 0 if none did, as the rules have it (`entry.answer`).
    pub fn earlier(self) -> u32
        ensures { result ≡ earlier_number self.failed }
    {
        self.failed.map_or(0, |at| at.number)
    }
}

// The checks against each of these, the newest first. All are asked, also after one has failed, and each is counted where it is asked.
pub fn check_each<O: Order>(order: &O, earlier: &[Timestamp], new: Timestamp) -> Checked
    ensures answer { result ≡ checked (O.machine.means (O.model order.now)).before (reverse earlier.now) new }
{
    earlier.iter().rev().fold(NOTHING, |found, at| {
        let fails = !order.before(*at, new);
        Checked {
            checks: found.checks.saturating_add(1),
            failed: found.failed.or(fails.then_some(*at)),
        }
    })
}

// The failing pair after a check failed, or none did: the first one stays.
pub fn first_race(race: Option<Race>, failed: Option<Timestamp>, later: Timestamp) -> Option<Race>
    ensures { result ≡ first_race race failed later }
{
    race.or(failed.map(|earlier| Race { earlier, later }))
}

// The attempt that a lookup fails by: if some remain and none of them is before it, the newest.
pub fn failed_lookup<O: Order>(
    order: &O,
    attempts: &[Timestamp],
    lookup: Timestamp,
) -> Option<Timestamp>
    ensures answer { result ≡ failed_lookup (O.machine.means (O.model order.now)).before attempts.now lookup }
{
    if attempts.iter().any(|at| order.before(*at, lookup)) {
        return None;
    }
    attempts.last().copied()
}
