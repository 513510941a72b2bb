// The laws of histories and directories from a new value to the verdict, over any order. Each timestamp is taken when its access is
// made, so the order moves on in between.
ghost use Rattle.std.specs.Prelude.{◌≡◌, ℕ, ◌+◌, List, [], ◌∷◌, ◌++◌, length, IfOk};
ghost use Rattle.histories.specs.declared.accesses.Access.{Access};
ghost use Rattle.histories.specs.Found.{Found};
ghost use Rattle.histories.specs.Histories.{asked};
ghost use Rattle.histories.specs.Judged.{Entered, Judged};
ghost use Rattle.histories.specs.Lookups.{looked_up, attempted};
ghost use Rattle.histories.specs.Model.{kept};

use crate::accesses::{Access, Kind, Race};
use crate::attempts::Directory;
use crate::kept::History;
use crate::rules::ConflictRule;
use faults::EntryFault;
use order::{Order, Timestamp};
use std::alloc::Global;

// When two accesses were made, the failing pair, and how many checks were made.
#[derive(Clone, Copy)]
pub struct Seen {
    pub first: Timestamp,
    pub second: Timestamp,
    pub race: Option<Race>,
    pub checks: usize,
}

// When a directory was made and looked up, and the failing pair. Nothing is counted.
#[derive(Clone, Copy)]
pub struct SeenLookup {
    pub first: Timestamp,
    pub second: Timestamp,
    pub race: Option<Race>,
}

// Enters one access more on a key, by a process: when it was made, and how many checks that took.
fn enter_by<O: Order, R: ConflictRule>(
    history: &mut History,
    order: &mut O,
    rule: &R,
    kind: Kind,
    process: u32,
) -> Result<(Timestamp, usize), EntryFault>
    ensures valid { O.machine.valid (O.model order.old) → IfOk result (λ _. O.machine.valid (O.model order.new)) }
    ensures checks { IfOk result (λ r. r.1 ≡ length (asked (R.critical rule.now kind) (kept history.old))) }
    ensures more { O.machine.valid (O.model order.old) → IfOk result (λ r. (accesses : List Access) (n : ℕ) → Entered (R.critical rule.now) (O.machine.means (O.model order.old)) accesses (kept history.old) n → Entered (R.critical rule.now) (O.machine.means (O.model order.new)) (accesses ++ record { kind = kind; at = r.0 } ∷ []) (kept history.new) (n + r.1)) }
{
    let at = order.stamp(process)?;
    history.reserve()?;
    let found = history.enter(order, rule, Access { kind, at });
    Ok((at, found.checks))
}

// Two accesses on a new key, each by its process.
pub fn two_accesses<O: Order, R: ConflictRule>(
    heap: Global,
    order: &mut O,
    rule: &R,
    first: (Kind, u32),
    second: (Kind, u32),
) -> Result<Seen, EntryFault>
    ensures law { O.machine.valid (O.model order.old) → IfOk result (λ s. Judged (R.critical rule.now) (O.machine.means (O.model order.new)).before (record { kind = first.0; at = s.first } ∷ record { kind = second.0; at = s.second } ∷ []) s.race s.checks) }
{
    let mut history = History::new(heap);
    let (one, few) = enter_by(&mut history, order, rule, first.0, first.1)?;
    let (two, more) = enter_by(&mut history, order, rule, second.0, second.1)?;
    let race = history.race();
    Ok(Seen {
        first: one,
        second: two,
        race,
        checks: few + more,
    })
}

// A directory that one process makes and another looks up.
pub fn made_and_looked_up<O: Order>(
    heap: Global,
    order: &mut O,
    maker: u32,
    reader: u32,
) -> Result<SeenLookup, EntryFault>
    ensures law { O.machine.valid (O.model order.old) → IfOk result (λ s. Found (O.machine.means (O.model order.new)).before (attempted s.first ∷ looked_up s.second ∷ []) s.race) }
{
    let mut directory = Directory::new(heap);
    let one = order.stamp(maker)?;
    directory.reserve()?;
    directory.attempt(one);
    let two = order.stamp(reader)?;
    directory.look_up(order, two);
    let race = directory.race();
    Ok(SeenLookup {
        first: one,
        second: two,
        race,
    })
}
