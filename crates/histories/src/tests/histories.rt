use super::frozen::Frozen;
use crate::{Access, ConflictRule, ContentsRule, Directory, History, Kind, PathRule, Race};
use order::Timestamp;
use std::alloc::Global;
use std::process::Abort;
use std::test::Fail;

// An access and what entering it answers: its kind, number and place, how many checks it makes, and the earlier number of the first that
// fails; 0 if none does, as `Checked::earlier` answers.
type Entry = (Kind, u32, u32, usize, u32);

// The numbers of a failing pair, if there is one.
type Pair = Option<(u32, u32)>;

fn numbers(race: Option<Race>) -> Pair {
    race.map(|race| (race.earlier.number, race.later.number))
}

// Enters the accesses of a row on a new key, and compares each answer and the failing pair in the end.
fn enters<R: ConflictRule>(
    rt: &impl Abort,
    heap: Global,
    rule: &R,
    row: &[Entry],
    pair: Pair,
) -> Result<(), Fail> {
    let mut history = History::new(heap);
    for &(kind, number, place, checks, earlier) in row {
        history.reserve()?;
        let at = Timestamp { number, place };
        let found = history.enter(&Frozen, rule, Access { kind, at });
        assert_eq!(rt; (found.checks, found.earlier()), (checks, earlier));
    }
    assert_eq!(rt; numbers(history.race()), pair);
    Ok(())
}

#[test]
fn contents(rt: HostRuntime) -> Result<(), Fail> {
    let table: [(&[Entry], Pair); 9] = [
        // reads do not conflict
        (&[(Kind::Read, 1, 5, 0, 0), (Kind::Read, 2, 3, 0, 0)], None),
        // a write, then a read that it is before
        (&[(Kind::Write, 1, 5, 0, 0), (Kind::Read, 2, 5, 1, 0)], None),
        // a write, then a read that it is not before
        (
            &[(Kind::Write, 1, 5, 0, 0), (Kind::Read, 2, 3, 1, 1)],
            Some((1, 2)),
        ),
        // a write after two reads, of which only the older is not before it
        (
            &[
                (Kind::Read, 1, 9, 0, 0),
                (Kind::Read, 2, 2, 0, 0),
                (Kind::Write, 3, 5, 2, 1),
            ],
            Some((1, 3)),
        ),
        // of which only the newer is not
        (
            &[
                (Kind::Read, 1, 2, 0, 0),
                (Kind::Read, 2, 9, 0, 0),
                (Kind::Write, 3, 5, 2, 2),
            ],
            Some((2, 3)),
        ),
        // of which neither is: the newer is asked first
        (
            &[
                (Kind::Read, 1, 9, 0, 0),
                (Kind::Read, 2, 8, 0, 0),
                (Kind::Write, 3, 5, 2, 2),
            ],
            Some((2, 3)),
        ),
        // two writes with nothing in between
        (
            &[(Kind::Write, 1, 5, 0, 0), (Kind::Write, 2, 3, 1, 1)],
            Some((1, 2)),
        ),
        // the first failing pair stays, and a later failure is answered all the same
        (
            &[
                (Kind::Write, 1, 5, 0, 0),
                (Kind::Read, 2, 3, 1, 1),
                (Kind::Write, 3, 1, 1, 2),
            ],
            Some((1, 2)),
        ),
        // a write asks only about what came since the last one
        (
            &[
                (Kind::Read, 1, 9, 0, 0),
                (Kind::Write, 2, 9, 1, 0),
                (Kind::Read, 3, 9, 1, 0),
                (Kind::Write, 4, 9, 1, 0),
                (Kind::Write, 5, 9, 1, 0),
            ],
            None,
        ),
    ];
    for (row, pair) in table {
        enters(&rt, rt.alloc(), &ContentsRule, row, pair)?;
    }
    Ok(())
}

#[test]
fn paths(rt: HostRuntime) -> Result<(), Fail> {
    let table: [(&[Entry], Pair); 3] = [
        // writes do not conflict on a path
        (
            &[
                (Kind::Write, 1, 5, 0, 0),
                (Kind::Write, 2, 3, 0, 0),
                (Kind::Read, 3, 1, 0, 0),
            ],
            None,
        ),
        // a removal after a write and a read
        (
            &[
                (Kind::Write, 1, 9, 0, 0),
                (Kind::Read, 2, 2, 0, 0),
                (Kind::Removal, 3, 5, 2, 1),
            ],
            Some((1, 3)),
        ),
        // a write after a removal
        (
            &[(Kind::Removal, 1, 5, 0, 0), (Kind::Write, 2, 3, 1, 1)],
            Some((1, 2)),
        ),
    ];
    for (row, pair) in table {
        enters(&rt, rt.alloc(), &PathRule, row, pair)?;
    }
    assert_eq!(rt; ContentsRule.letter(), b'C');
    assert_eq!(rt; PathRule.letter(), b'P');
    Ok(())
}

// What is done with a directory. An enum and no closures: a row of the tables below is read as data, with its numbers.
#[derive(Clone, Copy)]
enum Step {
    LookUp,
    Attempt,
    Forget,
}

// A step with its number and place, and the number of the attempt that a failed lookup answers.
type Use = (Step, u32, u32, Option<u32>);

fn uses(rt: &impl Abort, heap: Global, row: &[Use], pair: Pair) -> Result<(), Fail> {
    let mut directory = Directory::new(heap);
    for &(step, number, place, shown) in row {
        let at = Timestamp { number, place };
        match step {
            Step::LookUp => {
                let failed = directory.look_up(&Frozen, at);
                assert_eq!(rt; failed.map(|attempt| attempt.number), shown);
            }
            Step::Attempt => {
                directory.reserve()?;
                directory.attempt(at);
            }
            Step::Forget => directory.forget(),
        }
    }
    assert_eq!(rt; numbers(directory.race()), pair);
    Ok(())
}

#[test]
fn lookups(rt: HostRuntime) -> Result<(), Fail> {
    let table: [(&[Use], Pair); 6] = [
        // no attempt
        (&[(Step::LookUp, 1, 5, None)], None),
        // one that is before the lookup
        (
            &[(Step::Attempt, 1, 5, None), (Step::LookUp, 2, 5, None)],
            None,
        ),
        // one that is not
        (
            &[(Step::Attempt, 1, 9, None), (Step::LookUp, 2, 5, Some(1))],
            Some((1, 2)),
        ),
        // one of two is before it
        (
            &[
                (Step::Attempt, 1, 3, None),
                (Step::Attempt, 2, 9, None),
                (Step::LookUp, 3, 5, None),
            ],
            None,
        ),
        // none of two: the newer is shown, and the first failing pair stays
        (
            &[
                (Step::Attempt, 1, 9, None),
                (Step::Attempt, 2, 8, None),
                (Step::LookUp, 3, 5, Some(2)),
                (Step::Attempt, 4, 9, None),
                (Step::LookUp, 5, 6, Some(4)),
            ],
            Some((2, 3)),
        ),
        // a removal forgets the attempts
        (
            &[
                (Step::Attempt, 1, 9, None),
                (Step::Forget, 2, 9, None),
                (Step::LookUp, 3, 5, None),
            ],
            None,
        ),
    ];
    for (row, pair) in table {
        uses(&rt, rt.alloc(), row, pair)?;
    }
    Ok(())
}
