// Logs at the edges of the format. What is expected comes from the rules of the log format.
use std::alloc::{AllocError, Global};
use std::process::Abort;
use std::test::Fail;
use trace_log::contents::{Contents, read_all};
use trace_log::record::Record;

// How many records are read, and the number and the place of the refusal, if any.
type Outcome = (usize, Option<(Option<u8>, usize)>);

fn outcome(heap: Global, log: &[u8]) -> Result<Outcome, AllocError> {
    let Contents { records, refusal } = read_all(heap, log)?;
    let refusal = refusal.map(|r| (r.fault.number(), r.place));
    Ok((records.len(), refusal))
}

// Each log has the outcome beside it.
fn outcomes(
    rt: &impl Abort,
    heap: Global,
    cases: &[(&[u8], Outcome, &str)],
) -> Result<(), AllocError> {
    for (log, expected, what) in cases {
        assert_eq!(rt; outcome(heap, log)?, *expected, "{what}");
    }
    Ok(())
}

// A log of one record with this letter, zeros after it, n bytes in all.
fn zeros(heap: Global, letter: u8, n: u8) -> Result<Vec<u8>, AllocError> {
    let mut log = Vec::new(heap);
    log.extend_from_slice(&[1, 0, n, letter])?;
    log.resize(3 + usize::from(n), 0)?;
    Ok(log)
}

// Records of each letter with one byte less than n are refused, with n are read, and with one more have this outcome.
fn lengths(
    rt: &impl Abort,
    heap: Global,
    letters: &[(u8, u8)],
    longer: Outcome,
) -> Result<(), AllocError> {
    for (letter, n) in letters {
        let shorter = zeros(heap, *letter, n.saturating_sub(1))?;
        assert_eq!(rt; outcome(heap, &shorter)?, (0, Some((Some(20), 1))));
        assert_eq!(rt; outcome(heap, &zeros(heap, *letter, *n)?)?, (1, None));
        let more = zeros(heap, *letter, n.saturating_add(1))?;
        assert_eq!(rt; outcome(heap, &more)?, longer);
    }
    Ok(())
}

#[test]
fn versions(rt: HostRuntime) -> Result<(), Fail> {
    let refused = (0, Some((Some(17), 0)));
    outcomes(
        &rt,
        rt.alloc(),
        &[
            (&[], refused, "no version"),
            (&[0], refused, "version 0"),
            (&[2, 0, 5, b'D', 0, 0, 0, 1], refused, "version 2"),
            (&[1], (0, None), "version 1"),
        ],
    )?;
    Ok(())
}

#[test]
fn cut_records(rt: HostRuntime) -> Result<(), Fail> {
    let refused = (0, Some((Some(18), 1)));
    outcomes(
        &rt,
        rt.alloc(),
        &[
            (&[1, 0], refused, "half a length"),
            (&[1, 0, 5], refused, "no record"),
            (&[1, 0, 5, b'D', 0, 0, 0], refused, "a byte too few"),
            (&[1, 1, 5, b'D', 0, 0, 0, 1], refused, "256 bytes too few"),
            (
                &[1, 0, 5, b'D', 0, 0, 0, 1, 9],
                (1, Some((Some(18), 8))),
                "the first record is kept",
            ),
        ],
    )?;
    Ok(())
}

#[test]
fn order_of_checks(rt: HostRuntime) -> Result<(), Fail> {
    outcomes(
        &rt,
        rt.alloc(),
        &[
            (&[1, 0, 0], (0, Some((Some(20), 1))), "no letter"),
            (&[1, 0, 3, b'Q'], (0, Some((Some(18), 1))), "18 before 19"),
            (&[1, 0, 1, b'Q'], (0, Some((Some(19), 1))), "no such letter"),
            (&[1, 0, 2, b'B'], (0, Some((Some(18), 1))), "18 before 20"),
            (
                &[1, 0, 1, b'b'],
                (0, Some((Some(19), 1))),
                "letters are capitals",
            ),
        ],
    )?;
    Ok(())
}

#[test]
fn exact_lengths(rt: HostRuntime) -> Result<(), Fail> {
    let letters = [
        (b'B', 11u8),
        (b'M', 5),
        (b'T', 6),
        (b'D', 5),
        (b'F', 6),
        (b'A', 6),
    ];
    lengths(&rt, rt.alloc(), &letters, (0, Some((Some(20), 1))))?;
    Ok(())
}

#[test]
fn least_lengths(rt: HostRuntime) -> Result<(), Fail> {
    let letters = [(b'R', 17u8), (b'W', 17), (b'K', 5), (b'U', 18)];
    lengths(&rt, rt.alloc(), &letters, (1, None))?;
    Ok(())
}

#[test]
fn counted_targets(rt: HostRuntime) -> Result<(), Fail> {
    let refused = (0, Some((Some(20), 1)));
    outcomes(
        &rt,
        rt.alloc(),
        &[
            (
                &[1, 0, 8, b'T', 0, 0, 0, 9, 1, 0, 2],
                (1, None),
                "one target",
            ),
            (
                &[1, 0, 8, b'T', 0, 0, 0, 9, 2, 0, 2],
                refused,
                "a target is missing",
            ),
            (
                &[1, 0, 8, b'T', 0, 0, 0, 9, 0, 0, 2],
                refused,
                "a target too many",
            ),
            (&[1, 0, 7, b'T', 0, 0, 0, 9, 1, 0], refused, "half a target"),
        ],
    )?;
    Ok(())
}

#[test]
fn last_is_0_or_1(rt: HostRuntime) -> Result<(), Fail> {
    let heap = rt.alloc();
    let log = [
        1, 0, 20, b'U', 0, 0, 0, 9, 0, 0, 0, 1, 0, 0, 0, 0, 0, 0, 0, 50, 0, b'/', b't',
    ];
    let refused = (0, Some((Some(20), 1)));
    for (last, expected) in [
        (0u8, (1, None)),
        (1, (1, None)),
        (2, refused),
        (255, refused),
    ] {
        let mut log = log;
        log[20] = last;
        assert_eq!(rt; outcome(heap, &log)?, expected);
    }
    Ok(())
}

#[test]
fn fields_are_big_endian(rt: HostRuntime) -> Result<(), Fail> {
    let log = [
        1, 0, 17, b'R', 1, 2, 3, 4, 5, 6, 7, 8, 1, 2, 3, 4, 5, 6, 7, 8, 0, 8, b'T', 0, 0, 1, 0, 1,
        2, 3,
    ];
    let Contents { records, .. } = read_all(rt.alloc(), &log)?;
    assert!(rt; records.len() == 2);
    let Record::Read {
        process,
        device,
        inode,
        path,
    } = &records[0].record
    else {
        return Err(Fail::new("a read"));
    };
    assert_eq!(rt;
        (*process, *device, *inode),
        (0x01020304, 0x05060708, 0x0102030405060708)
    );
    assert_eq!(rt; path.len(), 0);
    assert_eq!(rt; records[1].place, 20);
    let Record::Target {
        process,
        prerequisites,
    } = &records[1].record
    else {
        return Err(Fail::new("a target"));
    };
    assert_eq!(rt; *process, 256);
    assert_eq!(rt; prerequisites.as_slice(), [0x0203].as_slice());
    Ok(())
}
