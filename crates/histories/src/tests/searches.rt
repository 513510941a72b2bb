use crate::{InodePair, Row, find_pair, find_path};
use paths::{HeldPath, Path};
use std::test::Fail;

#[test]
fn pairs(rt: HostRuntime) {
    let row = |device, inode, value: u8| Row {
        key: InodePair { device, inode },
        value,
    };
    let rows = [row(1, 50, 0), row(2, 50, 1), row(2, 51, 2)];
    for (device, inode, found) in [(2, 50, Some(1)), (2, 51, Some(2)), (1, 51, None)] {
        assert_eq!(rt; find_pair(&rows, InodePair { device, inode }), found);
    }
}

#[test]
fn paths(rt: HostRuntime) -> Result<(), Fail> {
    let mut rows = Vec::new(rt.alloc());
    rows.push(Row {
        key: HeldPath::hold(rt.alloc(), Path::new(b"/b"))?,
        value: 0u8,
    })?;
    rows.push(Row {
        key: HeldPath::hold(rt.alloc(), Path::new(b"/b/l"))?,
        value: 1u8,
    })?;
    assert_eq!(rt; find_path(&rows, Path::new(b"/b/l")), Some(1));
    assert_eq!(rt; find_path(&rows, Path::new(b"/b")), Some(0));
    assert_eq!(rt; find_path(&rows, Path::new(b"/l")), None);
    Ok(())
}
