use crate::{HeldPath, Path, is_wellformed};
use std::test::Fail;

#[test]
fn forms(rt: HostRuntime) {
    let good: [&[u8]; 4] = [b"/", b"/a", b"/a/b", b"/.a/b c"];
    for path in good {
        assert!(rt; is_wellformed(path));
        assert!(rt; Path::try_from(path).is_ok());
    }
    let bad: [&[u8]; 8] = [b"", b"//", b"a", b"a/b", b"/a/", b"/a//b", b"/a\0b", b"\0"];
    for path in bad {
        assert!(rt; !is_wellformed(path));
        assert!(rt; Path::try_from(path).is_err());
    }
}

#[test]
fn lengths(rt: HostRuntime) {
    let mut long = [b'a'; 256];
    long[0] = b'/';
    assert!(rt; is_wellformed(&long[0..255]));
    assert!(rt; !is_wellformed(&long));
}

fn parent_of(bytes: &[u8]) -> Option<&[u8]> {
    let up = Path::try_from(bytes).ok()?.parent()?;
    Some(up.as_bytes())
}

#[test]
fn parents(rt: HostRuntime) -> Result<(), Fail> {
    assert!(rt; parent_of(b"/").is_none());
    let table: [(&[u8], &[u8]); 3] = [(b"/a", b"/"), (b"/a/b", b"/a"), (b"/a/b/c", b"/a/b")];
    for (path, up) in table {
        assert_eq!(rt; parent_of(path).ok_or("none")?, up);
    }
    Ok(())
}

#[test]
fn holds(rt: HostRuntime) -> Result<(), Fail> {
    let held = HeldPath::hold(rt.alloc(), Path::new(b"/a/b"))?;
    assert!(rt; held.as_bytes() == b"/a/b".as_slice());
    assert!(rt; held.equals(&Path::new(b"/a/b")));
    assert!(rt; !held.equals(&Path::new(b"/a/c")));
    assert!(rt; !held.equals(&Path::new(b"/a")));
    Ok(())
}
