ghost use Rattle.std.specs.Prelude.{◌≡◌, ℕ, ◌≤◌, max, true, false, List, length, Some, MatchOption, MatchResult};
ghost use Rattle.std.specs.Option.{option_map};
ghost use Rattle.paths.specs.Bytes.{path_bytes};
ghost use Rattle.paths.specs.Forms.{wellformed};
ghost use Rattle.paths.specs.Parents.{before_last, parent, root, LiesIn};

use crate::borrowed::{Malformed, Path};
use crate::form::{SLASH, is_wellformed};
use memchr::memrchr;

// How many bytes the parent has: those before the last slash, or the slash of "/" if there are none.
fn parent_len(bytes: &[u8]) -> usize
    ensures value { result ≡ max (length (before_last bytes.now)) 1 }
    ensures inside { result ≤ max (length bytes.now) 1 }
{
    memrchr(SLASH, bytes).map_or(1, |at| at.max(1))
}

// The path of these bytes, where they have the form.
impl<'a> TryFrom<&'a [u8]> for Path<'a> {
    type Error = Malformed;

    ghost try_from_gives = { λ bytes r. MatchResult r (λ path. path_bytes path ≡ bytes.now) (λ _. wellformed bytes.now ≡ false) };

    fn try_from(bytes: &'a [u8]) -> Result<Path<'a>, Malformed> {
        if !is_wellformed(bytes) {
            return Err(Malformed);
        }
        Ok(Path::new(bytes))
    }
}

impl<'a> Path<'a> {
    // The path of these bytes. It cannot refuse, so the check comes first: `is_wellformed` says that bytes have the form. `try_from`
    // does both at once. No other public call asks anything of its caller.
    pub fn new(bytes: &'a [u8]) -> Path<'a>
        requires { wellformed bytes.now ≡ true }
        ensures { path_bytes result ≡ bytes.now }
    {
        Path { bytes }
    }

    // The bytes of the path. `form` tells a caller who goes on with the bytes alone what the type told before.
    pub fn as_bytes(self) -> &'a [u8]
        ensures value { result.now ≡ path_bytes self.entry }
        ensures form { wellformed result.now ≡ true }
    {
        self.bytes
    }

    // The path of the directory that this one lies in, as a part of its bytes; "/" lies in none. `only` says that no other well-formed
    // bytes are such a directory.
    pub fn parent(self) -> Option<Path<'a>>
        ensures value { option_map path_bytes result ≡ parent (path_bytes self.entry) }
        ensures law { MatchOption result (path_bytes self.entry ≡ root) (λ up. LiesIn (path_bytes self.entry) (path_bytes up)) }
        ensures only { (up : List ℕ) → wellformed up ≡ true → LiesIn (path_bytes self.entry) up → option_map path_bytes result ≡ Some up }
    {
        if self.bytes.len() < 2 {
            return None;
        }
        let end = parent_len(self.bytes);
        Some(Path {
            bytes: &self.bytes[..end],
        })
    }
}
