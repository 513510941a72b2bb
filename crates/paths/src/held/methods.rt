ghost use Rattle.std.specs.Prelude.{◌≡◌, true, IfOk, Decides};
ghost use Rattle.paths.specs.Bytes.{path_bytes};
ghost use Rattle.paths.specs.Forms.{wellformed};

use crate::borrowed::Path;
use crate::held::HeldPath;
use std::alloc::{AllocError, Global};

impl HeldPath {
    // A copy of the path, where there is memory for it.
    pub fn hold(heap: Global, path: Path<'_>) -> Result<HeldPath, AllocError>
        ensures { IfOk result (λ h. h ≡ path_bytes path.entry) }
    {
        let bytes = Vec::from_slice(heap, path.as_bytes())?;
        Ok(HeldPath { bytes })
    }

    // The bytes of the path. `form` tells a caller who goes on with the bytes alone what the type told before.
    pub fn as_bytes(&self) -> &[u8]
        ensures value { result.now ≡ self.now }
        ensures form { wellformed result.now ≡ true }
    {
        self.bytes.as_slice()
    }

    // The path, borrowed from the held one.
    pub fn as_path(&self) -> Path<'_>
        ensures { path_bytes result ≡ self.now }
    {
        Path::new(self.as_bytes())
    }

    // Whether the held path and the borrowed one are the same: exactly if their bytes are.
    // A method and no `==`, since the library's `PartialEq` compares two values of one type only.
    pub fn equals(&self, other: &Path<'_>) -> bool
        ensures { Decides result (self.now ≡ path_bytes other.now) }
    {
        self.as_bytes() == other.as_bytes()
    }
}
