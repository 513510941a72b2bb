ghost use Rattle.std.specs.Prelude.{◌≡◌, true};
ghost use Rattle.paths.specs.Forms.{wellformed};

mod methods;

// A well-formed path, borrowed from the bytes that it was found in. The form is part of the type, so nobody tests it again.
// A ghost field and no `impl Model`, which the checker does not take beside `Copy` where the struct has a lifetime.
#[derive(Clone, Copy)]
pub struct Path<'a> {
    bytes: &'a [u8],
    ghost ok: { wellformed bytes.now ≡ true },
}

// Says of bytes that they do not have the form of a path.
#[derive(Clone, Copy, Debug, PartialEq, Eq)]
pub struct Malformed;
