ghost use Rattle.std.specs.Prelude.{◌≡◌, length, Decides, nat_le};
ghost use Rattle.paths.specs.Forms.{doubled, ends_right, has, longest, wellformed, WellFormed};

// The byte that separates the components of a path.
pub(crate) const SLASH: u8 = b'/';

// The most bytes that a path has.
const LONGEST: usize = 255;

// Whether there are not too many bytes.
fn fits(bytes: &[u8]) -> bool
    ensures { result ≡ nat_le (length bytes.now) longest }
{
    bytes.len() <= LONGEST
}

// Whether a slash comes first, and none comes last unless it is the only byte.
fn ends_right(bytes: &[u8]) -> bool
    ensures { result ≡ ends_right bytes.now }
{
    match bytes {
        [] => false,
        [only] => *only == SLASH,
        [first, .., last] => *first == SLASH && *last != SLASH,
    }
}

// Whether a byte is 0.
fn has_zero(bytes: &[u8]) -> bool
    ensures { result ≡ has 0 bytes.now }
{
    bytes.contains(&0)
}

// Whether two slashes stand side by side.
fn has_double(bytes: &[u8]) -> bool
    ensures { result ≡ doubled bytes.now }
{
    bytes.windows(2).any(|pair| matches!(pair, [SLASH, SLASH]))
}

// Whether these bytes have the form of a path.
pub fn is_wellformed(bytes: &[u8]) -> bool
    ensures value { result ≡ wellformed bytes.now }
    ensures decides { Decides result (WellFormed bytes.now) }
{
    fits(bytes) && ends_right(bytes) && !has_zero(bytes) && !has_double(bytes)
}
