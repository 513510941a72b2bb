// Numbers as they stand in a log.
ghost use Rattle.std.specs.Prelude.{◌≡◌, ◌≢◌, ℕ, ◌^◌, ◌<◌, ◌++◌, length, MatchResult};
ghost use Rattle.faults.specs.declared.ReaderFault.TheVariants.{BadLength};
ghost use Rattle.trace_log.specs.Format.{big};

use faults::ReaderFault;

// A number of N bytes, the most significant first.
pub trait Number<const N: usize> {
    ghost value: { Self → ℕ };

    fn from_bytes(bytes: &[u8; N]) -> Self
        ensures { big N (value result) ≡ bytes.now };
}

impl Number<1> for u8 {
    ghost value = { λ n. n };

    fn from_bytes(bytes: &[u8; 1]) -> u8 {
        u8::from_be_bytes(*bytes)
    }
}

impl Number<2> for u16 {
    ghost value = { λ n. n };

    fn from_bytes(bytes: &[u8; 2]) -> u16 {
        u16::from_be_bytes(*bytes)
    }
}

impl Number<4> for u32 {
    ghost value = { λ n. n };

    fn from_bytes(bytes: &[u8; 4]) -> u32 {
        u32::from_be_bytes(*bytes)
    }
}

impl Number<8> for u64 {
    ghost value = { λ n. n };

    fn from_bytes(bytes: &[u8; 8]) -> u64 {
        u64::from_be_bytes(*bytes)
    }
}

// The number at the front of some bytes, and the rest. The bound on N is the library's for an array.
pub fn field<T: Number<N>, const N: usize>(bytes: &[u8]) -> Result<(T, &[u8]), ReaderFault>
    requires { N < 2 ^ 63 }
    ensures { MatchResult result (λ p. bytes.now ≡ big N (T.value p.0) ++ p.1.now) (λ f. (f ≡ BadLength) × (length bytes.now < N)) }
{
    let (front, rest) = bytes
        .split_first_chunk::<N>()
        .ok_or(ReaderFault::BadLength)?;
    Ok((T::from_bytes(front), rest))
}

// The number that some bytes are.
pub fn last_field<T: Number<N>, const N: usize>(bytes: &[u8]) -> Result<T, ReaderFault>
    requires { N < 2 ^ 63 }
    ensures { MatchResult result (λ n. bytes.now ≡ big N (T.value n)) (λ f. (f ≡ BadLength) × (length bytes.now ≢ N)) }
{
    let all = bytes.as_array::<N>().ok_or(ReaderFault::BadLength)?;
    Ok(T::from_bytes(all))
}
