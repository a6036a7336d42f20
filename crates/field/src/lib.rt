// Little-endian fields of a byte slice: whole numbers of one to eight bytes, signed in two's complement.
#![tactic(auto)]

mod signed;
mod unsigned;

ghost use Rattle.std.specs.Prelude.{◌≡◌, ℕ, ◌+◌, ◌*◌, ◌≤◌, ◌<◌, ◌^◌, length};
ghost use Rattle.model.specs.Numbers.{le_at};
ghost use Rattle.field.specs.Le.{put_le};

// The number in the n bytes from `at`, the lowest first. n is a parameter: some callers know it at run time alone.
pub fn get_le(s: &[u8], at: usize, n: usize) -> u64
    requires { (at + n ≤ length s.now) × (n ≤ 8) }
    ensures { (result ≡ le_at n s.now at) × (result < 256 ^ n) }
{
    let mut v: u64 = 0;
    for b in s[at..at + n].iter().rev() {
        v = v * 256 + u64::from(*b);
    }
    v
}

// The n lowest bytes of v go to `at`, the lowest first.
pub fn put_le(s: &mut [u8], at: usize, n: usize, v: u64)
    requires { at + n ≤ length s.old }
    ensures { s.new ≡ put_le n s.old at v }
{
    let mut rest = v;
    for b in &mut s[at..at + n] {
        *b = (rest % 256) as u8;
        rest = rest / 256;
    }
}

// A whole number that stands in a byte slice as a field. Each type has its own impl: none is over all integer types, and no macro may write one.
pub trait Field {
    // The bytes of the field, at most eight.
    const LEN: usize;

    ghost LEN: { ℕ };

    // What the number of these bytes means.
    ghost value: { ℕ → Self };

    // The number whose bytes mean a value.
    ghost number: { Self → ℕ };

    fn from_number(n: u64) -> Self
        requires { n < 256 ^ LEN }
        ensures { result ≡ value n };

    fn to_number(self) -> u64
        ensures { result ≡ number self };

    ghost within_u64: { LEN ≤ 8 };
}

// The value in the field at `at`.
pub fn get<T: Field>(s: &[u8], at: usize) -> T
    requires { at + T.LEN ≤ length s.now }
    ensures { result ≡ T.value (le_at T.LEN s.now at) }
{
    T::from_number(get_le(s, at, T::LEN))
}

// The value goes to the field at `at`.
pub fn put<T: Field>(s: &mut [u8], at: usize, v: T)
    requires { at + T.LEN ≤ length s.old }
    ensures { s.new ≡ put_le T.LEN s.old at (T.number v) }
{
    put_le(s, at, T::LEN, v.to_number())
}
