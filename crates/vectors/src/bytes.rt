// Numbers as bytes, most significant byte first.
ghost use Rattle.std.specs.Prelude.{◌≡◌, ℕ, ◌+◌, ◌*◌, ◌≤◌, List, eqb, length, get_or, map, refl};
ghost use Rattle.std.proofs.Common.{sym};
ghost use Rattle.std.proofs.lemmas.List.Edits.{sets};
ghost use Rattle.vectors.specs.Vectors.{all, vector};
ghost use Rattle.vectors.specs.Bytes.{number_at, bytes_of, fields_of};
ghost use Rattle.std.proofs.lemmas.List.{map-id};

// A number that crosses as WIDTH bytes. Its two types differ by a size, but std converts bytes for each by a method of its
// own, and what it says of them names the type.
pub trait Number: Copy {
    ghost WIDTH: { ℕ };

    ghost ZERO: { Self };

    // The number itself, and those of a list.
    ghost number: { Self → ℕ };

    ghost numbers: { List Self → List ℕ };

    const WIDTH: usize;

    const ZERO: Self;

    // The number that stands at i. The callers have found the place to be there.
    fn read(s: &[u8], i: usize) -> Self
        requires { i + WIDTH ≤ length s.now }
        ensures { number result ≡ number_at WIDTH s.now i };

    // The number goes to place i. The callers have found room there.
    fn put(self, out: &mut [u8], i: usize)
        requires { i + WIDTH ≤ length out.old }
        ensures { out.new ≡ sets out.old i (bytes_of WIDTH (number self)) };

    fn is_zero(self) -> bool
        ensures { result ≡ eqb (number self) 0 };

    ghost zero_is_zero: { number ZERO ≡ 0 };

    ghost numbers_each: { (v : List Self) → numbers v ≡ map number v };
}

impl Number for u16 {
    ghost WIDTH = { 2 };

    ghost ZERO = { 0 };

    ghost number = { λ x. x };

    ghost numbers = { λ v. v };

    ghost zero_is_zero = { refl };

    ghost numbers_each = { λ v. sym (map-id v) };

    const WIDTH: usize = 2;

    const ZERO: u16 = 0;

    fn read(s: &[u8], i: usize) -> u16 {
        let mut bytes = [0; 2];
        bytes.copy_from_slice(&s[i..i + 2]);
        u16::from_be_bytes(bytes)
    }

    fn put(self, out: &mut [u8], i: usize) {
        out[i..i + 2].copy_from_slice(&self.to_be_bytes());
    }

    fn is_zero(self) -> bool {
        self == 0u16
    }
}

impl Number for u64 {
    ghost WIDTH = { 8 };

    ghost ZERO = { 0 };

    ghost number = { λ x. x };

    ghost numbers = { λ v. v };

    ghost zero_is_zero = { refl };

    ghost numbers_each = { λ v. sym (map-id v) };

    const WIDTH: usize = 8;

    const ZERO: u64 = 0;

    fn read(s: &[u8], i: usize) -> u64 {
        let mut bytes = [0; 8];
        bytes.copy_from_slice(&s[i..i + 8]);
        u64::from_be_bytes(bytes)
    }

    fn put(self, out: &mut [u8], i: usize) {
        out[i..i + 8].copy_from_slice(&self.to_be_bytes());
    }

    fn is_zero(self) -> bool {
        self == 0u64
    }
}

// The n numbers from place i on, and 0 above. The callers have found them to be there: here and below that is asked of the
// slice that is lent, since a struct that lends it would owe the same at each method.
pub fn fields<T: Number>(s: &[u8], i: usize, n: usize) -> [T; 16]
    requires { (n ≤ 16) × (i + T.WIDTH * n ≤ length s.now) }
    ensures { T.numbers result ≡ vector n (λ k. number_at T.WIDTH s.now (i + T.WIDTH * k)) }
{
    let mut v = [T::ZERO; 16];
    let below = &mut v[..n];
    for (k, x) in below.iter_mut().enumerate() {
        *x = T::read(s, i + T::WIDTH * k);
    }
    v
}

// Four bytes from place i on in one number, which is 0 where each of them is. The callers have found them to be there.
pub fn gathered(s: &[u8], i: usize) -> u32
    requires { i + 4 ≤ length s.now }
    ensures { eqb result 0 ≡ all 4 (λ k. eqb (get_or s.now (i + k) 0) 0) }
{
    u32::from_le_bytes([s[i], s[i + 1], s[i + 2], s[i + 3]])
}

// The numbers of v go to place i and on. The callers have found room there.
pub fn put_fields<T: Number>(out: &mut [u8], i: usize, v: &[T])
    requires { i + T.WIDTH * length v.now ≤ length out.old }
    ensures { out.new ≡ sets out.old i (fields_of T.WIDTH (T.numbers v.now)) }
{
    for (k, x) in v.iter().enumerate() {
        x.put(out, i + T::WIDTH * k);
    }
}

// The bytes of s go to place i and on. The callers have found room there. Byte by byte, of which the compiler makes memcpy:
// of std's `copy_from_slice` it makes memmove, a name more that who links the C library would have to have.
pub fn put_bytes(out: &mut [u8], i: usize, s: &[u8])
    requires { i + length s.now ≤ length out.old }
    ensures { out.new ≡ sets out.old i s.now }
{
    for (k, byte) in s.iter().enumerate() {
        out[i + k] = *byte;
    }
}
