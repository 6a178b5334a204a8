// Vectors of 16 numbers, one for each seat, and tests over every entry. Those that fold have no early exit, so that the
// compiler makes wide code of them.
#![tactic(auto)]

pub mod bytes;

ghost use Rattle.std.specs.Prelude.{◌≡◌, ◌≤◌, ◌<◌};
ghost use Rattle.vectors.specs.Vectors.{within, same, zero_above, maxes};

use bytes::Number;
use std::array;

// Whether every entry of a is at most b's.
pub fn is_within(a: [u16; 16], b: [u16; 16]) -> bool
    ensures { result ≡ within a b }
{
    a.iter()
        .zip(b.iter())
        .fold(true, |ok, (x, y)| ok & (*x <= *y))
}

// Whether every entry of a is b's. `==` of the arrays would do, but has no entry's test for a must-fail edit to turn.
pub fn is_same(a: [u16; 16], b: [u16; 16]) -> bool
    ensures { result ≡ same a b }
{
    a.iter()
        .zip(b.iter())
        .fold(true, |ok, (x, y)| ok & (*x == *y))
}

// Whether every entry above n is 0. The callers have found n to be in range.
pub fn is_zero_above<T: Number>(n: usize, v: [T; 16]) -> bool
    requires { n ≤ 16 }
    ensures { result ≡ zero_above n (T.numbers v) }
{
    let v = &v[..];
    v[n..].iter().fold(true, |ok, x| ok & x.is_zero())
}

// Whether every word is 0.
pub fn is_zero(words: [u64; 16]) -> bool
    ensures { result ≡ zero_above 0 words }
{
    is_zero_above(0, words)
}

// The entrywise maximum.
pub fn max_of(a: [u16; 16], b: [u16; 16]) -> [u16; 16]
    ensures { result ≡ maxes a b }
{
    array::from_fn(
        |k: usize| -> u16
            requires { k < 16 }
        { a[k].max(b[k]) },
    )
}
