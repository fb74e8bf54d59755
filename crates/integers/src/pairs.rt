// Pairs (re, im) of voltages, currents, impedances and powers. Each contract says the value alone: the sizes are laws of the definitions.
ghost use Rattle.std.specs.Prelude.{◌≡◌, ◌<◌, ◌^◌};
ghost use Rattle.integers.specs.Pairs.{◌+c◌, ◌-c◌, ◌·c◌, ◌·*◌, scaled, rnd_pair, square, within, close};
ghost use Rattle.integers.specs.PairLaws.{Within, Room};

use crate::{Pair, whole};

// add and sub are two functions: one operation each, and the proofs above read the value of each.
pub fn add(x: Pair, y: Pair) -> Pair
    requires within { Within (2 ^ 61) x }
    requires within_2 { Within (2 ^ 61) y }
    ensures { result ≡ x +c y }
{
    Pair {
        re: whole::add(x.re, y.re),
        im: whole::add(x.im, y.im),
    }
}

pub fn sub(x: Pair, y: Pair) -> Pair
    requires within { Within (2 ^ 61) x }
    requires within_2 { Within (2 ^ 61) y }
    ensures { result ≡ x -c y }
{
    Pair {
        re: whole::sub(x.re, y.re),
        im: whole::sub(x.im, y.im),
    }
}

pub fn mul(x: Pair, y: Pair) -> Pair
    requires { Room x y }
    ensures { result ≡ x ·c y }
{
    Pair {
        re: whole::cross_sub(x.re, y.re, x.im, y.im),
        im: whole::cross(x.re, y.im, x.im, y.re),
    }
}

// x times conj(y)
pub fn mul_conj(x: Pair, y: Pair) -> Pair
    requires { Room x y }
    ensures { result ≡ x ·* y }
{
    Pair {
        re: whole::cross(x.re, y.re, x.im, y.im),
        im: whole::cross_sub(x.im, y.re, x.re, y.im),
    }
}

// k times x
pub fn scale(k: i64, x: Pair) -> Pair
    requires { Within (2 ^ 61) (scaled k x) }
    ensures { result ≡ scaled k x }
{
    Pair {
        re: whole::mul(k, x.re),
        im: whole::mul(k, x.im),
    }
}

// x / d, each part to the nearest whole number
pub fn round(x: Pair, d: u64) -> Pair
    requires d_nonzero { 0 < d }
    requires d_bound { d < 2 ^ 63 }
    ensures { result ≡ rnd_pair x d }
{
    Pair {
        re: whole::rnd_to(x.re, d),
        im: whole::rnd_to(x.im, d),
    }
}

// re² + im²
pub fn square(x: Pair) -> u64
    requires { Within (2 ^ 30) x }
    ensures { result ≡ square x }
{
    let p = whole::size(x.re);
    let q = whole::size(x.im);
    p * p + q * q
}

// Whether both parts are within ±n.
pub fn within(x: Pair, n: u64) -> bool
    ensures { result ≡ within n x }
{
    whole::inside(x.re, n) && whole::inside(x.im, n)
}

// Whether x and y differ by at most n in each part.
pub fn close(x: Pair, y: Pair, n: u64) -> bool
    requires within { Within (2 ^ 61) x }
    requires within_2 { Within (2 ^ 61) y }
    ensures { result ≡ close n x y }
{
    within(sub(x, y), n)
}
