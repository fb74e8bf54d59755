// Signed numbers: one operation to a function, so that the proofs above only call.
ghost use Rattle.std.specs.Prelude.{◌≡◌, ◌+◌, ◌*◌, ◌<◌, ◌≤◌, ◌^◌, pos, nat_abs, ◌+ℤ◌, ◌-ℤ◌, ◌*ℤ◌, ◌<ℤ◌};
ghost use Rattle.std.specs.Int.{w64};
ghost use Rattle.std.proofs.Common.{SFits};
ghost use Rattle.integers.specs.Rounding.{rnd};
ghost use Rattle.integers.specs.Root.{root, binary_digits};
ghost use Rattle.integers.specs.RootSteps.{place_squared};
ghost use Rattle.integers.specs.Pairs.{inside};

// add and sub are two functions, and so are cross and cross_sub: one operation each, and the proofs above read `value` and `fits` of each.

// Sums, differences and products whose sizes leave room. `fits` says nothing new: the proofs of callers read it.
pub fn add(a: i64, b: i64) -> i64
    requires { nat_abs a + nat_abs b < 2 ^ 63 }
    ensures value { result ≡ a +ℤ b }
    ensures size { nat_abs result ≤ nat_abs a + nat_abs b }
    ensures fits { SFits w64 result }
{
    a + b
}

pub fn sub(a: i64, b: i64) -> i64
    requires { nat_abs a + nat_abs b < 2 ^ 63 }
    ensures value { result ≡ a -ℤ b }
    ensures size { nat_abs result ≤ nat_abs a + nat_abs b }
    ensures fits { SFits w64 result }
{
    a - b
}

pub fn mul(a: i64, b: i64) -> i64
    requires { nat_abs a * nat_abs b < 2 ^ 63 }
    ensures value { result ≡ a *ℤ b }
    ensures size { nat_abs result ≡ nat_abs a * nat_abs b }
    ensures fits { SFits w64 result }
{
    a * b
}

// a * b + c * d and a * b - c * d, as the products of pairs have them.
pub fn cross(a: i64, b: i64, c: i64, d: i64) -> i64
    requires b_bound { nat_abs a * nat_abs b ≤ 2 ^ 61 }
    requires d_bound { nat_abs c * nat_abs d ≤ 2 ^ 61 }
    ensures value { result ≡ a *ℤ b +ℤ c *ℤ d }
    ensures fits { SFits w64 result }
{
    let x = mul(a, b);
    let y = mul(c, d);
    add(x, y)
}

pub fn cross_sub(a: i64, b: i64, c: i64, d: i64) -> i64
    requires b_bound { nat_abs a * nat_abs b ≤ 2 ^ 61 }
    requires d_bound { nat_abs c * nat_abs d ≤ 2 ^ 61 }
    ensures value { result ≡ a *ℤ b -ℤ c *ℤ d }
    ensures fits { SFits w64 result }
{
    let x = mul(a, b);
    let y = mul(c, d);
    sub(x, y)
}

// The size of a.
pub fn size(a: i64) -> u64
    ensures { result ≡ nat_abs a }
{
    a.unsigned_abs()
}

// Whether a is within ±n.
pub fn inside(a: i64, n: u64) -> bool
    ensures { result ≡ inside n a }
{
    size(a) <= n
}

// m as a signed number.
pub fn signed(m: u64) -> i64
    requires { m < 2 ^ 63 }
    ensures value { result ≡ pos m }
    ensures fits { SFits w64 result }
{
    m as i64
}

// a / b to the nearest whole number, a tie away from zero. The remainder r has a's sign, and the quotient moves
// away from zero where what is left to b is no larger than r. For r below 0 that is b + r: b - r might not fit.
pub fn rnd_div(a: i64, b: i64) -> i64
    requires { pos 0 <ℤ b }
    ensures { result ≡ rnd a (nat_abs b) }
{
    let q = a / b;
    let r = a % b;
    if 0 <= r {
        if b - r <= r { q + 1 } else { q }
    } else {
        if b + r <= -r { q - 1 } else { q }
    }
}

// The same by an unsigned divisor, as weights, turns and limits are.
pub fn rnd_to(a: i64, d: u64) -> i64
    requires d_nonzero { 0 < d }
    requires d_bound { d < 2 ^ 63 }
    ensures { result ≡ rnd a d }
{
    let b = signed(d);
    rnd_div(a, b)
}

// How many binary digits the root of n has: half as many as n has, rounded up, since a square has twice as many as its root or one less. The count of
// leading zeros tells how many n has. `few` says nothing new: the proof of `root` reads it.
fn root_digits(n: u64) -> u32
    ensures digits { result ≡ binary_digits (root n) }
    ensures few { result ≤ 32 }
{
    32 - u64::leading_zeros(n) / 2
}

// The first of k binary digits stands at the place worth 2 ^ (k - 1). This is the square of that, and 0 where there are no digits.
fn first_place_squared(k: u32) -> u64
    requires { k ≤ 32 }
    ensures { result ≡ place_squared k }
{
    if k == 0 {
        return 0;
    }
    1u64 << (2 * k - 2)
}

// A whole root, and how many steps were taken to it.
#[derive(Clone, Copy)]
pub struct Rooted {
    pub root: u64,
    pub steps: u32,
}

// The greatest m with m * m <= n, one binary digit in each step, the highest first. M is the number made of the digits that are found, in their places, and P
// is what the next place is worth. `square` is P * P, `left` is n - M * M, and `trial` is what a digit 1 would take from `left`:
// (M + P) * (M + P) - M * M = 2 * M * P + P * P. `low` is the next trial where the digit is 0, M * P + P * P / 4: half of `trial` less a quarter of `square`.
// Where the digit is 1, it is P * P more. At the last place P is 1, both shifts round down, and `trial` becomes the root.
// `low` is worked before the test, so that the compiler makes conditional moves of it: a branch would be predicted wrong for about every second digit.
pub fn root(n: u64) -> Rooted
    ensures root { result.root ≡ root n }
    ensures steps { result.steps ≡ binary_digits (root n) }
{
    let digits = root_digits(n);
    let mut square = first_place_squared(digits);
    let mut trial = square;
    let mut left = n;
    // A while, since the count of steps is the loop's own variable: no turn can be made that it does not count.
    let mut steps = 0u32;
    while steps < digits {
        let next = square >> 2;
        let low = (trial >> 1) - next;
        if trial <= left {
            left -= trial;
            trial = low + square;
        } else {
            trial = low;
        }
        square = next;
        steps += 1;
    }
    Rooted { root: trial, steps }
}
