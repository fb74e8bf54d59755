// A pair for each phase: sums, rows of signs, masks and tests.
ghost use Rattle.std.specs.Prelude.{◌≡◌, cond, ◌^◌};
ghost use Rattle.integers.specs.Pairs.{0c, ◌+c◌, scaled, within, close};
ghost use Rattle.integers.specs.PairLaws.{Within};
ghost use Rattle.integers.specs.Lists.{all};
ghost use Rattle.feeder.specs.Feeder.{abc};
ghost use Rattle.equations.specs.Equations.{at, beyond3, each, masked, minus3, mix, plus3, sign_at};
ghost use Rattle.equations.specs.Sizes.{SignsOk, Within3};

use feeder::{Phases, Signs, Three};
use integers::{Pair, pairs};

pub fn plus(x: Three, y: Three) -> Three
    requires within3 { Within3 (2 ^ 61) x }
    requires within3_2 { Within3 (2 ^ 61) y }
    ensures { result ≡ plus3 x y }
{
    x.zip(y, pairs::add)
}

pub fn minus(x: Three, y: Three) -> Three
    requires within3 { Within3 (2 ^ 61) x }
    requires within3_2 { Within3 (2 ^ 61) y }
    ensures { result ≡ minus3 x y }
{
    x.zip(y, pairs::sub)
}

// The sum over the phases.
pub fn total(x: Three) -> Pair
    requires { Within3 (2 ^ 60) x }
    ensures { result ≡ x.a +c (x.b +c x.c) }
{
    let t = pairs::add(x.b, x.c);
    pairs::add(x.a, t)
}

// A row of signs times x: the sum of what each sign makes of its phase.
pub fn mix(s: Signs, x: Three) -> Pair
    requires signs_ok { SignsOk s }
    requires within3 { Within3 2100000 x }
    ensures { result ≡ mix s x }
{
    total(s.zip(x, pairs::scale))
}

// x on each phase as the row of signs has it there.
pub fn spread(s: Signs, x: Pair) -> Three
    requires signs_ok { SignsOk s }
    requires within { Within 2100000 x }
    ensures { result ≡ each (λ p. scaled (sign_at s p) x) }
{
    s.map(|k| pairs::scale(k, x))
}

fn kept(on: bool, x: Pair) -> Pair
    ensures { result ≡ cond on x 0c }
{
    if on { x } else { Pair { re: 0, im: 0 } }
}

// x with 0 where a phase is absent.
pub fn keep(f: Phases, x: Three) -> Three
    ensures { result ≡ masked f x }
{
    f.zip(x, kept)
}

// Whether no part of any phase is beyond ±n.
pub fn within(x: Three, n: u64) -> bool
    ensures { result ≡ all (λ p. within n (at x p)) abc }
{
    x.map(|p| pairs::within(p, n)).all()
}

// Whether some part of some phase is beyond ±2,000,000.
pub fn beyond(x: Three) -> bool
    ensures { result ≡ beyond3 x }
{
    !within(x, 2_000_000)
}

// Whether x and y differ by at most n in each part of each phase.
pub fn close(x: Three, y: Three, n: u64) -> bool
    requires within3 { Within3 (2 ^ 61) x }
    requires within3_2 { Within3 (2 ^ 61) y }
    ensures { result ≡ all (λ p. close n (at x p) (at y p)) abc }
{
    x.zip(y, |p, q| pairs::close(p, q, n)).all()
}
