// The second solver's numbers: 64-bit floats, and phasors (re, im) of them.
ghost use Rattle.std.specs.Float.Ieee.{add, binary64, eq, mul};
ghost use Rattle.std.specs.Prelude.{T, ◌≡◌};

use feeder::{PerPhase, Phases};
use integers::Pair;
use std::ops::{Add, Mul, Neg, Sub};

// A voltage in cV, a current in mA, an impedance in µΩ, or a power in VA.
#[derive(Clone, Copy)]
pub struct Phasor {
    pub re: f64,
    pub im: f64,
}

pub const ZERO: Phasor = Phasor { re: 0.0, im: 0.0 };

// Every number of a feeder or of a report is far below 2^53, so nothing is lost.
pub fn real(n: i64) -> f64 {
    std::num::nearest_i64_to_f64(n)
}

impl From<Pair> for Phasor {
    fn from(x: Pair) -> Phasor {
        Phasor {
            re: real(x.re),
            im: real(x.im),
        }
    }
}

impl Add for Phasor {
    type Output = Phasor;

    fn add(self, y: Phasor) -> Phasor {
        Phasor {
            re: self.re + y.re,
            im: self.im + y.im,
        }
    }
}

impl Sub for Phasor {
    type Output = Phasor;

    fn sub(self, y: Phasor) -> Phasor {
        Phasor {
            re: self.re - y.re,
            im: self.im - y.im,
        }
    }
}

impl Neg for Phasor {
    type Output = Phasor;

    fn neg(self) -> Phasor {
        Phasor {
            re: -self.re,
            im: -self.im,
        }
    }
}

impl Mul for Phasor {
    type Output = Phasor;

    fn mul(self, y: Phasor) -> Phasor {
        Phasor {
            re: self.re * y.re - self.im * y.im,
            im: self.re * y.im + self.im * y.re,
        }
    }
}

impl Mul<f64> for Phasor {
    type Output = Phasor;

    fn mul(self, k: f64) -> Phasor {
        Phasor {
            re: self.re * k,
            im: self.im * k,
        }
    }
}

impl Phasor {
    // A length, which stands in re.
    pub fn of_length(x: f64) -> Phasor {
        Phasor { re: x, im: 0.0 }
    }

    pub fn conj(self) -> Phasor {
        Phasor {
            re: self.re,
            im: -self.im,
        }
    }

    // The square of the length.
    pub fn square(self) -> f64
        ensures { result ≡ add binary64 (mul binary64 self.re self.re) (mul binary64 self.im self.im) }
    {
        self.re * self.re + self.im * self.im
    }

    pub fn length(self) -> f64
        ensures { T (eq (add binary64 (mul binary64 self.re self.re) (mul binary64 self.im self.im)) NONE) → result ≡ LEAST }
    {
        root(self.square())
    }

    // The larger of the distances in re and in im.
    pub fn distance(self, y: Phasor) -> f64 {
        larger((self.re - y.re).abs(), (self.im - y.im).abs())
    }
}

// 0, by a name that a clause can cite.
const NONE: f64 = 0.0;

// The root of 0: 2^-100.
const LEAST: f64 = 7.888609052210118e-31;

// The square root, as 100 of Newton's steps from x + 1 give it. From 10^-50 to 10^50 they came to the number that one step from std's root gives, in all that was
// tried. Of what is far smaller or far larger they do not come to the root and give too much, and never less than of 0. So a load of constant current draws none
// at no voltage: divided by a length of 0, its current would be no number, and no sweep would stand still.
pub fn root(x: f64) -> f64
    ensures { T (eq x NONE) → result ≡ LEAST }
{
    if x == NONE {
        return LEAST;
    }
    let near = 1e-50 < x && x < 1e50;
    let (mut y, steps) = if near { (x.sqrt(), 1) } else { (x + 1.0, 100) };
    for _ in 0..steps {
        y = (y + x / y) / 2.0;
    }
    y
}

// The larger of the two. Where one of them is no number, by a division by 0, neither is the answer, where f64's max would pass over it.
pub fn larger(x: f64, y: f64) -> f64 {
    if y <= x {
        return x;
    }
    if x <= y {
        return y;
    }
    x + y
}

pub type Phasors = PerPhase<Phasor>;

pub type Reals = PerPhase<f64>;

// Phasors for each node, or for the branch that feeds it.
pub type PhasorRows = [Phasors; 201];

pub fn no_rows() -> PhasorRows {
    [PerPhase::same(ZERO); 201]
}

// The voltages at each node and the currents at the far end of each branch, by node numbers as in the feeder's arrays; or how far they are off.
#[derive(Drop)]
pub struct Solution {
    pub voltages: PhasorRows,
    pub currents: PhasorRows,
}

impl Solution {
    pub fn zero() -> Solution {
        Solution {
            voltages: no_rows(),
            currents: no_rows(),
        }
    }
}

// 1 for a phase that is there, and 0 for one that is not.
pub fn present(phases: Phases) -> Reals {
    phases.map(|there| if there { 1.0 } else { 0.0 })
}
