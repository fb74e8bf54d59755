// Whole numbers as every layer uses them: rounding division, the whole root, and pairs (re, im).

#![tactic(auto)]

pub mod pairs;
pub mod whole;

// Voltage in cV, current in mA, impedance in µΩ, power in VA or grains.
#[derive(Clone, Copy, PartialEq, Eq)]
pub struct Pair {
    pub re: i64,
    pub im: i64,
}
