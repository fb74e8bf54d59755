// The second solver's own work, in floats: phasors, a branch's equations over them and over what they are off by, and the solution. It shares nothing with the
// crates loads and devices.
#![tactic(auto)]

pub mod component;
pub mod phasor;
pub mod solver;
#[cfg(test)]
mod tests;
