// How far a report may lie from the second solver's solution in floats, and how far it does.
#![tactic(auto)]

pub mod bound;
pub mod compare;
#[cfg(test)]
mod tests;
