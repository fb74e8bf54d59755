// The report's last table, which has a row for each regulator: read back, or the feeder's own taps in its place, and the taps by node number. specs/TapTable.antt says
// what each reader answers.

#![tactic(auto)]

pub mod by_node;
pub mod own;
pub mod taps;
