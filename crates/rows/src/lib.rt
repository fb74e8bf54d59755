// The rows of the branch table and of the load table, each read at a place of the file.
#![tactic(auto)]

pub mod branches;
pub mod loads;
pub mod words;
