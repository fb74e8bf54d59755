// The equations of documents 01 and 02 that study and check both stand on. specs/Equations.antt says each of them.
#![tactic(auto)]

use feeder::{PerPhase, Signs};

// A row of signs for each phase.
pub type Matrix = PerPhase<Signs>;

// A transformer connection's A, for voltages, and d, for currents.
#[derive(Clone, Copy)]
pub struct SignTable {
    pub voltage: Matrix,
    pub current: Matrix,
}
