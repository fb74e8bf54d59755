// The two halves of a sweep over a feeder in memory: currents from voltages, and voltages from currents. The study and the check share them.
#![tactic(auto)]

ghost use Rattle.std.specs.Prelude.{◌≡◌, ℕ, ◌+◌, ◌<◌, get_or, OnOk};
ghost use Rattle.arrays.specs.Arrays.{Spare};
ghost use Rattle.feeder.specs.Feeder.{Feeder};
ghost use Rattle.feeder.specs.Network.{Held};
ghost use Rattle.equations.specs.Equations.{zero3};
ghost use Rattle.equations.specs.Sizes.{Within3};
ghost use Rattle.passes.specs.Passes.{DownwardIs, Sized};
ghost use Rattle.sweeps.specs.Sweeps.{Known, SmallWork, WorkedIs, refusal_of, work_error};
ghost use Rattle.sweeps.specs.declared.WorkError.TheVariants.{CurrentBeyond};

use answers::Refusal;
use arrays::{Threes, clear_threes};
use draws::draw;
use feeder::Network;
use integers::Pair;
use loads::LoadError;
use passes::{Beyond, downward_pass, upward_pass};

// Why no currents were found: which of document 01's refusals 30, 31 and 32 holds. An error enum, the Err of a Result, and not of the shape of Option.
#[derive(Clone, Copy, PartialEq, Eq)]
pub enum WorkError {
    ZeroVoltage,
    LoadBeyond,
    CurrentBeyond,
}

impl From<LoadError> for WorkError {
    ghost from_gives = { λ e x. x ≡ work_error e };

    fn from(e: LoadError) -> WorkError {
        match e {
            LoadError::ZeroVoltage => WorkError::ZeroVoltage,
            LoadError::Beyond => WorkError::LoadBeyond,
        }
    }
}

impl From<Beyond> for WorkError {
    ghost from_gives = { λ e x. x ≡ CurrentBeyond };

    fn from(_: Beyond) -> WorkError {
        WorkError::CurrentBeyond
    }
}

impl WorkError {
    // The refusal, with the sweep in which it holds.
    pub fn refusal(self, sweep: usize) -> Refusal
        ensures { result ≡ refusal_of self sweep }
    {
        match self {
            WorkError::ZeroVoltage => Refusal::ZeroVoltage(sweep),
            WorkError::LoadBeyond => Refusal::LoadBeyond(sweep),
            WorkError::CurrentBeyond => Refusal::CurrentBeyond(sweep),
        }
    }
}

// The currents from the voltages v: what the loads draw, then upward to the source. The power drawn by the loads is returned, and `i` becomes the current at each
// node, all current taken there at the source. At entry `i` may hold anything at the nodes, and only these places are cleared.
pub fn work_currents(network: &Network, v: &Threes, i: &mut Threes) -> Result<Pair, WorkError>
    requires known { Known network.now }
    requires by_index { (k : ℕ) → Within3 2000000 (get_or v.now k zero3) }
    requires spare_2 { Spare network.now.rows i.old }
    ensures value { (f : Feeder) → Held f network.now → WorkedIs f v.now result i.new }
    ensures size { SmallWork network.now.rows result i.new }
    ensures spare { OnOk result (Spare network.now.rows i.new) }
{
    clear_threes(i, network.rows);
    let drawn = draw(network, v, i)?;
    upward_pass(network, i)?;
    Ok(drawn)
}

// The voltages from the source downward with the currents i, or that one is beyond its limit: refusal 33.
pub fn work_voltages(network: &Network, i: &Threes, v: &mut Threes) -> Result<(), Beyond>
    requires known { Known network.now }
    requires by_index { (k : ℕ) → 0 < k → k < network.now.rows + 1 → Within3 2000000 (get_or i.now k zero3) }
    requires spare_2 { Spare network.now.rows v.old }
    requires by_index_2 { (k : ℕ) → Within3 2000000 (get_or v.old k zero3) }
    ensures value { (f : Feeder) → Held f network.now → DownwardIs f i.now result v.new }
    ensures size { Sized 2000000 v.new }
    ensures spare { Spare network.now.rows v.new }
{
    downward_pass(network, i, v)
}
