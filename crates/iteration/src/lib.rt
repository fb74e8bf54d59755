// The modified ladder iteration over a feeder in memory. specs/Ladder.antt says what it comes to.
#![tactic(auto)]

ghost use Rattle.std.specs.Prelude.{◌≡◌, ℕ, ◌≤◌, get_or, replicate};
ghost use Rattle.arrays.specs.Arrays.{Spare};
ghost use Rattle.equations.specs.Equations.{zero3};
ghost use Rattle.equations.specs.Sizes.{Within3};
ghost use Rattle.feeder.specs.Feeder.{Feeder};
ghost use Rattle.feeder.specs.Network.{Held};
ghost use Rattle.integers.specs.Lists.{all, count};
ghost use Rattle.iteration.specs.Ladder.{solution};
ghost use Rattle.iteration.specs.Runs.{Room, SmallRun, SmallSwept, SolvedAs, SweptIs, still_at};
ghost use Rattle.sweeps.specs.Sweeps.{Known};

use answers::Refusal;
use arrays::{Threes, copy_threes};
use devices::threes;
use feeder::{NO_THREE, Network};
use integers::Pair;
use sweeps::{work_currents, work_voltages};

// The iteration: the number of sweeps made, and the power that the loads draw in the last one.
#[derive(Clone, Copy)]
pub struct Run {
    pub sweeps: usize,
    pub drawn: Pair,
}

// Whether no voltage of a row moved by more than `tol`.
fn still(rows: usize, v: &Threes, w: &Threes, tol: u64) -> bool
    requires rows_bound { rows ≤ 200 }
    requires by_index { (k : ℕ) → Within3 2000000 (get_or v.now k zero3) }
    requires by_index_2 { (k : ℕ) → Within3 2000000 (get_or w.now k zero3) }
    ensures { result ≡ all (still_at tol v.now w.now) (count 1 rows) }
{
    for k in 1..rows + 1 {
        if !threes::close(w[k], v[k], tol) {
            return false;
        }
    }
    true
}

// Sweep k from the voltages v: 30 to 32, then 33, then whether the voltages have settled: no more than the tolerance away from v. Then the power that the loads
// draw is returned, else none, for a further sweep. `next` gets the sweep's voltages, `i` its currents.
fn sweep_once(
    network: &Network,
    v: &Threes,
    k: usize,
    next: &mut Threes,
    i: &mut Threes,
) -> Result<Option<Pair>, Refusal>
    requires known { Known network.now }
    requires by_index { (k : ℕ) → Within3 2000000 (get_or v.now k zero3) }
    requires room { Room network.now.rows next.old }
    requires spare { Spare network.now.rows i.old }
    ensures value { (f : Feeder) → Held f network.now → SweptIs f v.now k result next.new i.new }
    ensures size { SmallSwept network.now.rows result next.new i.new }
{
    let drawn = work_currents(network, v, i).map_err(|e| e.refusal(k))?;
    work_voltages(network, i, next).or(Err(Refusal::VoltageBeyond(k)))?;
    if still(network.rows, v, next, network.tol) {
        Ok(Some(drawn))
    } else {
        Ok(None)
    }
}

// The iteration: V0 with all currents zero, then sweep by sweep to the limit. Where it is solved, `v` holds the voltages before the last sweep and `i` that sweep's
// currents.
pub fn solve(network: &Network, v: &mut Threes, i: &mut Threes) -> Result<Run, Refusal>
    requires known { Known network.now }
    requires room { Room network.now.rows v.old }
    requires i_value { i.old ≡ replicate 201 zero3 }
    ensures value { (f : Feeder) → Held f network.now → SolvedAs f (solution f) result v.new i.new }
    ensures size { SmallRun network.now.rows result i.new }
{
    work_voltages(network, i, v).or(Err(Refusal::VoltageBeyond(0)))?;
    let mut next = [NO_THREE; 201];
    let limit = network.limit;
    for k in 1..limit + 1 {
        let settled = sweep_once(network, v, k, &mut next, i)?;
        if let Some(drawn) = settled {
            return Ok(Run { sweeps: k, drawn });
        }
        copy_threes(&next, network.rows, v);
    }
    Err(Refusal::NotSettled(limit))
}
