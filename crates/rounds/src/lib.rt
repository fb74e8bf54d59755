// The rounds of a study: regulators set their taps between them. specs/Rounds.antt says what they come to.
#![tactic(auto)]

ghost use Rattle.std.specs.Prelude.{not, true, ◌≡◌, ◌+◌, ◌<◌, ◌≤◌, ℕ, get_or, replicate, set};
ghost use Rattle.equations.specs.Equations.{zero3};
ghost use Rattle.equations.specs.Limits.{DeviceOk};
ghost use Rattle.equations.specs.Sizes.{Within3};
ghost use Rattle.equations.specs.Taps.{at_rest, moved};
ghost use Rattle.feeder.specs.Feeder.{Feeder, no_branch, row_count, with_taps};
ghost use Rattle.feeder.specs.Network.{Held, branch_array};
ghost use Rattle.iteration.specs.Runs.{SmallRun};
ghost use Rattle.rounds.specs.Moving.{moved_row, rests_row};
ghost use Rattle.rounds.specs.Rounds.{regulated};
ghost use Rattle.rounds.specs.Turns.{RegulatedAs};
ghost use Rattle.sweeps.specs.Retapped.{BranchesAlone};
ghost use Rattle.sweeps.specs.Sweeps.{Known};

use answers::Refusal;
use arrays::Threes;
use feeder::{Branch, NO_THREE, Network, Three};
use iteration::{Run, solve};
use taps::{moved_taps, same_taps};

// A regulator moves its taps by the voltages and the currents at its node; whether any moved. A line or a transformer has none.
fn move_row(b: &mut Branch, u: Three, i: Three) -> bool
    requires device_ok { DeviceOk b.old.device }
    requires within3 { Within3 2000000 u }
    requires within3_2 { Within3 2000000 i }
    ensures any { result ≡ not (rests_row b.old u i) }
    ensures row { b.new ≡ moved_row b.old u i }
{
    let Some(x) = b.device.regulator() else {
        return false;
    };
    let t = moved_taps(x, b.phases, u, i);
    b.set_taps(t);
    !same_taps(t, x.taps)
}

// Each regulator moves its taps by the voltages v and the currents i; whether any moved.
pub fn move_taps(rows: usize, branches: &mut [Branch; 201], v: &Threes, i: &Threes) -> bool
    requires rows_bound { rows ≤ 200 }
    requires by_index { (k : ℕ) → 0 < k → k < rows + 1 → DeviceOk (get_or branches.old k no_branch).device }
    requires by_index_2 { (k : ℕ) → 0 < k → k < rows + 1 → Within3 2000000 (get_or v.now k zero3) }
    requires by_index_3 { (k : ℕ) → 0 < k → k < rows + 1 → Within3 2000000 (get_or i.now k zero3) }
    ensures { (g : Feeder) → branches.old ≡ branch_array g → rows ≡ row_count g → (result ≡ not (at_rest g v.now i.now)) × (branches.new ≡ branch_array (with_taps (moved g v.now i.now) g)) }
{
    let mut changed = false;
    for k in 1..rows + 1 {
        let now = move_row(&mut branches[k], v[k], i[k]);
        changed = now || changed;
    }
    changed
}

// The rounds: a study, then a move of the taps, until none moves, or until the 32nd. The voltages and the currents of each round start from zero: those of the
// first are lent so.
pub fn regulate(network: &mut Network, v: &mut Threes, i: &mut Threes) -> Result<Run, Refusal>
    requires known_2 { Known network.old }
    requires v_value { v.old ≡ replicate 201 zero3 }
    requires i_value { i.old ≡ replicate 201 zero3 }
    ensures value { (f : Feeder) → Held f network.old → RegulatedAs (regulated f) result network.new v.new i.new }
    ensures size { SmallRun network.old.rows result i.new }
    ensures rest { BranchesAlone network.old network.new }
    ensures known { Known network.new }
{
    for _ in 0..32usize {
        let run = solve(network, v, i)?;
        if !move_taps(network.rows, &mut network.branches, v, i) {
            return Ok(run);
        }
        *v = [NO_THREE; 201];
        *i = [NO_THREE; 201];
    }
    Err(Refusal::TapsMoving(32))
}
