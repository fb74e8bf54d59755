// The passes over a radial feeder: voltages from the source downward, currents upward to it, and the losses.
// Each goes once along the order of work. specs/Passes.antt says what they require and what they give.
#![tactic(auto)]

ghost use Rattle.std.specs.Prelude.{◌≡◌, ℕ, ◌+◌, ◌<◌, get_or, length, replicate, OnOk};
ghost use Rattle.arrays.specs.Arrays.{Spare};
ghost use Rattle.feeder.specs.Feeder.{Feeder, no_branch};
ghost use Rattle.feeder.specs.Phased.{Three};
ghost use Rattle.equations.specs.Equations.{zero3};
ghost use Rattle.equations.specs.Limits.{DeviceOk};
ghost use Rattle.equations.specs.Sizes.{Within3};
ghost use Rattle.integers.specs.Pairs.{0c};
ghost use Rattle.passes.specs.Passes.{DownwardIs, InArrays, LossesAre, Ready, Sized, SmallLosses, UpwardIs};

use arrays::{Pairs, Threes};
use devices::threes;
use feeder::Network;
use integers::{Pair, pairs};

// Something worked is beyond its limit: a voltage, document 01's refusal 33, or a current, 32.
#[derive(Clone, Copy, PartialEq, Eq)]
pub struct Beyond;

// V at each node from the source downward with the currents `i`, or that a V is beyond its limit: refusal 33. The ranks stand in the promise only.
// Every node is in the order, so what `v` has at the nodes at entry is written over, and it is not cleared first.
pub fn downward_pass(network: &Network, i: &Threes, v: &mut Threes) -> Result<(), Beyond>
    requires ready { Ready network.now }
    requires within3 { Within3 2000000 network.now.source }
    requires by_index { (k : ℕ) → 0 < k → k < network.now.rows + 1 → Within3 2000000 (get_or i.now k zero3) }
    requires spare_2 { Spare network.now.rows v.old }
    requires by_index_2 { (k : ℕ) → Within3 2000000 (get_or v.old k zero3) }
    ensures value { (f : Feeder) → InArrays f network.now → network.now.source ≡ f.source → DownwardIs f i.now result v.new }
    ensures size { Sized 2000000 v.new }
    ensures spare { Spare network.now.rows v.new }
{
    v[0] = network.source;
    for next in 1..network.rows + 1 {
        let m = network.order[next];
        let b = network.branches[m];
        let y = devices::far_voltage(b, v[b.from], i[m]);
        if threes::beyond(y) {
            return Err(Beyond);
        }
        v[m] = y;
    }
    Ok(())
}

// I at each node, all current taken there at the source, or that an I or a J is beyond its limit: refusal 32. At entry `at` has what is taken at each node
// by its loads.
pub fn upward_pass(network: &Network, at: &mut Threes) -> Result<(), Beyond>
    requires ready { Ready network.now }
    requires by_index { (k : ℕ) → Within3 600000000 (get_or at.old k zero3) }
    requires by_index_2 { (k : ℕ) → network.now.rows < k → get_or at.old k zero3 ≡ zero3 }
    requires at_len { length at.old ≡ 201 }
    ensures value { (f : Feeder) (w : ℕ → Three) → InArrays f network.now → ((k : ℕ) → k < network.now.rows + 1 → get_or at.old k zero3 ≡ w k) → UpwardIs f w result at.new }
    ensures size { Sized 1000000000 at.new }
    ensures rows { OnOk result ((k : ℕ) → 0 < k → k < network.now.rows + 1 → Within3 2000000 (get_or at.new k zero3)) }
{
    for next in (1..network.rows + 1).rev() {
        let m = network.order[next];
        let i = at[m];
        if threes::beyond(i) {
            return Err(Beyond);
        }
        let b = network.branches[m];
        let j = devices::near_current(b, i);
        if threes::beyond(j) {
            return Err(Beyond);
        }
        at[b.from] = threes::plus(at[b.from], j);
    }
    Ok(())
}

// The loss of each branch, and their sum. `losses` is all zero at entry, and its place 0 is unused.
// From the last row to the first, so that the sum is made as it is defined.
pub fn loss_pass(network: &Network, i: &Threes, losses: &mut Pairs) -> Pair
    requires by_index { (k : ℕ) → 0 < k → k < network.now.rows + 1 → DeviceOk (get_or network.now.branches k no_branch).device }
    requires by_index_2 { (k : ℕ) → 0 < k → k < network.now.rows + 1 → Within3 2000000 (get_or i.now k zero3) }
    requires losses_value { losses.old ≡ replicate 201 0c }
    ensures value { (f : Feeder) → InArrays f network.now → LossesAre f i.now losses.new result }
    ensures size { SmallLosses losses.new result }
{
    let mut sum = Pair { re: 0, im: 0 };
    for row in (1..network.rows + 1).rev() {
        let b = network.branches[row];
        let e = devices::loss(b.device, i[row]);
        losses[row] = e;
        sum = pairs::add(e, sum);
    }
    sum
}
