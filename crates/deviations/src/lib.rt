// Reported voltages against worked ones, along the order of work: refusal 54. specs/Deviations.antt says what that is.
#![tactic(auto)]

ghost use Rattle.std.specs.Prelude.{false, true, ◌≡◌, ℕ, ◌+◌, ◌<◌, get_or};
ghost use Rattle.feeder.specs.Feeder.{Feeder};
ghost use Rattle.equations.specs.Equations.{voltages, zero3};
ghost use Rattle.equations.specs.Sizes.{Within3};
ghost use Rattle.deviations.specs.Deviations.{Comparable, MarksAre, first_marked, first_off};
ghost use Rattle.passes.specs.Passes.{InArrays, Ready};
ghost use Rattle.radial.specs.Radial.{Linked};

use arrays::Threes;
use devices::threes;
use feeder::{NO_THREE, Network};

// The nodes that are off, and those below them: the voltages are worked downward, each from the worked one above it, as far as none is off by more than the tolerance.
fn mark_off(network: &Network, i: &Threes, reported: &Threes) -> [bool; 201]
    requires ready { Ready network.now }
    requires comparable { Comparable network.now.source reported.now network.now.tol }
    requires by_index { (k : ℕ) → 0 < k → k < network.now.rows + 1 → Within3 2000000 (get_or i.now k zero3) }
    ensures value { (f : Feeder) → InArrays f network.now → network.now.source ≡ f.source → MarksAre f network.now.branches network.now.rows i.now reported.now network.now.tol result }
    ensures source { get_or result 0 false ≡ false }
{
    let mut worked = [NO_THREE; 201];
    worked[0] = network.source;
    let mut off = [false; 201];
    for place in 1..network.rows + 1 {
        let m = network.order[place];
        let b = network.branches[m];
        if off[b.from] {
            off[m] = true;
        } else {
            let y = devices::far_voltage(b, worked[b.from], i[m]);
            worked[m] = y;
            off[m] = !threes::close(y, reported[m], network.tol);
        }
    }
    off
}

// The report's line of the first node that is marked and whose parent is not.
fn first_marked(network: &Network, off: [bool; 201]) -> Option<usize>
    requires linked { Linked network.now.branches network.now.rows }
    requires false_value { get_or off 0 false ≡ false }
    ensures { result ≡ first_marked network.now.branches network.now.rows off }
{
    for k in 1..network.rows + 1 {
        if off[k] && !off[network.branches[k].from] {
            return Some(k + 2);
        }
    }
    None
}

// Reported voltages against worked ones, refusal 54: the report's line of the first node that is off by more than the tolerance and is fed through none that is.
pub fn compare_pass(network: &Network, i: &Threes, reported: &Threes) -> Option<usize>
    requires ready { Ready network.now }
    requires comparable { Comparable network.now.source reported.now network.now.tol }
    requires by_index { (k : ℕ) → 0 < k → k < network.now.rows + 1 → Within3 2000000 (get_or i.now k zero3) }
    ensures { (f : Feeder) → InArrays f network.now → network.now.source ≡ f.source → result ≡ first_off f network.now.tol (voltages f i.now) reported.now }
{
    let off = mark_off(network, i, reported);
    first_marked(network, off)
}
