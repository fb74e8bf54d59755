// The rows of the last table of a report that is filed without it: the feeder's own names and taps.
ghost use Rattle.std.specs.Prelude.{not, true, ◌≡◌, replicate};
ghost use Rattle.feeder.specs.Feeder.{no_taps};
ghost use Rattle.tap_table.specs.OwnRows.{OwnHeld, levels_from};
ghost use Rattle.tap_table.specs.Regulators.{regulators_from};

use arrays::{Names, TapRows};
use feeder::Network;

// Whether a regulator moves its taps.
fn any_level(network: &Network) -> bool
    ensures { result ≡ levels_from network.now.branches 1 network.now.rows }
{
    (1..network.rows + 1).any(|k| network.branches[k].device.moves_taps())
}

// The names and the taps of all regulators, where none of them moves its taps.
pub fn own_taps(network: &Network, names: &mut Names, taps: &mut TapRows) -> bool
    requires names_value { names.old ≡ replicate 201 0 }
    requires taps_value { taps.old ≡ replicate 201 no_taps }
    ensures level { result ≡ not (levels_from network.now.branches 1 network.now.rows) }
    ensures held { result ≡ true → OwnHeld network.now.nodes network.now.branches (regulators_from network.now.branches 1 network.now.rows) names.new taps.new }
{
    if any_level(network) {
        return false;
    }
    let mut j = 0;
    for k in 1..network.rows + 1 {
        if network.branches[k].device.regulates() {
            names[j] = network.nodes[k];
            taps[j] = network.branches[k].device.taps();
            j += 1;
        }
    }
    true
}
