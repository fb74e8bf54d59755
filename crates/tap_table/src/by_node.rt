// The taps of the last table by node number, tested against the phases of their branches.
ghost use Rattle.std.specs.Prelude.{true, ◌≡◌, replicate};
ghost use Rattle.feeder.specs.Feeder.{no_taps};
ghost use Rattle.tap_table.specs.OwnRows.{fits_from, given_taps};

use crate::taps::taps_fit;
use arrays::TapRows;
use feeder::Network;

// The rows stand in the table one behind the other. Whether the taps of each fit the phases of its branch.
pub fn taps_by_node(network: &Network, table: &TapRows, taps: &mut TapRows) -> bool
    requires { taps.old ≡ replicate 201 no_taps }
    ensures fit { result ≡ fits_from network.now.branches table.now 1 network.now.rows }
    ensures held { result ≡ true → taps.new ≡ given_taps network.now.branches table.now network.now.rows }
{
    let mut j = 0;
    for k in 1..network.rows + 1 {
        if network.branches[k].device.regulates() {
            if !taps_fit(network.branches[k].phases, table[j]) {
                return false;
            }
            taps[k] = table[j];
            j += 1;
        }
    }
    true
}
