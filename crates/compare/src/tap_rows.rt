// The tests of a report's last table, which has a row for each regulator: 51 its names, 56 its taps. The j-th regulator's row is the report's line 2·rows + 9 + j.
ghost use Rattle.std.specs.Prelude.{◌≡◌, ℕ, ◌*◌, ◌+◌, ◌<◌, ◌≤◌, get_or};
ghost use Rattle.compare.specs.Compare.{rests_in, stays_in, tap_name_differs, tap_scan};
ghost use Rattle.compare.specs.Differences.{tap_differs};
ghost use Rattle.equations.specs.Equations.{zero3};
ghost use Rattle.equations.specs.Limits.{DeviceOk};
ghost use Rattle.equations.specs.Sizes.{Within3};
ghost use Rattle.feeder.specs.Feeder.{Feeder, no_branch, row_count};
ghost use Rattle.feeder.specs.Network.{branch_array};
ghost use Rattle.report.specs.Report.{Reported, with_reported};
ghost use Rattle.report_reader.specs.Read.{ReportHeld, ReportRead};

use arrays::Names;
use feeder::Network;
use report_reader::ReportArrays;
use taps::{moved_taps, same_taps};

// The report's line of a regulator's row, behind those of j others.
fn tap_line(rows: usize, j: usize) -> usize
    requires rows_bound { rows ≤ 200 }
    requires j_bound { j ≤ 200 }
    ensures { result ≡ 2 * rows + 9 + (j + 1) }
{
    let first = 2 * rows + 10;
    first + j
}

// ---- 51
// The first regulator whose row has another name than its node. The names stand in the table's order: that of the regulator behind j others at place j.
pub fn first_tap_name(network: &Network, tap_names: &Names) -> Option<usize>
    ensures { result ≡ tap_scan (tap_name_differs network.now.nodes tap_names.now) network.now.branches network.now.rows 1 0 }
{
    let mut j = 0;
    for k in 1..network.rows + 1 {
        if network.branches[k].device.regulates() {
            if tap_names[j] != network.nodes[k] {
                return Some(tap_line(network.rows, j));
            }
            j += 1;
        }
    }
    None
}

// ---- 56
// Whether the regulator that feeds node k would keep its taps at these voltages and currents. A line or a transformer has none to move.
fn rests(own: &Network, k: usize, read: &ReportArrays) -> bool
    requires k_bound { k ≤ 200 }
    requires device_ok { DeviceOk (get_or own.now.branches k no_branch).device }
    requires within3 { Within3 2000000 (get_or read.now.voltages k zero3) }
    requires within3_2 { Within3 2000000 (get_or read.now.currents k zero3) }
    ensures { result ≡ rests_in own.now.branches read.now.voltages read.now.currents k }
{
    let b = own.branches[k];
    let Some(x) = b.device.regulator() else {
        return true;
    };
    let moved = moved_taps(x, b.phases, read.voltages[k], read.currents[k]);
    same_taps(moved, x.taps)
}

// Whether the reported taps of the regulator that feeds node k may stand: those of the feeder where its level is 0, else taps that would not move.
fn stays(network: &Network, own: &Network, k: usize, read: &ReportArrays) -> bool
    requires k_bound { k ≤ 200 }
    requires device_ok { DeviceOk (get_or network.now.branches k no_branch).device }
    requires device_ok_2 { DeviceOk (get_or own.now.branches k no_branch).device }
    requires within3 { Within3 2000000 (get_or read.now.voltages k zero3) }
    requires within3_2 { Within3 2000000 (get_or read.now.currents k zero3) }
    ensures { result ≡ stays_in network.now.branches own.now.branches read.now.voltages read.now.currents k }
{
    if network.branches[k].device.moves_taps() {
        return rests(own, k, read);
    }
    let reported = own.branches[k].device.taps();
    let filed = network.branches[k].device.taps();
    same_taps(reported, filed)
}

// 56: "a tap in the report could still move as wanted, or is not the feeder's where level is 0". `network` is the feeder, `own` the same with the reported taps.
pub fn first_tap_differs(network: &Network, own: &Network, read: &ReportArrays) -> Option<usize>
    requires by_index { (k : ℕ) → 0 < k → k < network.now.rows + 1 → DeviceOk (get_or network.now.branches k no_branch).device }
    requires by_index_2 { (k : ℕ) → 0 < k → k < network.now.rows + 1 → DeviceOk (get_or own.now.branches k no_branch).device }
    requires by_index_3 { (k : ℕ) → 0 < k → k < network.now.rows + 1 → Within3 2000000 (get_or read.now.voltages k zero3) }
    requires by_index_4 { (k : ℕ) → 0 < k → k < network.now.rows + 1 → Within3 2000000 (get_or read.now.currents k zero3) }
    ensures { (f : Feeder) (x : Reported) (t : ReportRead) → network.now.branches ≡ branch_array f → own.now.branches ≡ branch_array (with_reported f x) → network.now.rows ≡ row_count f → ReportHeld (row_count f) x t → read.now.voltages ≡ t.voltages → read.now.currents ≡ t.currents → result ≡ tap_differs f x }
{
    let mut j = 0;
    for k in 1..network.rows + 1 {
        if network.branches[k].device.regulates() {
            if !stays(network, own, k, read) {
                return Some(tap_line(network.rows, j));
            }
            j += 1;
        }
    }
    None
}
