// How many bytes each of the report's tables takes. Apart from the writers of tables.rt, as crate report_lines has its widths apart from its writers.
#![tactic(auto, using(crate::specs::TableLaws::widths), unfolding(crate::specs::Tables::node_line_at, crate::specs::Tables::branch_line_at))]

ghost use Rattle.std.specs.Prelude.{◌≡◌, ◌<◌, ◌≤◌, length};
ghost use Rattle.report_writer.specs.Tables.{branch_line_at, branch_table, Linked, node_line_at, node_table, tap_line_at, tap_table, totals_table};

use arrays::{Pairs, Threes};
use feeder::Network;
use report_lines::Figures;
use report_lines::widths::{branch_width, node_width, tap_row_width, totals_line_width};

pub fn nodes_width(network: &Network, v: &Threes) -> usize
    ensures value { result ≡ length (node_table (node_line_at network.now v.now) network.now.rows) }
    ensures size { result < 1000000 }
{
    let mut width = 42;
    for k in 0..network.rows + 1 {
        width += node_width(network.nodes[k], v[k]);
    }
    width
}

pub fn branches_width(network: &Network, i: &Threes, losses: &Pairs) -> usize
    requires { Linked network.now }
    ensures value { result ≡ length (branch_table (branch_line_at network.now i.now losses.now) network.now.rows) }
    ensures size { result < 1000000 }
{
    let mut width = 59;
    for row in 1..network.rows + 1 {
        let from = network.nodes[network.branches[row].from];
        width += branch_width(from, network.nodes[row], i[row], losses[row]);
    }
    width
}

pub fn totals_width(figures: Figures) -> usize
    ensures value { result ≡ length (totals_table figures) }
    ensures size { result < 1000000 }
{
    56 + totals_line_width(figures)
}

#[tactic(auto, unfolding(crate::specs::Tables::tap_line_at))]
fn tap_line_width(network: &Network, k: usize) -> usize
    requires { k ≤ 200 }
    ensures { result ≡ length (tap_line_at network.now k) }
{
    if network.branches[k].device.regulates() {
        let name = network.nodes[k];
        let taps = network.branches[k].device.taps();
        return tap_row_width(name, taps);
    }
    0
}

pub fn taps_width(network: &Network) -> usize
    ensures value { result ≡ length (tap_table (tap_line_at network.now) network.now.rows) }
    ensures size { result < 1000000 }
{
    let mut width = 21;
    for k in 1..network.rows + 1 {
        width += tap_line_width(network, k);
    }
    width
}
