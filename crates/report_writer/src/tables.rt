// Writers of the report's tables. A table is written from the start of the buffer that it is lent.
#![tactic(auto, using(crate::specs::TableLaws::widths))]

ghost use Rattle.std.specs.Prelude.{◌+◌, ◌<◌, ◌≤◌, length};
ghost use Rattle.report_writer.specs.Tables.{branch_line_at, branch_table, Linked, node_line_at, node_table, tap_line_at, tap_table, totals_table};
ghost use Rattle.text.specs.Promises.{Written};

use arrays::{Pairs, Threes};
use feeder::Network;
use report_lines::Figures;
use report_lines::lines::{put_branch, put_node, put_tap_row, put_totals_line};
use text::write::{put_byte, put_bytes};

// All of them write by hand, as nothing is on the heap and each byte of the buffer is promised: Display and write! promise no bytes of a buffer that is lent.
// A line takes the whole buffer and the place `at`, as in crate report_lines: a slice that is cut at each line would have to be put together again in the
// promise of the table.

// The column names, a line for each node, and an empty line.
pub fn put_nodes(out: &mut [u8], network: &Network, v: &Threes) -> usize
    requires { length (node_table (node_line_at network.now v.now) network.now.rows) ≤ length out.old }
    ensures { Written out.old 0 (node_table (node_line_at network.now v.now) network.now.rows) result out.new }
{
    let mut at = put_bytes(out, 0, b"node,va_re,va_im,vb_re,vb_im,vc_re,vc_im\n");
    for k in 0..network.rows + 1 {
        at = put_node(out, at, network.nodes[k], v[k]);
    }
    put_byte(out, at, b'\n')
}

// The column names, a line for each branch row, and an empty line.
pub fn put_branches(out: &mut [u8], network: &Network, i: &Threes, losses: &Pairs) -> usize
    requires linked { Linked network.now }
    requires rows_in_bounds { length (branch_table (branch_line_at network.now i.now losses.now) network.now.rows) ≤ length out.old }
    ensures { Written out.old 0 (branch_table (branch_line_at network.now i.now losses.now) network.now.rows) result out.new }
{
    let mut at = put_bytes(
        out,
        0,
        b"from,to,ia_re,ia_im,ib_re,ib_im,ic_re,ic_im,loss_p,loss_q\n",
    );
    for row in 1..network.rows + 1 {
        let from = network.nodes[network.branches[row].from];
        at = put_branch(out, at, from, network.nodes[row], i[row], losses[row]);
    }
    put_byte(out, at, b'\n')
}

// The column names, one line, and an empty line.
pub fn put_totals(out: &mut [u8], figures: Figures) -> usize
    requires { length (totals_table figures) ≤ length out.old }
    ensures { Written out.old 0 (totals_table figures) result out.new }
{
    let at = put_bytes(
        out,
        0,
        b"sweeps,source_p,source_q,drawn_p,drawn_q,lost_p,lost_q\n",
    );
    let end = put_totals_line(out, at, figures);
    put_byte(out, end, b'\n')
}

// The line of branch row k in the last table: none where it is no regulator's.
#[tactic(auto, using(crate::specs::Left::written_none), unfolding(crate::specs::Tables::tap_line_at))]
fn put_tap_line(out: &mut [u8], at: usize, network: &Network, k: usize) -> usize
    requires k_bound { k ≤ 200 }
    requires k_in_bounds { at + length (tap_line_at network.now k) ≤ length out.old }
    ensures { Written out.old at (tap_line_at network.now k) result out.new }
{
    if network.branches[k].device.regulates() {
        let name = network.nodes[k];
        let taps = network.branches[k].device.taps();
        return put_tap_row(out, at, name, taps);
    }
    at
}

// The column names, and a line for each regulator.
pub fn put_taps_table(out: &mut [u8], network: &Network) -> usize
    requires { length (tap_table (tap_line_at network.now) network.now.rows) ≤ length out.old }
    ensures { Written out.old 0 (tap_table (tap_line_at network.now) network.now.rows) result out.new }
{
    let mut at = put_bytes(out, 0, b"to,tap_a,tap_b,tap_c\n");
    for k in 1..network.rows + 1 {
        at = put_tap_line(out, at, network, k);
    }
    at
}
