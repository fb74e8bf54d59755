// The report's text written into a buffer. specs/Tables.antt says it over the arrays, and specs/ReportIs.antt that this is the report's text.
#![tactic(auto)]

ghost use Rattle.std.specs.Prelude.{List, ◌++◌, ◌≡◌, ◌≤◌, drop, length};
ghost use Rattle.feeder.specs.Feeder.{Feeder};
ghost use Rattle.feeder.specs.Phased.{Three};
ghost use Rattle.report.specs.Report.{report_text};
ghost use Rattle.report_writer.specs.ReportIs.{Shown};
ghost use Rattle.report_writer.specs.Tables.{Linked, whole_text};
ghost use Rattle.text.specs.Promises.{Written};

use arrays::{Pairs, Threes};
use feeder::Network;
use report_lines::Figures;
use tables::{put_branches, put_nodes, put_taps_table, put_totals};
use widths::{branches_width, nodes_width, taps_width, totals_width};

mod tables;
mod widths;

// How many bytes the report takes. At place k of the arrays stands what belongs to node k, or to the branch that feeds it.
pub fn report_width(
    network: &Network,
    v: &Threes,
    i: &Threes,
    losses: &Pairs,
    figures: Figures,
) -> usize
    requires { Linked network.now }
    ensures value { result ≡ length (whole_text network.now v.now i.now losses.now figures) }
    ensures report { (f : Feeder) (vs is : List Three) → Shown f vs is network.now v.now i.now losses.now figures
        → result ≡ length (report_text f vs is figures.sweeps) }
{
    let first = nodes_width(network, v);
    let second = branches_width(network, i, losses);
    let third = totals_width(figures);
    let fourth = taps_width(network);
    first + second + third + fourth
}

// Written by hand, as nothing is on the heap and each byte of `out` is promised: Display and write! promise no bytes of a buffer that is lent.
//
// The report, from the start of `out`. Each table is written into the part of the buffer that starts where the table before it ended.
pub fn put_report(
    out: &mut [u8],
    network: &Network,
    v: &Threes,
    i: &Threes,
    losses: &Pairs,
    figures: Figures,
) -> usize
    requires linked { Linked network.now }
    requires figures_in_bounds { length (whole_text network.now v.now i.now losses.now figures) ≤ length out.old }
    ensures value { Written out.old 0 (whole_text network.now v.now i.now losses.now figures) result out.new }
    ensures report { (f : Feeder) (vs is : List Three) → Shown f vs is network.now v.now i.now losses.now figures
        → (result ≡ length (report_text f vs is figures.sweeps))
        × (out.new ≡ report_text f vs is figures.sweeps ++ drop (length (report_text f vs is figures.sweeps)) out.old) }
{
    let first = put_nodes(out, network, v);
    let second = put_branches(&mut out[first..], network, i, losses);
    let middle = first + second;
    let third = put_totals(&mut out[middle..], figures);
    let last = middle + third;
    let fourth = put_taps_table(&mut out[last..], network);
    last + fourth
}
