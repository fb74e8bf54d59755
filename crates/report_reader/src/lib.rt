// The report's text read back (50). specs/Read.antt says what each reader answers.
#![tactic(auto)]

ghost use Rattle.std.specs.Prelude.{◌≡◌, ◌&&◌, ◌≤◌, pos};
ghost use Rattle.feeder.specs.Feeder.{Feeder, between, row_count};
ghost use Rattle.report.specs.Report.{Reported, report_of};
ghost use Rattle.text.specs.Lines.{nth};
ghost use Rattle.report_reader.specs.Read.{FeederShown, ReportIs, TapsHeld, Unread, no_report, report_read};

use crate::last::read_taps;
use arrays::{Names, Pairs, TapRows, Threes};
use feeder::{NO_TAPS, NO_THREE, Network};
use integers::{Pair, whole};
use report_tables::rows::read_table;
use report_tables::totals::{Totals, read_totals};

pub mod last;

// The arrays that a report is read into: by node number its names and voltages, and by branch row its names, currents and losses. The totals are their row's
// numbers. The names of the last table stand in its order, and its taps by node number.
#[derive(Clone, Copy)]
pub struct ReportArrays {
    pub node_names: Names,
    pub voltages: Threes,
    pub from_names: Names,
    pub to_names: Names,
    pub currents: Threes,
    pub losses: Pairs,
    pub totals: Totals,
    pub tap_names: Names,
    pub taps: TapRows,
}

impl ReportArrays {
    // With nothing read.
    pub fn empty() -> ReportArrays
        ensures { result ≡ no_report }
    {
        ReportArrays {
            node_names: [0; 201],
            voltages: [NO_THREE; 201],
            from_names: [0; 201],
            to_names: [0; 201],
            currents: [NO_THREE; 201],
            losses: [Pair { re: 0, im: 0 }; 201],
            totals: [0; 7],
            tap_names: [0; 201],
            taps: [NO_TAPS; 201],
        }
    }
}

// Whether the number of sweeps is 1 to the limit.
fn sweeps_in(sweeps: i64, limit: usize) -> bool
    requires { limit ≤ 100 }
    ensures { result ≡ between (pos 1) (pos limit) sweeps }
{
    let most = whole::signed(limit as u64);
    1 <= sweeps && sweeps <= most
}

// The tests behind the reading: voltages, currents, and the first of the totals, the sweeps.
fn accepted(nodes: bool, branches: bool, totals: &Totals, limit: usize) -> bool
    requires { limit ≤ 100 }
    ensures { result ≡ (nodes && (branches && between (pos 1) (pos limit) (nth totals.now 1))) }
{
    nodes && branches && sweeps_in(totals[0], limit)
}

// The report of a feeder with these nodes and branches and that limit of sweeps, where this answers true. It may have any length and any bytes.
pub fn read_report(report: &[u8], network: &Network, read: &mut ReportArrays) -> bool
    requires limit_bound { network.now.limit ≤ 100 }
    requires unread { Unread read.old }
    ensures held { (f : Feeder) → FeederShown f network.now network.now.limit → ReportIs (row_count f) (report_of f report.now) (report_read result read.new) }
    ensures taps { (f : Feeder) (x : Reported) → FeederShown f network.now network.now.limit → report_of f report.now ≡ Ok x → TapsHeld f x read.new.taps }
{
    let Some(node_table) = read_table(
        report,
        b"node,va_re,va_im,vb_re,vb_im,vc_re,vc_im\n",
        network.rows + 1,
        false,
        &mut read.node_names,
        &mut read.to_names,
        &mut read.voltages,
        &mut read.losses,
    ) else {
        return false;
    };
    let p = node_table.next;
    let Some(branch_table) = read_table(
        &report[p..],
        b"from,to,ia_re,ia_im,ib_re,ib_im,ic_re,ic_im,loss_p,loss_q\n",
        network.rows,
        true,
        &mut read.from_names,
        &mut read.to_names,
        &mut read.currents,
        &mut read.losses,
    ) else {
        return false;
    };
    let q = p + branch_table.next;
    let rest = &report[q..];
    let Some(last) = read_totals(rest) else {
        return false;
    };
    let totals = last.0;
    read.totals = totals;
    if !read_taps(rest, last.1, network, &mut read.tap_names, &mut read.taps) {
        return false;
    }
    accepted(
        node_table.inside,
        branch_table.inside,
        &totals,
        network.limit,
    )
}
