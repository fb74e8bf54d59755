// The tests of a report against its feeder that work no voltage, over their arrays: 51 names, 52 source voltages and absent phases,
// 53 currents, 55 losses and totals, 56 taps. specs/Differences.antt has each test, specs/Compare.antt the same over arrays.
#![tactic(auto)]

ghost use Rattle.std.specs.Prelude.{◌≡◌, cond, true, List, ◌∷◌, map, ℕ, ◌+◌, ◌<◌, ◌≤◌};
ghost use Rattle.integers.specs.Lists.{all, count};
ghost use Rattle.integers.specs.Pairs.{0c, same};
ghost use Rattle.feeder.specs.Feeder.{Feeder, row_count, rows_of};
ghost use Rattle.feeder.specs.Network.{Held, kept};
ghost use Rattle.feeder.specs.declared.Network.{Network};
ghost use Rattle.feeder.specs.Phased.{Three};
ghost use Rattle.equations.specs.Equations.{drawn_power, loss_of, lost_power, source_power, zero3};
ghost use Rattle.report.specs.Report.{Reported};
ghost use Rattle.report_reader.specs.Read.{ReportHeld, ReportRead};
ghost use Rattle.compare.specs.Differences.{current_differs, name_differs, source_differs, total_differs};
ghost use Rattle.compare.specs.Compare.{FromNodes, absent_differs, absent_zero, losses_same, names_differ, node_name_differs, node_scan, row_scan, three_differs};

use crate::tap_rows::first_tap_name;
use arrays::{Names, Pairs, Threes};
use feeder::{Network, Phases, Three, pair_at};
use integers::Pair;
use report_reader::ReportArrays;

pub mod tap_rows;

// ---- 51
// The first node row with another name than the feeder's.
fn first_node_name(network: &Network, names: &Names) -> Option<usize>
    ensures { result ≡ node_scan (node_name_differs network.now.nodes names.now) network.now.rows }
{
    for k in 0..network.rows + 1 {
        if names[k] != network.nodes[k] {
            return Some(k + 2);
        }
    }
    None
}

// The first branch row with another from-name or to-name than the feeder's.
fn first_branch_name(network: &Network, froms: &Names, tos: &Names) -> Option<usize>
    requires { FromNodes network.now.branches network.now.rows }
    ensures { result ≡ row_scan (names_differ network.now.nodes network.now.branches froms.now tos.now) network.now.rows }
{
    for k in 1..network.rows + 1 {
        let from = network.branches[k].from;
        if froms[k] != network.nodes[from] || tos[k] != network.nodes[k] {
            return Some(network.rows + 4 + k);
        }
    }
    None
}

// 51: "names and row order are the feeder's".
pub fn first_name_differs(network: &Network, read: &ReportArrays) -> Option<usize>
    requires { FromNodes network.now.branches network.now.rows }
    ensures { (f : Feeder) (g : Network) (x : Reported) (t : ReportRead) → Held f g → ReportHeld (row_count f) x t → network.now.rows ≡ g.rows → network.now.nodes ≡ g.nodes → network.now.branches ≡ g.branches → read.now.node_names ≡ t.node_names → read.now.from_names ≡ t.from_names → read.now.to_names ≡ t.to_names → read.now.tap_names ≡ t.tap_names → result ≡ name_differs f x }
{
    first_node_name(network, &read.node_names)
        .or(first_branch_name(network, &read.from_names, &read.to_names))
        .or(first_tap_name(network, &read.tap_names))
}

// ---- 52
// Nothing on a phase that is not there.
fn zero_unless(on: bool, x: Pair) -> bool
    ensures { result ≡ cond on true (same x 0c) }
{
    on || x == Pair { re: 0, im: 0 }
}

fn absent_zero(phases: Phases, x: Three) -> bool
    ensures { result ≡ absent_zero phases x }
{
    phases.zip(x, zero_unless).all()
}

// The first node row with a voltage on an absent phase. The source has all phases.
fn first_absent(network: &Network, voltages: &Threes) -> Option<usize>
    ensures { result ≡ node_scan (absent_differs network.now.branches voltages.now) network.now.rows }
{
    for k in 1..network.rows + 1 {
        if !absent_zero(network.branches[k].phases, voltages[k]) {
            return Some(k + 2);
        }
    }
    None
}

// 52: "source voltages are equal and absent phases 0".
pub fn first_source_differs(network: &Network, voltages: &Threes) -> Option<usize>
    ensures { (f : Feeder) (g : Network) (x : Reported) (t : ReportRead) → Held f g → ReportHeld (row_count f) x t → network.now.source ≡ g.source → network.now.rows ≡ g.rows → network.now.branches ≡ g.branches → voltages.now ≡ t.voltages → result ≡ source_differs f x }
{
    if voltages[0] != network.source {
        return Some(2);
    }
    first_absent(network, voltages)
}

// ---- 53
// The first branch row with another current than the worked one.
fn first_three_differs(rows: usize, reported: &Threes, worked: &Threes) -> Option<usize>
    requires { rows ≤ 200 }
    ensures { result ≡ row_scan (three_differs reported.now worked.now) rows }
{
    for k in 1..rows + 1 {
        if reported[k] != worked[k] {
            return Some(rows + 4 + k);
        }
    }
    None
}

// 53: "every reported I follows from load currents at the reported V".
pub fn first_current_differs(rows: usize, reported: &Threes, worked: &Threes) -> Option<usize>
    requires { rows ≤ 200 }
    ensures { (f : Feeder) (x : Reported) (t : ReportRead) (i : List Three) → ReportHeld (row_count f) x t → rows ≡ row_count f → reported.now ≡ t.currents → worked.now ≡ kept zero3 201 i → result ≡ current_differs f x i }
{
    first_three_differs(rows, reported, worked)
}

// ---- 55
// Whether each row's loss is the worked one.
fn losses_same(rows: usize, losses: &Pairs, worked: &Pairs) -> bool
    requires { rows ≤ 200 }
    ensures { result ≡ all (losses_same losses.now worked.now) (count 1 rows) }
{
    for k in 1..rows + 1 {
        if losses[k] != worked[k] {
            return false;
        }
    }
    true
}

// The totals: the power sent by the source, drawn by the loads, and lost.
#[derive(Clone, Copy, PartialEq, Eq)]
pub struct Powers {
    pub source: Pair,
    pub drawn: Pair,
    pub lost: Pair,
}

// 55: "losses and totals are equal". The totals' first number is the sweeps.
pub fn totals_differ(rows: usize, read: &ReportArrays, worked: &Pairs, powers: Powers) -> bool
    requires { rows ≤ 200 }
    ensures { (f : Feeder) (x : Reported) (t : ReportRead) (v i : List Three) → ReportHeld (row_count f) x t → rows ≡ row_count f → read.now.losses ≡ t.losses → worked.now ≡ kept 0c 201 (0c ∷ map (loss_of f i) (rows_of f)) → read.now.totals ≡ t.totals → powers.source ≡ source_power f i → powers.drawn ≡ drawn_power f v → powers.lost ≡ lost_power f i → result ≡ total_differs f x v i }
{
    if !losses_same(rows, &read.losses, worked) {
        return true;
    }
    let told = Powers {
        source: pair_at(&read.totals, 2),
        drawn: pair_at(&read.totals, 4),
        lost: pair_at(&read.totals, 6),
    };
    told != powers
}
