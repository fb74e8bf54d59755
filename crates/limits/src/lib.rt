// Refusals 11 and 24 of documents 01 and 02 over rows that are read: a number out of its limit, and one that is not 0 where 0 is due.
#![tactic(auto)]

ghost use Rattle.std.specs.Prelude.{◌&&◌, cond, List, ◌≡◌, ◌+◌, ◌≤◌, neg_ℤ, pos, length, take};
ghost use Rattle.std.specs.Int.{w64};
ghost use Rattle.std.proofs.Common.{SFits};
ghost use Rattle.feeder.specs.Feeder.{between, branch_in, first_branch, first_row, load_in, not_zero, out_of_limit, source_in, vn_most, zeros};
ghost use Rattle.feeder.specs.Layout.{Rows};
ghost use Rattle.feeder.specs.Network.{Tabled, kept, no_branch_row, no_load_row};
ghost use Rattle.feeder.specs.declared.Kind.TheVariants.{L, R, Y};
ghost use Rattle.feeder.specs.declared.LoadRow.{LoadRow};
ghost use Rattle.integers.specs.Lists.{all};
ghost use Rattle.integers.specs.Pairs.{inside};
ghost use Rattle.limits.specs.Columns.{all_between, all_zero, zero_unless};
ghost use Rattle.limits.specs.FirstRow.{branch_out, load_out};

use feeder::{BranchRow, Kind, LoadRow, Phases, Tables, Terminals};
use integers::{pairs, whole};

fn between(lo: i64, hi: i64, z: i64) -> bool
    ensures { result ≡ between lo hi z }
{
    lo <= z && z <= hi
}

// Whether p_first to p_last of a row are each at least lo and at most hi.
fn all_between(p: &[i64; 12], first: usize, last: usize, lo: i64, hi: i64) -> bool
    requires { (1 ≤ first) × (last ≤ 12) }
    ensures { result ≡ all_between lo hi p.now first last }
{
    for j in first..last + 1 {
        if !between(lo, hi, p[j - 1]) {
            return false;
        }
    }
    true
}

fn impedances_in(p: &[i64; 12], first: usize, last: usize) -> bool
    requires { (1 ≤ first) × (last ≤ 12) }
    ensures { result ≡ all_between (neg_ℤ (pos 100000000)) (pos 100000000) p.now first last }
{
    all_between(p, first, last, -100_000_000, 100_000_000)
}

// In two parts of six columns.
#[tactic(auto, using(crate::specs::Columns::line_in))]
fn line_in(p: &[i64; 12]) -> bool
    ensures { result ≡ branch_in L p.now }
{
    impedances_in(p, 1, 6) && impedances_in(p, 7, 12)
}

// A relay's bandwidth, ratios and impedance.
fn relay_in(p: &[i64; 12]) -> bool
    ensures { result ≡ (all_between (pos 0) (pos 20000) p.now 5 5 && (all_between (pos 1) (pos 10000) p.now 6 7 && all_between (neg_ℤ (pos 100000000)) (pos 100000000) p.now 8 9)) }
{
    all_between(p, 5, 5, 0, 20_000) && all_between(p, 6, 7, 1, 10_000) && impedances_in(p, 8, 9)
}

// Taps and level; where the level is not 0, bandwidth, ratios and impedance.
#[tactic(auto, using(crate::specs::Columns::regulator_in))]
fn regulator_in(p: &[i64; 12]) -> bool
    ensures { result ≡ branch_in R p.now }
{
    all_between(p, 1, 3, -16, 16)
        && all_between(p, 4, 4, 0, 20_000)
        && (all_zero(p, 4, 4) || relay_in(p))
}

// Turns, then impedances. D has the columns of Y.
#[tactic(auto, using(crate::specs::Columns::transformer_in))]
fn transformer_in(p: &[i64; 12]) -> bool
    ensures { result ≡ branch_in Y p.now }
{
    all_between(p, 1, 2, 1, 1_000_000) && impedances_in(p, 3, 8)
}

// Whether p1 to p12 of a row are in their limits.
#[tactic(auto, unfolding(feeder::specs::Feeder::branch_in, feeder::specs::Feeder::column_of))]
fn branch_in(b: &BranchRow) -> bool
    ensures { result ≡ branch_in b.now.kind b.now.p }
{
    match b.kind {
        Kind::L => line_in(&b.p),
        Kind::R => regulator_in(&b.p),
        Kind::Y | Kind::D => transformer_in(&b.p),
    }
}

#[tactic(auto, using(crate::specs::Columns::zero_between))]
fn all_zero(p: &[i64; 12], first: usize, last: usize) -> bool
    requires { (1 ≤ first) × (last ≤ 12) }
    ensures { result ≡ all_zero p.now first last }
{
    all_between(p, first, last, 0, 0)
}

// Whether p_first to p_last of a row are 0, or the row has both of the phases that they belong to.
fn zero_unless(x: bool, y: bool, p: &[i64; 12], first: usize, last: usize) -> bool
    requires { (1 ≤ first) × (last ≤ 12) }
    ensures { result ≡ zero_unless x y p.now first last }
{
    x && y || all_zero(p, first, last)
}

// aa, ab, ac, bb, bc, cc, two columns each.
#[tactic(auto, using(crate::specs::Columns::line_zeros))]
fn line_zeros(f: Phases, p: &[i64; 12]) -> bool
    ensures { result ≡ zeros L f p.now }
{
    zero_unless(f.a, f.a, p, 1, 2)
        && zero_unless(f.a, f.b, p, 3, 4)
        && zero_unless(f.a, f.c, p, 5, 6)
        && zero_unless(f.b, f.b, p, 7, 8)
        && zero_unless(f.b, f.c, p, 9, 10)
        && zero_unless(f.c, f.c, p, 11, 12)
}

// The relay's columns where the level is 0, and the columns behind them otherwise.
fn unused_zero(p: &[i64; 12]) -> bool
    ensures { result ≡ cond (all_zero p.now 4 4) (all_zero p.now 5 12) (all_zero p.now 10 12) }
{
    if all_zero(p, 4, 4) {
        all_zero(p, 5, 12)
    } else {
        all_zero(p, 10, 12)
    }
}

// Three taps, and what the level leaves unused.
#[tactic(auto, using(crate::specs::Columns::regulator_zeros))]
fn regulator_zeros(f: Phases, p: &[i64; 12]) -> bool
    ensures { result ≡ zeros R f p.now }
{
    zero_unless(f.a, f.a, p, 1, 1)
        && zero_unless(f.b, f.b, p, 2, 2)
        && zero_unless(f.c, f.c, p, 3, 3)
        && unused_zero(p)
}

// Whether those of p1 to p12 of a row that are due 0 are 0.
fn zeros_hold(b: &BranchRow) -> bool
    ensures { result ≡ zeros b.now.kind b.now.phases b.now.p }
{
    match b.kind {
        Kind::L => line_zeros(b.phases, &b.p),
        Kind::R => regulator_zeros(b.phases, &b.p),
        Kind::Y | Kind::D => all_zero(&b.p, 9, 12),
    }
}

fn voltages_in(given: &[i64; 8]) -> bool
    ensures { result ≡ all (inside 2000000) (take 6 given.now) }
{
    for j in 1..7 {
        if !whole::inside(given[j - 1], 2_000_000) {
            return false;
        }
    }
    true
}

// Whether the source's voltages, tol and sweeps are in their limits.
#[tactic(auto, unfolding(feeder::specs::Feeder::source_in))]
pub fn source_in(given: &[i64; 8]) -> bool
    ensures { result ≡ source_in given.now }
{
    voltages_in(given) && between(0, 1_000, given[6]) && between(1, 100, given[7])
}

// The greatest vn of a load row: twice as much between two phases.
fn vn_most(terminals: Terminals) -> i64
    ensures value { result ≡ vn_most terminals }
    ensures fits { SFits w64 result }
{
    match terminals {
        Terminals::OnA | Terminals::OnB | Terminals::OnC => 2_000_000,
        Terminals::AB | Terminals::BC | Terminals::CA => 4_000_000,
    }
}

// Whether vn, p and q of a load row are in their limits.
#[tactic(auto, unfolding(feeder::specs::Feeder::load_in, integers::specs::Pairs::within))]
fn load_in(l: &LoadRow) -> bool
    ensures { result ≡ load_in l.now }
{
    between(1, vn_most(l.phase), l.vn) && pairs::within(l.s, 3_000_000)
}

// Three searches, and not one that is given a closure: the rows, the test, the line and how many rows an array keeps are another in each, so that it would be no plainer.
// 11 in the branch table: the first line with a number out of its limit, or behind 200 rows.
pub fn first_branch_out(tables: &Tables) -> Option<usize>
    requires { tables.now.rows ≤ 65536 }
    ensures { (r : Rows) → tables.now.branches ≡ kept no_branch_row 200 r.branches → tables.now.rows ≡ length r.branches → result ≡ first_branch branch_out r }
{
    for k in 1..tables.rows + 1 {
        let line = 4 + k;
        if 200 < k {
            return Some(line);
        }
        if !branch_in(&tables.branches[k - 1]) {
            return Some(line);
        }
    }
    None
}

// 11 in the load table, whose row k stands in line `before` + k; 300 rows.
pub fn first_load_out_behind(tables: &Tables, before: usize) -> Option<usize>
    requires count_bound { tables.now.count ≤ 65536 }
    requires before_bound { before ≤ 65542 }
    ensures { (ls : List LoadRow) → tables.now.loads ≡ kept no_load_row 300 ls → tables.now.count ≡ length ls → result ≡ first_row load_out before 1 ls }
{
    for k in 1..tables.count + 1 {
        let line = before + k;
        if 300 < k {
            return Some(line);
        }
        if !load_in(&tables.loads[k - 1]) {
            return Some(line);
        }
    }
    None
}

// 11 in the load table behind the branch table of the same file; 300 rows.
pub fn first_load_out(tables: &Tables) -> Option<usize>
    requires rows_bound { tables.now.rows ≤ 65536 }
    requires count_bound { tables.now.count ≤ 65536 }
    ensures { (ls : List LoadRow) → tables.now.loads ≡ kept no_load_row 300 ls → tables.now.count ≡ length ls → result ≡ first_row load_out (tables.now.rows + 6) 1 ls }
{
    let before = tables.rows + 6;
    first_load_out_behind(tables, before)
}

// 11 of the source's row, of the branches, of the loads.
pub fn first_out(tables: &Tables) -> Option<usize>
    requires rows_bound { tables.now.rows ≤ 65536 }
    requires count_bound { tables.now.count ≤ 65536 }
    ensures { (r : Rows) → Tabled r tables.now → result ≡ out_of_limit r }
{
    if !source_in(&tables.given) {
        return Some(2);
    }
    if let Some(line) = first_branch_out(tables) {
        return Some(line);
    }
    first_load_out_behind(tables, tables.rows + 6)
}

// 24: the first line with a number that is not 0 where 0 is due.
pub fn first_not_zero(tables: &Tables) -> Option<usize>
    requires { tables.now.rows ≤ 200 }
    ensures { (r : Rows) → tables.now.branches ≡ kept no_branch_row 200 r.branches → tables.now.rows ≡ length r.branches → result ≡ not_zero r }
{
    for k in 1..tables.rows + 1 {
        if !zeros_hold(&tables.branches[k - 1]) {
            return Some(4 + k);
        }
    }
    None
}

#[cfg(test)]
mod tests;
