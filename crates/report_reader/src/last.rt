// The last table, which a report may be filed without.
ghost use Rattle.std.specs.Prelude.{◌≡◌, ℕ, length, replicate};
ghost use Rattle.feeder.specs.Feeder.{Feeder, no_taps, regulators};
ghost use Rattle.report.specs.Report.{tap_rows};
ghost use Rattle.report_reader.specs.Read.{FeederShown, LastIs};
ghost use Rattle.tap_table.specs.TapTable.{TapsAre};

use arrays::{Names, TapRows};
use feeder::{NO_TAPS, Network};
use tap_table::by_node::taps_by_node;
use tap_table::own::own_taps;
use tap_table::taps::{read_tap_table, regulator_count};
use text::lines::stands_empty;

// The table's rows in their order: those behind the row of the totals, which ends at a place of the part, or the feeder's own where the report ends there.
// It takes the whole part and the place `at`, as the readers of crate text do.
fn read_tap_rows(
    part: &[u8],
    at: usize,
    network: &Network,
    names: &mut Names,
    table: &mut TapRows,
) -> bool
    requires names_value { names.old ≡ replicate 201 0 }
    requires table_value { table.old ≡ replicate 201 no_taps }
    ensures { (f : Feeder) (limit : ℕ) → FeederShown f network.now limit → TapsAre (tap_rows f part.now at) result (length (regulators f)) names.new table.new }
{
    if at == part.len() {
        return own_taps(network, names, table);
    }
    if !stands_empty(part, at) {
        return false;
    }
    let count = regulator_count(network);
    let p = at + 1;
    read_tap_table(&part[p..], count, names, table)
}

// Their names in that order, and their taps by node number, where these fit the phases of their branches. The row of the totals ends at `at`, as above.
pub fn read_taps(
    part: &[u8],
    at: usize,
    network: &Network,
    names: &mut Names,
    taps: &mut TapRows,
) -> bool
    requires names_value { names.old ≡ replicate 201 0 }
    requires taps_value { taps.old ≡ replicate 201 no_taps }
    ensures { (f : Feeder) (limit : ℕ) → FeederShown f network.now limit → LastIs f part.now at result names.new taps.new }
{
    let mut table = [NO_TAPS; 201];
    if !read_tap_rows(part, at, network, names, &mut table) {
        return false;
    }
    taps_by_node(network, &table, taps)
}
