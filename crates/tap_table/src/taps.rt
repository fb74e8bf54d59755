// The last table: a row for each regulator.
ghost use Rattle.std.specs.Prelude.{◌≡◌, ◌≤◌, length, replicate};
ghost use Rattle.tap_table.specs.Regulators.{regulators_from, tap_fits};
ghost use Rattle.tap_table.specs.TapTable.{TapRowIs, TapsAre};
ghost use Rattle.feeder.specs.Feeder.{no_taps};
ghost use Rattle.report.specs.Report.{tap_table, taps_fit};

use arrays::{Names, TapRows};
use feeder::{Network, Phases, Taps};
use integers::whole;
use text::Placed;
use text::lines::{read_numbers, stands};
use text::read::read_name;

// A row: the name and the taps.
#[derive(Clone, Copy)]
pub struct TapRow {
    pub name: u64,
    pub taps: Taps,
}

// The row at a place. It takes the whole text and the place `at`, as the readers of crate text do.
pub fn read_tap_row(s: &[u8], at: usize) -> Option<Placed<TapRow>>
    ensures { TapRowIs s.now at result }
{
    let (name, p) = read_name(s, at, b',')?;
    let mut values = [0i64; 3];
    let next = read_numbers(s, p, &mut values)?;
    let taps = Taps {
        a: values[0],
        b: values[1],
        c: values[2],
    };
    Some((TapRow { name, taps }, next))
}

// Whether the table of just so many rows stands at the start of a part of the report, which has to end with it.
pub fn read_tap_table(part: &[u8], count: usize, names: &mut Names, taps: &mut TapRows) -> bool
    requires count_bound { count ≤ 200 }
    requires names_value { names.old ≡ replicate 201 0 }
    requires taps_value { taps.old ≡ replicate 201 no_taps }
    ensures { TapsAre (tap_table count part.now) result count names.new taps.new }
{
    if !stands(part, 0, b"to,tap_a,tap_b,tap_c\n") {
        return false;
    }
    let mut at = 21;
    for k in 0..count {
        let Some((row, next)) = read_tap_row(part, at) else {
            return false;
        };
        names[k] = row.name;
        taps[k] = row.taps;
        at = next;
    }
    at == part.len()
}

// How many of the branch rows are regulators: the rows that the table has.
pub fn regulator_count(network: &Network) -> usize
    ensures value { result ≡ length (regulators_from network.now.branches 1 network.now.rows) }
    ensures few { result ≤ 200 }
{
    (1..network.rows + 1)
        .filter(|k| network.branches[*k].device.regulates())
        .count()
}

// Whether a tap is within ±16, and 0 on an absent phase.
fn tap_fits(present: bool, tap: i64) -> bool
    ensures { result ≡ tap_fits present tap }
{
    whole::inside(tap, 16) && (present || whole::inside(tap, 0))
}

// The same of a row's taps.
pub fn taps_fit(phases: Phases, t: Taps) -> bool
    ensures { result ≡ taps_fit phases t }
{
    phases.zip(t, tap_fits).all()
}
