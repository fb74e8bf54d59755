// A row of the node table or of the branch table.
ghost use Rattle.std.specs.Prelude.{◌≡◌, false, true};
ghost use Rattle.report_tables.specs.TablesRead.{RowIs, within3};

use feeder::{Three, pair_at, three_at};
use integers::Pair;
use integers::pairs::within;
use text::Placed;
use text::lines::read_numbers;
use text::read::read_name;

// A row: its names, its voltages or currents, the loss behind those, and whether the voltages or currents are in their limit.
// A node row has one name and no loss.
#[derive(Clone, Copy)]
pub struct RowRead {
    pub first: u64,
    pub second: u64,
    pub three: Three,
    pub pair: Pair,
    pub inside: bool,
}

// Whether all voltages, or currents, are within ±2,000,000.
fn within_three(x: Three) -> bool
    ensures { result ≡ within3 2000000 x }
{
    x.map(|p| within(p, 2_000_000)).all()
}

// The node row at a place. It takes the whole text and the place `at`, as the readers of crate text do.
fn read_node(s: &[u8], at: usize) -> Option<Placed<RowRead>>
    ensures { RowIs false s.now at result }
{
    let (first, p) = read_name(s, at, b',')?;
    let mut values = [0i64; 6];
    let next = read_numbers(s, p, &mut values)?;
    let voltages = three_at(&values, 1);
    let inside = within_three(voltages);
    let row = RowRead {
        first,
        second: 0,
        three: voltages,
        pair: Pair { re: 0, im: 0 },
        inside,
    };
    Some((row, next))
}

// The branch row at a place, read the same way. Apart from the node row, since it has a second name, and a loss behind the currents.
fn read_branch(s: &[u8], at: usize) -> Option<Placed<RowRead>>
    ensures { RowIs true s.now at result }
{
    let (first, p) = read_name(s, at, b',')?;
    let (second, q) = read_name(s, p, b',')?;
    let mut values = [0i64; 8];
    let next = read_numbers(s, q, &mut values)?;
    let currents = three_at(&values, 1);
    let inside = within_three(currents);
    let loss = pair_at(&values, 7);
    let row = RowRead {
        first,
        second,
        three: currents,
        pair: loss,
        inside,
    };
    Some((row, next))
}

// The row at a place, of one table or of the other. The table is told by a flag, and no reader of its rows is handed in, since the promise speaks of the table by
// the same flag.
pub fn read_row(s: &[u8], at: usize, branch: bool) -> Option<Placed<RowRead>>
    ensures { RowIs branch s.now at result }
{
    if branch {
        return read_branch(s, at);
    }
    read_node(s, at)
}
