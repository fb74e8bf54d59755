// The node table and the branch table, each as a part of the report.
ghost use Rattle.std.specs.Prelude.{◌≡◌, ◌&&◌, ◌+◌, ◌<◌, ◌≤◌, length};
ghost use Rattle.report.specs.Report.{rows_just};
ghost use Rattle.report_tables.specs.TablesRead.{Empty, NamedTable, TableIs, name_count, unused_count, value_count};

use crate::fields::read_row;
use arrays::{Names, Pairs, Threes};
use text::lines::{stands, stands_empty};

// The place behind a table, and whether its voltages or currents are in their limit.
#[derive(Clone, Copy)]
pub struct Table {
    pub next: usize,
    pub inside: bool,
}

// The places in front of the first row: the table is told by the flag that read_row has.
fn unused_count(branch: bool) -> usize
    ensures { result ≡ unused_count branch }
{
    if branch { 1 } else { 0 }
}

// Just so many rows, from a place on. Row k of the node table is stored at place k, counted from 0, and row k of the branch table at place k, counted from 1.
// A node row has one name and no loss: it stores 0 in the other two arrays, which stay as they are.
// Four arrays and not one struct of them, since each table is lent other fields of the report's arrays.
fn read_rows(
    part: &[u8],
    from: usize,
    count: usize,
    branch: bool,
    first: &mut Names,
    second: &mut Names,
    threes: &mut Threes,
    pairs: &mut Pairs,
) -> Option<Table>
    requires from_in_bounds { from ≤ length part.now }
    requires count_bound { unused_count branch + count ≤ 201 }
    requires empty { Empty first.old second.old threes.old pairs.old }
    ensures { TableIs branch count part.now (rows_just count (name_count branch) (value_count branch) part.now from) result first.new second.new threes.new pairs.new }
{
    let mut t = Table {
        next: from,
        inside: true,
    };
    let start = unused_count(branch);
    let last = start + count;
    for k in start..last {
        let (row, next) = read_row(part, t.next, branch)?;
        first[k] = row.first;
        second[k] = row.second;
        threes[k] = row.three;
        pairs[k] = row.pair;
        let inside = t.inside && row.inside;
        t = Table { next, inside };
    }
    Some(t)
}

// The table with this line of names, from the start of a part of the report, and the empty line behind it.
pub fn read_table(
    part: &[u8],
    header: &[u8],
    count: usize,
    branch: bool,
    first: &mut Names,
    second: &mut Names,
    threes: &mut Threes,
    pairs: &mut Pairs,
) -> Option<Table>
    requires header_nonzero { 0 < length header.now }
    requires count_bound { unused_count branch + count ≤ 201 }
    requires empty { Empty first.old second.old threes.old pairs.old }
    ensures { NamedTable branch count header.now part.now result first.new second.new threes.new pairs.new }
{
    if !stands(part, 0, header) {
        return None;
    }
    let rows = read_rows(
        part,
        header.len(),
        count,
        branch,
        first,
        second,
        threes,
        pairs,
    )?;
    let p = rows.next;
    if !stands_empty(part, p) {
        return None;
    }
    Some(Table {
        next: p + 1,
        inside: rows.inside,
    })
}
