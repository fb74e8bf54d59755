// The third table: one row.
ghost use Rattle.report.specs.Report.{totals_row};
ghost use Rattle.report_tables.specs.TablesRead.{TotalsAre};

use text::Placed;
use text::lines::{read_numbers, stands};

// The row's numbers: the sweeps and six totals.
pub type Totals = [i64; 7];

// The table, from the start of a part of the report.
pub fn read_totals(part: &[u8]) -> Option<Placed<Totals>>
    ensures { TotalsAre part.now (totals_row part.now) result }
{
    if !stands(
        part,
        0,
        b"sweeps,source_p,source_q,drawn_p,drawn_q,lost_p,lost_q\n",
    ) {
        return None;
    }
    let mut values = [0i64; 7];
    let next = read_numbers(part, 55, &mut values)?;
    Some((values, next))
}
