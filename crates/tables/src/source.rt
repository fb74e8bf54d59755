// The source table, at the start of the file: one row.
ghost use Rattle.std.specs.Prelude.{◌≡◌, ◌≤◌, length, IfOk};
ghost use Rattle.feeder.specs.Layout.{source_table};
ghost use Rattle.tables.specs.Read.{source_read, source_from};

use answers::Refusal;
use text::Placed;
use text::lines::{read_numbers, stands, stands_empty};
use text::read::read_name;

// The row's name and numbers.
#[derive(Clone, Copy)]
pub struct SourceRow {
    pub name: u64,
    pub given: [i64; 8],
}

// The table's row and the empty line behind it.
#[tactic(auto, unfolding(crate::specs::Read::source_from, text::specs::Lines::row, text::specs::Lines::names, text::specs::Lines::text, text::specs::Text::bytes))]
fn read_row(file: &[u8], from: usize) -> Result<Placed<SourceRow>, Refusal>
    ensures value { source_from file.now from ≡ source_read result }
    ensures past { IfOk result (λ x. x.1 ≤ length file.now) }
{
    let mut given = [0i64; 8];
    let (name, p) = read_name(file, from, b',').ok_or(Refusal::Layout(2))?;
    let next = read_numbers(file, p, &mut given).ok_or(Refusal::Layout(2))?;
    if !stands_empty(file, next) {
        return Err(Refusal::Layout(3));
    }
    Ok((SourceRow { name, given }, next + 1))
}

// The source table, and the place behind it.
#[tactic(auto, unfolding(text::specs::Text::bytes), using(crate::specs::TableLaws::source_named, crate::specs::TableLaws::source_unnamed))]
pub fn read_source(file: &[u8]) -> Result<Placed<SourceRow>, Refusal>
    ensures value { source_table file.now ≡ source_read result }
    ensures past { IfOk result (λ x. x.1 ≤ length file.now) }
{
    if !stands(
        file,
        0,
        b"source,va_re,va_im,vb_re,vb_im,vc_re,vc_im,tol,sweeps\n",
    ) {
        return Err(Refusal::Layout(1));
    }
    read_row(file, 54)
}
