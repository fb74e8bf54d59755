// The load table as a part of the file.
ghost use Rattle.std.specs.Prelude.{◌≡◌, ◌+◌, ◌<◌, ◌≤◌, ◌^◌, length, replicate, IfOk};
ghost use Rattle.feeder.specs.Layout.{load_table};
ghost use Rattle.feeder.specs.Network.{no_load_row};
ghost use Rattle.tables.specs.Read.{LoadsRead};

use crate::read_rows;
use answers::Refusal;
use feeder::LoadRow;
use rows::loads::read_load;
use text::lines::stands;

// The load table, from the start of a part of the file that begins in a line, into an array with no row: the number of its rows.
pub fn read_loads(part: &[u8], line: usize, loads: &mut [LoadRow; 300]) -> Result<usize, Refusal>
    requires room { line + length part.now < 2 ^ 64 }
    requires none { loads.old ≡ replicate 300 no_load_row }
    ensures value { LoadsRead (load_table line part.now) result loads.new }
    ensures few { IfOk result (λ n. n ≤ length part.now) }
{
    if !stands(part, 0, b"node,phase,kind,vn,p,q\n") {
        return Err(Refusal::Layout(line));
    }
    let (rows, _) = read_rows(part, line + 1, 23, read_load, |s, at| at == s.len(), loads)?;
    Ok(rows)
}
