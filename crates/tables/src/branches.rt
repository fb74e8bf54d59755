// The branch table as a part of the file.
ghost use Rattle.std.specs.Prelude.{◌≡◌, ◌+◌, ◌≤◌, length, replicate, IfOk};
ghost use Rattle.feeder.specs.Layout.{branch_table};
ghost use Rattle.feeder.specs.Network.{no_branch_row};
ghost use Rattle.tables.specs.Read.{RowsRead};

use crate::read_rows;
use answers::Refusal;
use feeder::BranchRow;
use rows::branches::read_branch;
use text::Placed;
use text::lines::{stands, stands_empty};

// The branch table, from the start of a part of the file, into an array with no row: the number of its rows, and the place behind the empty line that ends it.
pub fn read_branches(part: &[u8], branches: &mut [BranchRow; 200]) -> Result<Placed<usize>, Refusal>
    requires { branches.old ≡ replicate 200 no_branch_row }
    ensures value { RowsRead no_branch_row 200 (branch_table part.now) result branches.new }
    ensures past { IfOk result (λ x. (x.0 + 6 ≤ x.1) × (x.1 ≤ length part.now)) }
{
    if !stands(
        part,
        0,
        b"from,to,phases,kind,p1,p2,p3,p4,p5,p6,p7,p8,p9,p10,p11,p12\n",
    ) {
        return Err(Refusal::Layout(4));
    }
    let (rows, end) = read_rows(part, 5, 59, read_branch, stands_empty, branches)?;
    Ok((rows, end + 1))
}
