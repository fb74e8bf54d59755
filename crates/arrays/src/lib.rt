// What is worked of a feeder stands in arrays of 201 places: at place k what belongs to node k, or to the branch that feeds it.
#![tactic(auto)]

ghost use Rattle.std.specs.Prelude.{◌≡◌, ◌≤◌, replicate};
ghost use Rattle.arrays.specs.Arrays.{Spare};
ghost use Rattle.feeder.specs.Network.{no_three};

use feeder::{NO_THREE, Taps, Three};
use integers::Pair;

// A pair on each phase for each node, or for the branch that feeds it; a pair for each branch; names; taps.
pub type Threes = [Three; 201];

pub type Pairs = [Pair; 201];

pub type Names = [u64; 201];

pub type TapRows = [Taps; 201];

// An array of which places 0 to `rows` are used is cleared, or copied, by these places alone: the whole is 9.6 KB.
pub fn clear_threes(threes: &mut Threes, rows: usize)
    requires rows_bound { rows ≤ 200 }
    requires spare { Spare rows threes.old }
    ensures { threes.new ≡ replicate 201 no_three }
{
    threes[..rows + 1].fill(NO_THREE);
}

pub fn copy_threes(from: &Threes, rows: usize, to: &mut Threes)
    requires rows_bound { rows ≤ 200 }
    requires spare { Spare rows from.now }
    requires spare_2 { Spare rows to.old }
    ensures { to.new ≡ from.now }
{
    to[..rows + 1].copy_from_slice(&from[..rows + 1]);
}
