// The branches of a feeder with the taps that a report gives: what the check works with. The array row by row: crate branch_taps, proofs/SettingLaws.antt.
#![tactic(auto)]

ghost use Rattle.std.specs.Prelude.{◌≡◌, ◌≤◌, List, length};
ghost use Rattle.feeder.specs.Feeder.{Feeder, no_taps, row_count, with_taps};
ghost use Rattle.feeder.specs.Network.{branch_array, kept};
ghost use Rattle.feeder.specs.Phased.{Taps};

use arrays::TapRows;
use feeder::Branch;

// Each row gets its taps, where it is a regulator; they stand by node number.
pub fn set_taps(branches: &mut [Branch; 201], rows: usize, taps: &TapRows)
    requires { rows ≤ 200 }
    ensures { (f : Feeder) (t : List Taps) → branches.old ≡ branch_array f → rows ≡ row_count f → taps.now ≡ kept no_taps 201 t → length t ≤ 201 → branches.new ≡ branch_array (with_taps t f) }
{
    for k in 1..rows + 1 {
        branches[k].set_taps(taps[k]);
    }
}
