// The rows of the branch table.
ghost use Rattle.std.specs.Prelude.{◌≡◌, ℕ, ◌<◌, ◌≤◌, length, Some};
ghost use Rattle.answers.specs.declared.Refusal.{Refusal};
ghost use Rattle.feeder.specs.Layout.{branch_row};
ghost use Rattle.feeder.specs.declared.BranchRow.{BranchRow};
ghost use Rattle.text.specs.Lines.{got};

use crate::words::{kind_of, phases_of};
use feeder::BranchRow;
use text::Placed;
use text::lines::read_numbers;
use text::read::read_name;

// The branch row at a place, where its fields stand there and the words of its phases and its kind are listed.
#[tactic(auto, unfolding(feeder::specs::Layout::branch_row, text::specs::Lines::row, text::specs::Lines::names))]
pub fn read_branch(s: &[u8], at: usize) -> Option<Placed<BranchRow>>
    ensures value { (refusal : Refusal) → branch_row refusal s.now at ≡ got refusal result }
    ensures past { (x : BranchRow) (n : ℕ) → result ≡ Some (x, n) → (at < n) × (n ≤ length s.now) }
{
    let (from, a) = read_name(s, at, b',')?;
    let (to, b) = read_name(s, a, b',')?;
    let (set, c) = read_name(s, b, b',')?;
    let (letter, d) = read_name(s, c, b',')?;
    let mut p = [0i64; 12];
    let next = read_numbers(s, d, &mut p)?;
    let phases = phases_of(set)?;
    let kind = kind_of(letter)?;
    let row = BranchRow {
        from,
        to,
        phases,
        kind,
        p,
    };
    Some((row, next))
}
