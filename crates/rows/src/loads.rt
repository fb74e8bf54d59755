// The rows of the load table.
ghost use Rattle.std.specs.Prelude.{◌≡◌, ℕ, ◌<◌, ◌≤◌, length, Some};
ghost use Rattle.answers.specs.declared.Refusal.{Refusal};
ghost use Rattle.feeder.specs.Layout.{load_row};
ghost use Rattle.feeder.specs.declared.LoadRow.{LoadRow};
ghost use Rattle.text.specs.Lines.{got};

use crate::words::{load_kind_of, phase_of};
use feeder::LoadRow;
use integers::Pair;
use text::Placed;
use text::lines::read_numbers;
use text::read::read_name;

// The load row at a place, where its fields stand there and the words of its phase and its kind are listed.
#[tactic(auto, unfolding(feeder::specs::Layout::load_row, text::specs::Lines::row, text::specs::Lines::names))]
pub fn read_load(s: &[u8], at: usize) -> Option<Placed<LoadRow>>
    ensures value { (refusal : Refusal) → load_row refusal s.now at ≡ got refusal result }
    ensures past { (x : LoadRow) (n : ℕ) → result ≡ Some (x, n) → (at < n) × (n ≤ length s.now) }
{
    let (node, a) = read_name(s, at, b',')?;
    let (place, b) = read_name(s, a, b',')?;
    let (letter, c) = read_name(s, b, b',')?;
    let mut values = [0i64; 3];
    let next = read_numbers(s, c, &mut values)?;
    let phase = phase_of(place)?;
    let kind = load_kind_of(letter)?;
    let row = LoadRow {
        node,
        phase,
        kind,
        vn: values[0],
        s: Pair {
            re: values[1],
            im: values[2],
        },
    };
    Some((row, next))
}
