// A line's numbers, and lines that are given word for word. They take the whole text and the place `at`, as the readers of read.rt do.
ghost use Rattle.std.specs.Prelude.{◌≡◌, ℕ, ◌<◌, ◌≤◌, length, drop};
ghost use Rattle.answers.specs.declared.Refusal.{Refusal};
ghost use Rattle.text.specs.Text.{bytes, begins};
ghost use Rattle.text.specs.Lines.{sep_of, numbers};
ghost use Rattle.text.specs.Promises.{filled};

use crate::read::read_number;

// What ends a number with left more behind it: a comma, or LF.
fn sep_of(left: usize) -> u8
    ensures { result ≡ sep_of left }
{
    if left == 0 { b'\n' } else { b',' }
}

// As many numbers as values has places, the last of them at the line's end. A field that is not a number ends the reading.
pub fn read_numbers(s: &[u8], at: usize, values: &mut [i64]) -> Option<usize>
    ensures value { (refusal : Refusal) → numbers refusal (length values.old) s.now at ≡ filled refusal result values.new }
    ensures past { (n : ℕ) → result ≡ Some n → 0 < length values.old → (at < n) × (n ≤ length s.now) }
{
    let mut p = at;
    for k in 0..values.len() {
        let (z, next) = read_number(s, p, sep_of(values.len() - k - 1))?;
        values[k] = z;
        p = next;
    }
    Some(p)
}

// Whether the bytes of word stand at a place.
pub fn stands(s: &[u8], at: usize, word: &[u8]) -> bool
    ensures { result ≡ begins word.now (drop at s.now) }
{
    s[at.min(s.len())..].starts_with(word)
}

// Whether an empty line stands at a place.
pub fn stands_empty(s: &[u8], at: usize) -> bool
    ensures { result ≡ begins (bytes "\n") (drop at s.now) }
{
    stands(s, at, b"\n")
}
