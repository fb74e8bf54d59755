// Readers of fields. Each is given the byte that has to stand behind the field: a comma, or LF at the line's end.
// A reader takes the whole text and the place `at`, and hands on the place behind, as the definitions do: in a text that is cut at each field each place would
// be counted from another start.
ghost use Rattle.std.specs.Prelude.{◌≡◌, ℕ, ◌<◌, ◌≤◌, ℤ, length, drop};
ghost use Rattle.text.specs.Text.{digit, more, natural, number_at, letter, name_at};

use crate::Placed;
use integers::whole;

// Whether b is one of 0 to 9.
fn is_digit(b: u8) -> bool
    ensures { result ≡ digit b }
{
    b.is_ascii_digit()
}

// The digits behind the first, of which v is the value so far. Below 10 ^ 17 a number has at most 17 digits.
fn read_digits(s: &[u8], from: usize, first: u64, sep: u8) -> Option<Placed<i64>>
    requires { first < 1000000000000000000 }
    ensures { result ≡ more sep (drop from s.now) from first }
{
    let mut v = first;
    for i in from..s.len() {
        let b = s[i];
        if b == sep {
            return Some((whole::signed(v), i + 1));
        }
        let leading = v == 0;
        let full = 100000000000000000 <= v;
        if !is_digit(b) || leading || full {
            return None;
        }
        v = v * 10 + (b - b'0') as u64;
    }
    None
}

// A number with no sign.
fn read_natural(s: &[u8], at: usize, sep: u8) -> Option<Placed<i64>>
    ensures { result ≡ natural sep (drop at s.now) at }
{
    let b = *s.get(at)?;
    if !is_digit(b) {
        return None;
    }
    read_digits(s, at + 1, (b - b'0') as u64, sep)
}

// The number at a place. The place behind it lies further on, and in the text.
pub fn read_number(s: &[u8], at: usize, sep: u8) -> Option<Placed<i64>>
    ensures value { result ≡ number_at sep s.now at }
    ensures past { (z : ℤ) (n : ℕ) → result ≡ Some (z, n) → (at < n) × (n ≤ length s.now) }
{
    let b = *s.get(at)?;
    if b != b'-' {
        return read_natural(s, at, sep);
    }
    let (z, next) = read_natural(s, at + 1, sep)?;
    if z == 0 {
        return None;
    }
    Some((whole::sub(0, z), next))
}

// Whether b is one of 0 to 9 and A to Z.
fn is_letter(b: u8) -> bool
    ensures { result ≡ letter b }
{
    matches!(b, b'0'..=b'9' | b'A'..=b'Z')
}

// The name at a place, of which v has been read: below 2 ^ 56 it has at most 7 letters.
pub fn read_name(s: &[u8], at: usize, sep: u8) -> Option<Placed<u64>>
    ensures value { result ≡ name_at sep s.now at }
    ensures past { (v n : ℕ) → result ≡ Some (v, n) → (at < n) × (n ≤ length s.now) }
{
    let mut v: u64 = 0;
    for i in at..s.len() {
        let b = s[i];
        if b == sep {
            return if 0 < v { Some((v, i + 1)) } else { None };
        }
        let full = 72057594037927936 <= v;
        if !is_letter(b) || full {
            return None;
        }
        v = v * 256 + b as u64;
    }
    None
}
