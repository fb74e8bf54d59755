// The test cases that tools/archive.py packs. A case is a line `ROOM,FEEDER,REPORT`, with a buffer's length and the lengths of two texts, each 0
// where there is none, and then the two texts. A text that does not fit is cut short: tools/archive.py writes only what fits.
#![tactic(auto)]

ghost use Rattle.std.specs.Prelude.{◌≡◌, ◌+◌, ◌<◌, ◌≤◌, min, length, ◌++◌, ℕ, List};
ghost use Rattle.std.specs.Iterator.{at_most};

use archive::unpack;
use integers::whole;
use programs::{or_told, read_whole};
use std::fs::Files;
use std::{fs, io, str};
use text::Placed;
use text::read::read_number;

// Room for the cases of a file. Written out in the function that lends it, so long an array is more than the prover can follow.
pub fn text_space() -> [u8; 2097152] {
    [0; 2097152]
}

fn unpack_file(rt: &impl Files, name: &str, text: &mut [u8]) -> io::Result<usize> {
    let mut file = fs::open(rt, name)?;
    let mut packed = [0u8; 262144];
    let size = read_whole(&mut file, &mut packed)?;
    Ok(unpack(&packed[..size], text))
}

// The cases of a file, unpacked. The answer is how many bytes they have. A file that cannot be read is named on standard error, and has none.
pub fn read_cases(rt: &(impl Files + Eprint), name: &[u8], text: &mut [u8]) -> usize {
    let Ok(name) = str::from_utf8(name) else {
        let _ = eprintln!(rt; "a file's name is not UTF-8");
        return 0;
    };
    or_told(rt, name, unpack_file(rt, name, text)).unwrap_or(0)
}

// The number at a place, and the place behind its separator, which lies further on, or is the text's end. Where no number stands, that is 0 and the text's end.
pub fn count_at(text: &[u8], at: usize, sep: u8) -> Placed<usize>
    ensures { (result.1 ≤ length text.now) × (min (at + 1) (length text.now) ≤ result.1) }
{
    let Some((z, next)) = read_number(text, at, sep) else {
        return (0, text.len());
    };
    (whole::size(z) as usize, next)
}

// The text's first bytes, so many or as many as there are, and what stands behind them.
fn cut(text: &[u8], size: usize) -> (&[u8], &[u8])
    ensures { text.now ≡ result.0.now ++ result.1.now }
{
    text.split_at(size.min(text.len()))
}

// A case: its buffer's length, its feeder and its report.
#[derive(Clone, Copy)]
pub struct Case<'a> {
    pub room: usize,
    pub feeder: &'a [u8],
    pub report: &'a [u8],
}

// The case at the text's start, and what stands behind it. Its line has a byte at least, where the text has one.
pub fn first_case(text: &[u8]) -> (Case<'_>, &[u8])
    ensures { (line : List ℕ) × (text.now ≡ line ++ result.0.feeder.now ++ result.0.report.now ++ result.1.now) × (min 1 (length text.now) ≤ length line) }
{
    let (room, next) = count_at(text, 0, b',');
    let (feeder, next) = count_at(text, next, b',');
    let (report, next) = count_at(text, next, b'\n');
    let (_, texts) = text.split_at(next);
    let (feeder, rest) = cut(texts, feeder);
    let (report, rest) = cut(rest, report);
    let case = Case {
        room,
        feeder,
        report,
    };
    (case, rest)
}

// The cases of a text, one after the other.
#[derive(Clone, Copy)]
pub struct Cases<'a>(pub &'a [u8]);

impl<'a> Iterator for Cases<'a> {
    type Item = Case<'a>;

    ghost remaining = { λ s. at_most (length s.0.now) };

    fn next(&mut self) -> Option<Case<'a>> {
        if self.0.is_empty() {
            return None;
        }
        let (case, rest) = first_case(self.0);
        self.0 = rest;
        Some(case)
    }
}
