// The report's lines written into a buffer, and how many bytes they take. specs/Lines.antt says what stands on them.
#![tactic(auto)]

ghost use Rattle.std.specs.Prelude.{◌<◌};

use integers::Pair;

pub mod lines;
pub mod widths;

// The numbers of the last line. The sweeps are written as a signed number.
#[derive(Clone, Copy)]
pub struct Figures {
    pub sweeps: usize,
    pub source: Pair,
    pub drawn: Pair,
    pub lost: Pair,
    ghost signed: { sweeps < 9223372036854775808 },
}
