// The words of a row's columns, each as the number that its letters are packed into.
#![tactic(auto, unfolding(text::specs::Lines::listed, text::specs::Text::word, text::specs::Text::pack, text::specs::Text::bytes))]

ghost use Rattle.std.specs.Prelude.{◌≡◌};
ghost use Rattle.answers.specs.declared.Refusal.{Refusal};
ghost use Rattle.text.specs.Lines.{got, listed};
ghost use Rattle.feeder.specs.Layout.{phases_words, kind_words, phase_words, load_words};

use feeder::{Kind, LoadKind, Phases, Terminals};

// The words of phases: a letter's number is its byte, and each further letter is a digit of base 256.
const A: u64 = b'A' as u64;

const B: u64 = b'B' as u64;

const C: u64 = b'C' as u64;

const AB: u64 = A * 256 + B;

const AC: u64 = A * 256 + C;

const BC: u64 = B * 256 + C;

const CA: u64 = C * 256 + A;

const ABC: u64 = AB * 256 + C;

// The words of a branch's kind, and of a load's.
const L: u64 = b'L' as u64;

const R: u64 = b'R' as u64;

const Y: u64 = b'Y' as u64;

const D: u64 = b'D' as u64;

const P: u64 = b'P' as u64;

const I: u64 = b'I' as u64;

const Z: u64 = b'Z' as u64;

fn phases(a: bool, b: bool, c: bool) -> Phases
    ensures { result ≡ record { a = a; b = b; c = c } }
{
    Phases { a, b, c }
}

// A branch's phases.
pub fn phases_of(word: u64) -> Option<Phases>
    ensures { (refusal : Refusal) → listed refusal word phases_words ≡ got refusal result }
{
    match word {
        A => Some(phases(true, false, false)),
        B => Some(phases(false, true, false)),
        C => Some(phases(false, false, true)),
        AB => Some(phases(true, true, false)),
        AC => Some(phases(true, false, true)),
        BC => Some(phases(false, true, true)),
        ABC => Some(phases(true, true, true)),
        _ => None,
    }
}

// A branch's kind.
pub fn kind_of(word: u64) -> Option<Kind>
    ensures { (refusal : Refusal) → listed refusal word kind_words ≡ got refusal result }
{
    match word {
        L => Some(Kind::L),
        R => Some(Kind::R),
        Y => Some(Kind::Y),
        D => Some(Kind::D),
        _ => None,
    }
}

// A load's phase, or the two that it stands between.
pub fn phase_of(word: u64) -> Option<Terminals>
    ensures { (refusal : Refusal) → listed refusal word phase_words ≡ got refusal result }
{
    match word {
        A => Some(Terminals::OnA),
        B => Some(Terminals::OnB),
        C => Some(Terminals::OnC),
        AB => Some(Terminals::AB),
        BC => Some(Terminals::BC),
        CA => Some(Terminals::CA),
        _ => None,
    }
}

// A load's kind.
pub fn load_kind_of(word: u64) -> Option<LoadKind>
    ensures { (refusal : Refusal) → listed refusal word load_words ≡ got refusal result }
{
    match word {
        P => Some(LoadKind::Power),
        I => Some(LoadKind::Current),
        Z => Some(LoadKind::Impedance),
        _ => None,
    }
}
