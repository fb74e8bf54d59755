// What the calls answer where they do not give a report or a pass. specs/Answers.antt has the number and the value of each refusal by documents 01 and 02.
#![tactic(auto)]

ghost use Rattle.std.specs.Prelude.{◌≡◌};
ghost use Rattle.answers.specs.Answers.{number_of, value_of};

// One case for each row of document 01's table of refusals, and 35 and 56 of document 02, with the value that is returned beside the number.
#[derive(Clone, Copy)]
pub enum Refusal {
    TooLong,
    Layout(usize),
    OutOfLimit(usize),
    UnknownFrom(usize),
    SecondTo(usize),
    NotReached(usize),
    PhaseAbsent(usize),
    NotZero(usize),
    ZeroVoltage(usize),
    LoadBeyond(usize),
    CurrentBeyond(usize),
    VoltageBeyond(usize),
    NotSettled(usize),
    TapsMoving(usize),
    BufferShort(usize),
    ReportLayout,
    NameDiffers(usize),
    SourceDiffers(usize),
    CurrentDiffers(usize),
    VoltageOff(usize),
    TotalDiffers,
    TapDiffers(usize),
}

impl Refusal {
    // The table's column "No.".
    pub fn number(self) -> usize
        ensures { result ≡ number_of self }
    {
        match self {
            Refusal::TooLong => 9,
            Refusal::Layout(_) => 10,
            Refusal::OutOfLimit(_) => 11,
            Refusal::UnknownFrom(_) => 20,
            Refusal::SecondTo(_) => 21,
            Refusal::NotReached(_) => 22,
            Refusal::PhaseAbsent(_) => 23,
            Refusal::NotZero(_) => 24,
            Refusal::ZeroVoltage(_) => 30,
            Refusal::LoadBeyond(_) => 31,
            Refusal::CurrentBeyond(_) => 32,
            Refusal::VoltageBeyond(_) => 33,
            Refusal::NotSettled(_) => 34,
            Refusal::TapsMoving(_) => 35,
            Refusal::BufferShort(_) => 40,
            Refusal::ReportLayout => 50,
            Refusal::NameDiffers(_) => 51,
            Refusal::SourceDiffers(_) => 52,
            Refusal::CurrentDiffers(_) => 53,
            Refusal::VoltageOff(_) => 54,
            Refusal::TotalDiffers => 55,
            Refusal::TapDiffers(_) => 56,
        }
    }

    // The value that is returned with the number; 0 where there is none.
    pub fn value(self) -> usize
        ensures { result ≡ value_of self }
    {
        match self {
            Refusal::TooLong | Refusal::ReportLayout | Refusal::TotalDiffers => 0,
            Refusal::Layout(n)
            | Refusal::OutOfLimit(n)
            | Refusal::UnknownFrom(n)
            | Refusal::SecondTo(n)
            | Refusal::NotReached(n)
            | Refusal::PhaseAbsent(n)
            | Refusal::NotZero(n)
            | Refusal::ZeroVoltage(n)
            | Refusal::LoadBeyond(n)
            | Refusal::CurrentBeyond(n)
            | Refusal::VoltageBeyond(n)
            | Refusal::NotSettled(n)
            | Refusal::TapsMoving(n)
            | Refusal::BufferShort(n)
            | Refusal::NameDiffers(n)
            | Refusal::SourceDiffers(n)
            | Refusal::CurrentDiffers(n)
            | Refusal::VoltageOff(n)
            | Refusal::TapDiffers(n) => n,
        }
    }
}
