// The study and the check for C. specs/Words.antt says what they answer, proofs/WordLaws.antt that each answer fits and can be taken apart.
#![tactic(auto)]

ghost use Rattle.std.specs.Prelude.{◌≡◌, ◌<◌, ◌^◌, length};
ghost use Rattle.account.specs.Account.{PowerAccount};
ghost use Rattle.answers.specs.Answers.{number_of, value_of};
ghost use Rattle.flarecomb.specs.Words.{CheckWord, StudyWord, word, word_of_check, word_of_study};
ghost use Rattle.ladder.specs.Study.{buffer_of, fitted, study_of};
ghost use Rattle.verdicts.specs.Check.{checked};

use answers::Refusal;
use ladder::study_feeder;
use report_check::check;

// sweeps · 2^48 + number · 2^32 + value
fn word_of(sweeps: usize, number: usize, value: usize) -> u64
    requires sweeps_bound { sweeps < 2 ^ 16 }
    requires number_bound { number < 2 ^ 16 }
    requires value_bound { value < 2 ^ 32 }
    ensures { result ≡ word sweeps number value }
{
    sweeps as u64 * 281474976710656 + (number as u64 * 4294967296 + value as u64)
}

// The word of a refusal.
fn refusal_word(x: Refusal) -> u64
    requires { value_of x < 2 ^ 32 }
    ensures { result ≡ word 0 (number_of x) (value_of x) }
{
    let number = x.number();
    let value = x.value();
    word_of(0, number, value)
}

// The study: a report is written from the start of `out`, and after a refusal `out` holds what it held. For all bytes and all lengths.
#[unsafe(no_mangle)]
pub extern "C" fn flarecomb_study(feeder: &[u8], out: &mut [u8]) -> u64
    ensures answer { result ≡ word_of_study (study_of feeder.now (length out.old)) }
    ensures buffer { out.new ≡ buffer_of feeder.now out.old }
    ensures told { StudyWord (fitted feeder.now (length out.old)) result }
{
    let answer = study_feeder(feeder, out);
    match answer {
        Ok(written) => word_of(written.sweeps, 0, written.length),
        Err(x) => refusal_word(x),
    }
}

// The check of a report against its feeder: 0 is a pass, and a pass implies the power account. For all bytes and all lengths.
#[unsafe(no_mangle)]
pub extern "C" fn flarecomb_check(feeder: &[u8], report: &[u8]) -> u64
    ensures answer { result ≡ word_of_check (checked feeder.now report.now) }
    ensures account { result ≡ 0 → PowerAccount feeder.now report.now }
    ensures told { CheckWord (checked feeder.now report.now) result }
{
    let verdict = check(feeder, report);
    match verdict {
        Ok(()) => word_of(0, 0, 0),
        Err(x) => refusal_word(x),
    }
}
