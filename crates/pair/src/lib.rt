// The pair of study and check: the check passes every report that the study writes. specs/Pair.antt says it, specs/PairHolds.antt proves it.
#![tactic(auto)]

ghost use Rattle.std.specs.Prelude.{◌≡◌, length, Ok};
ghost use Rattle.ladder.specs.Study.{StudyPoints, StudyTold, buffer_of, fitted, study_of};
ghost use Rattle.pair.specs.Pair.{Passes};

use answers::Refusal;
use ladder::{Written, study_feeder};
use report_check::check;

// The study, and then the check of what it wrote. The answer is the study's own: the check of what was written never refuses.
pub fn study_and_check(feeder: &[u8], out: &mut [u8]) -> Result<Written, Refusal>
    ensures answer { result ≡ study_of feeder.now (length out.old) }
    ensures buffer { out.new ≡ buffer_of feeder.now out.old }
    ensures passed { (w : Written) → result ≡ Ok w → Passes feeder.now out.new w.length }
    ensures told { StudyTold (fitted feeder.now (length out.old)) result }
    ensures first { StudyPoints feeder.now result }
{
    let written = study_feeder(feeder, out)?;
    check(feeder, &out[..written.length])?;
    Ok(written)
}
