// The whole text that the check's program writes, in a buffer that is lent. specs/CheckAnswer.antt says what stands there.
#![tactic(auto)]

ghost use Rattle.std.specs.Prelude.{◌≡◌};
ghost use Rattle.account.specs.Account.{PowerAccount};
ghost use Rattle.answer_text.specs.AnswerText.{PutAtStart};
ghost use Rattle.check_answer.specs.CheckAnswer.{check_text};
ghost use Rattle.text.specs.Text.{bytes};

use answer_text::{put_refusal, put_text};
use report_check::check;

// Written by hand, as nothing is on the heap and each byte of `out` is promised: Display and write! promise no bytes of a buffer that is lent.
//
// "pass", or the line "refused NUMBER VALUE", at the start of `out`; where `out` has no room for it, nothing. Answers how many bytes were written. For all
// bytes and all lengths; where the text is "pass", the power account holds.
pub fn put_check_answer(feeder: &[u8], report: &[u8], out: &mut [u8]) -> usize
    ensures text { PutAtStart (check_text feeder.now report.now) out.old result out.new }
    ensures account { check_text feeder.now report.now ≡ bytes "pass\n" → PowerAccount feeder.now report.now }
{
    let verdict = check(feeder, report);
    match verdict {
        Ok(()) => put_text(out, b"pass\n"),
        Err(x) => put_refusal(out, x),
    }
}
