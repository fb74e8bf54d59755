// The whole text that the study's program writes, in a buffer that is lent. specs/StudyAnswer.antt says what stands there.
#![tactic(auto)]

ghost use Rattle.std.specs.Prelude.{length};
ghost use Rattle.answer_text.specs.AnswerText.{PutAtStart};
ghost use Rattle.study_answer.specs.StudyAnswer.{study_text};

use answer_text::put_refusal;
use ladder::study_feeder;

// Written by hand, as nothing is on the heap and each byte of `out` is promised: Display and write! promise no bytes of a buffer that is lent.
//
// The report of a feeder, or the line "refused NUMBER VALUE", at the start of `out`; where `out` has no room for the line either, nothing. Answers how many
// bytes were written. For all bytes and all lengths.
pub fn put_study_answer(feeder: &[u8], out: &mut [u8]) -> usize
    ensures { PutAtStart (study_text feeder.now (length out.old)) out.old result out.new }
{
    let answer = study_feeder(feeder, out);
    match answer {
        Ok(written) => written.length,
        Err(x) => put_refusal(out, x),
    }
}
