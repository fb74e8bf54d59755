// The text of an answer, as the programs write it, put into a buffer that is lent. specs/AnswerText.antt says what stands there.
#![tactic(auto)]

ghost use Rattle.std.specs.Prelude.{◌≡◌, ◌≤◌, length};
ghost use Rattle.answer_text.specs.AnswerText.{PutAtStart, refused_line};
ghost use Rattle.answers.specs.Answers.{number_of, value_of};
ghost use Rattle.text.specs.Promises.{Written};

use answers::Refusal;
use text::write::{digits_width, put_byte, put_bytes, put_digits};

// How many bytes the line of a refusal takes.
fn line_width(number: usize, value: usize) -> usize
    ensures { result ≡ length (refused_line number value) }
{
    digits_width(number as u64, 20) + digits_width(value as u64, 20) + 10
}

// The three writers here write by hand, as nothing is on the heap and each byte of the buffer is promised: Display and write! promise no bytes of a buffer that
// is lent.

// The line "refused NUMBER VALUE".
fn put_line(out: &mut [u8], number: usize, value: usize) -> usize
    requires { length (refused_line number value) ≤ length out.old }
    ensures { Written out.old 0 (refused_line number value) result out.new }
{
    let words = put_bytes(out, 0, b"refused ");
    let told = put_digits(out, words, number as u64);
    let blank = put_byte(out, told, b' ');
    let end = put_digits(out, blank, value as u64);
    put_byte(out, end, b'\n')
}

// The line of a refusal at the start of the buffer, where it has room for it. Answers how many bytes were written.
pub fn put_refusal(out: &mut [u8], x: Refusal) -> usize
    ensures { PutAtStart (refused_line (number_of x) (value_of x)) out.old result out.new }
{
    let number = x.number();
    let value = x.value();
    if out.len() < line_width(number, value) {
        return 0;
    }
    put_line(out, number, value)
}

// A text that is given, in the same way.
pub fn put_text(out: &mut [u8], text: &[u8]) -> usize
    ensures { PutAtStart text.now out.old result out.new }
{
    if out.len() < text.len() {
        return 0;
    }
    put_bytes(out, 0, text)
}
