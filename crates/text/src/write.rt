// Writers of fields. Each writes a text from place `at` on, leaves the rest of the buffer as it is, and answers the place behind the text:
// specs/Promises.antt says so in one word, Written.
ghost use Rattle.std.specs.Prelude.{◌≡◌, [], ◌∷◌, ◌+◌, ◌≤◌, length};
ghost use Rattle.text.specs.Text.{digits, decimal, letters};
ghost use Rattle.text.specs.Promises.{Written};

use integers::whole;

// All of them write by hand, as nothing is on the heap and each byte of the buffer is promised: Display and write! promise no bytes of a buffer that is lent.
// They take the whole buffer and the place `at`, and hand on the place behind: a slice that is cut at each field would have to be put together again in each
// promise.

// One byte: a comma, or LF.
pub fn put_byte(out: &mut [u8], at: usize, b: u8) -> usize
    requires { at + 1 ≤ length out.old }
    ensures { Written out.old at (b ∷ []) result out.new }
{
    out[at] = b;
    at + 1
}

// Bytes that are given, as a line of column names.
pub fn put_bytes(out: &mut [u8], at: usize, text: &[u8]) -> usize
    requires { at + length text.now ≤ length out.old }
    ensures { Written out.old at text.now result out.new }
{
    let behind = at + text.len();
    out[at..behind].copy_from_slice(text);
    behind
}

// How many digits n has, at most places.
pub fn digits_width(n: u64, places: usize) -> usize
    ensures { result ≡ length (digits places n) }
{
    if places == 0 {
        return 0;
    }
    if n < 10 {
        return 1;
    }
    digits_width(n / 10, places - 1) + 1
}

// The digits of n, the last of them first: how many there are says where it stands.
pub fn put_digits(out: &mut [u8], at: usize, n: u64) -> usize
    requires { at + length (digits 20 n) ≤ length out.old }
    ensures { Written out.old at (digits 20 n) result out.new }
{
    let end = at + digits_width(n, 20);
    let mut left = n;
    for i in (at + 1..end).rev() {
        out[i] = b'0' + (left % 10) as u8;
        left /= 10;
    }
    out[at] = b'0' + left as u8;
    end
}

// How many bytes the text of z takes.
pub fn number_width(z: i64) -> usize
    ensures { result ≡ length (decimal z) }
{
    let n = whole::size(z);
    let k = digits_width(n, 20);
    if z < 0 { k + 1 } else { k }
}

// A number: a minus where it is below 0, and the digits of its size.
pub fn put_number(out: &mut [u8], at: usize, z: i64) -> usize
    requires { at + length (decimal z) ≤ length out.old }
    ensures { Written out.old at (decimal z) result out.new }
{
    let n = whole::size(z);
    if z < 0 {
        out[at] = b'-';
        return put_digits(out, at + 1, n);
    }
    put_digits(out, at, n)
}

// How many letters v has, at most places. Apart from digits_width: 0 has a digit, and no letter.
fn letters_width(v: u64, places: usize) -> usize
    ensures { result ≡ length (letters places v) }
{
    if places == 0 || v == 0 {
        return 0;
    }
    letters_width(v / 256, places - 1) + 1
}

// How many bytes the name v takes.
pub fn name_width(v: u64) -> usize
    ensures { result ≡ length (letters 8 v) }
{
    letters_width(v, 8)
}

// The name v, which has at most 8 letters, the last of them first: how many there are says where it stands.
pub fn put_name(out: &mut [u8], at: usize, v: u64) -> usize
    requires { at + length (letters 8 v) ≤ length out.old }
    ensures { Written out.old at (letters 8 v) result out.new }
{
    let end = at + name_width(v);
    let mut left = v;
    for i in (at..end).rev() {
        out[i] = (left % 256) as u8;
        left /= 256;
    }
    end
}
