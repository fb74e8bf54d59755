// What the programs share: a file that is read to its end, words on standard output, and the part of a buffer that is in use. What fails is named on standard
// error.
#![tactic(auto)]

ghost use Rattle.std.specs.Prelude.{◌≡◌, length, IfOk, IfSome};
ghost use Rattle.std.specs.Io.{ReadsAtMost};
ghost use Rattle.std.specs.Result.{result_ok};
ghost use Rattle.io.specs.Counts.{IsPrefixLen};
ghost use Rattle.programs.specs.Input.{ReadWhole, WholeOrMore, size_of};

use answer_text::put_refusal;
use answers::Refusal;
use std::env::Env;
use std::fs::Files;
use std::io::{Error, ErrorKind, Read};
use std::{fs, io, str};

// How many bytes of an input stand at the start of the room that it was read into, and why no more was read. A room has one byte more than 65,536, which is
// enough for a longer input to meet refusal 9.
#[derive(Clone, Copy, PartialEq, Eq)]
pub enum Input {
    // The input ended.
    Whole(usize),
    // The room is full, and the input may go on.
    Full(usize),
}

impl Input {
    // How many bytes were read.
    pub fn size(self) -> usize
        ensures { result ≡ size_of self }
    {
        match self {
            Input::Whole(size) | Input::Full(size) => size,
        }
    }
}

// Names on standard error what failed, and why. Where that cannot be written, nothing is left to tell it to.
fn tell(rt: &impl Eprint, what: &str, why: Error) {
    let _ = eprintln!(rt; "{what}: {why}");
}

// What was read. A failure is named as that of `what`.
pub fn or_told<T>(rt: &impl Eprint, what: &str, read: io::Result<T>) -> Option<T>
    ensures { result ≡ result_ok read }
{
    read.map_err(|why| tell(rt, what, why)).ok()
}

// How many bytes were read. A failure is named as that of `what`.
pub fn told(rt: &impl Eprint, what: &str, read: io::Result<usize>) -> Option<usize>
    ensures { result ≡ result_ok read }
{
    or_told(rt, what, read)
}

// What a reader has, to its end: the whole of it, or as much as the room holds.
pub fn read_whole<R: Read>(reader: &mut R, room: &mut [u8]) -> io::Result<usize>
    ensures part { ReadsAtMost result room.new }
    ensures whole { IfOk result (λ n. ReadWhole n room.new (R.remaining reader.new)) }
{
    let mut size = 0;
    // A while, since no count says how many reads it takes.
    while size < room.len() {
        let moved = reader.read(&mut room[size..])?;
        if moved == 0 {
            return Ok(size);
        }
        size += moved;
    }
    Ok(size)
}

// The input of a reader: the whole of it, or more than 65,536 bytes.
fn read_room<R: Read>(reader: &mut R, file: &mut [u8]) -> io::Result<Input>
    requires { length file.old ≡ 65537 }
    ensures whole { IfOk result WholeOrMore }
    ensures part { IfOk result (λ x. IsPrefixLen (size_of x) file.new) }
    ensures end { IfOk result (λ x. ReadWhole (size_of x) file.new (R.remaining reader.new)) }
{
    let size = read_whole(reader, file)?;
    if size < file.len() {
        Ok(Input::Whole(size))
    } else {
        Ok(Input::Full(size))
    }
}

// Standard input, and why the reading stopped.
pub fn read_whole_input(rt: &(impl io::Input + Eprint), file: &mut [u8]) -> Option<Input>
    requires { length file.old ≡ 65537 }
    ensures whole { IfSome result WholeOrMore }
    ensures part { IfSome result (λ x. IsPrefixLen (size_of x) file.new) }
{
    let mut reader = rt.reader();
    or_told(rt, "standard input", read_room(&mut reader, file))
}

// Standard input: the answer is how many bytes were read.
pub fn read_input(rt: &(impl io::Input + Eprint), file: &mut [u8]) -> Option<usize>
    requires { length file.old ≡ 65537 }
    ensures { IfSome result (λ n. IsPrefixLen n file.new) }
{
    read_whole_input(rt, file).map(Input::size)
}

// The file of a path.
fn read_file(rt: &impl Files, path: &str, file: &mut [u8]) -> io::Result<Input>
    requires { length file.old ≡ 65537 }
    ensures whole { IfOk result WholeOrMore }
    ensures part { IfOk result (λ x. IsPrefixLen (size_of x) file.new) }
{
    let mut reader = fs::open(rt, path)?;
    read_room(&mut reader, file)
}

// The words that bytes spell in UTF-8.
fn words_of(bytes: &[u8]) -> &str {
    str::from_utf8(bytes).unwrap_or("words that are not UTF-8")
}

// The file that an argument names, and why the reading stopped. Where there is no such argument, the usage is told.
pub fn read_whole_argument(
    rt: &(impl Env + Files + Eprint),
    index: usize,
    usage: &[u8],
    file: &mut [u8],
) -> Option<Input>
    requires { length file.old ≡ 65537 }
    ensures whole { IfSome result WholeOrMore }
    ensures part { IfSome result (λ x. IsPrefixLen (size_of x) file.new) }
{
    let mut path = [0u8; 4096];
    let Ok(length) = rt.arg(index, &mut path) else {
        let why = Error::from(ErrorKind::InvalidInput);
        return or_told(rt, words_of(usage), Err(why));
    };
    let Ok(name) = str::from_utf8(&path[..length]) else {
        let why = Error::from(ErrorKind::InvalidFilename);
        return or_told(rt, "a file's name", Err(why));
    };
    or_told(rt, name, read_file(rt, name, file))
}

// The file that an argument names: the answer is how many bytes were read. Where there is no such argument, the usage is told.
pub fn read_argument(
    rt: &(impl Env + Files + Eprint),
    index: usize,
    usage: &[u8],
    file: &mut [u8],
) -> Option<usize>
    requires { length file.old ≡ 65537 }
    ensures { IfSome result (λ n. IsPrefixLen n file.new) }
{
    read_whole_argument(rt, index, usage, file).map(Input::size)
}

// What these three print stands in a buffer, since nothing is on the heap, and each byte of an answer is promised by the crate that put it there. It goes out
// as it stands: print! takes what has Display, which bytes have not, and promises no bytes.

// Answers whether all was written.
pub fn print(rt: &impl Print, words: &[u8]) -> bool {
    rt.write_all(words).is_ok()
}

// A program's answer.
pub fn print_answer(rt: &(impl Print + Eprint), answer: &[u8]) {
    if let Err(why) = rt.write_all(answer) {
        tell(rt, "standard output", why);
    }
}

// The line "refused NUMBER VALUE". Answers whether all was written.
pub fn print_refusal(rt: &impl Print, x: Refusal) -> bool {
    let mut line = [0u8; 4096];
    let n = put_refusal(&mut line, x);
    print(rt, &line[..n])
}

// How many bytes at the buffer's start are in use: size, which is never more than the buffer has.
pub fn used(size: usize, buffer: &[u8]) -> usize
    ensures { IsPrefixLen result buffer.now }
{
    size.min(buffer.len())
}

#[cfg(test)]
mod tests;
