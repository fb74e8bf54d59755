// Tries the test cases of the reading, the study, the check and the whole root, each kind from the file of its name, and S-5's own of the study and of the
// check from files of their own. It writes the file's name, and then a line for each case: its number, and 'good', 'pass', or 'refused' with the refusal's
// number and value, or 'differs' where the study's buffer or answer is not the case's. For the study and the check these are the bytes that the programs' own
// calls put into a buffer. For a root the line has the root and its steps.
#![tactic(auto)]

ghost use Rattle.std.specs.Prelude.{◌≤◌, length};

use answers::Refusal;
use cases::{Case, Cases, count_at, read_cases, text_space};
use check_answer::put_check_answer;
use integers::whole::root;
use ladder::{Written, study_feeder};
use programs::{print, print_refusal, used};
use reading::read_feeder;
use std::fs::Files;
use study_answer::put_study_answer;

// The number whose binary digits these are as text, the highest first. The programs' own reader takes numbers of 18 decimal digits, and those of the roots
// have up to 20.
fn binary(digits: &[u8]) -> u64 {
    digits
        .iter()
        .fold(0, |n, &digit| n << 1 | u64::from(digit == b'1'))
}

// Each of these writes the rest of a case's line, and answers whether it was written.
fn try_reading(rt: &impl Print, feeder: &[u8]) -> bool {
    match read_feeder(feeder) {
        Ok(_) => print(rt, b"good\n"),
        Err(x) => print_refusal(rt, x),
    }
}

// What a buffer that was filled with 7 holds behind a call that wrote a text at its start. Buffers are compared by check::same: with == on arrays so long the
// program takes seven times as long.
fn buffer_with(text: &[u8]) -> [u8; 65536] {
    let mut buffer = [7u8; 65536];
    if text.len() <= buffer.len() {
        buffer[..text.len()].copy_from_slice(text);
    }
    buffer
}

// The row of the totals, behind the line of its names. Of all lines of a report that line alone begins with an s, since the names of nodes have capitals and
// digits alone.
fn totals_row(report: &[u8]) -> &[u8] {
    report
        .split(|&b| b == b'\n')
        .skip_while(|line| !line.starts_with(b"s"))
        .nth(1)
        .unwrap_or(b"")
}

// Whether the answer tells the report's length, and the number of sweeps with which the row of its totals begins.
fn tells(answer: Result<Written, Refusal>, report: &[u8]) -> bool {
    let Ok(written) = answer else {
        return report.is_empty();
    };
    let (sweeps, _) = count_at(totals_row(report), 0, b',');
    let told = Written {
        length: report.len(),
        sweeps,
    };
    written == told
}

// The line of a refusal as the study's program writes it. Where the case's buffer has no room for it, nothing may be written, and the line is made anew.
fn try_line(rt: &impl Print, feeder: &[u8], room: usize, x: Refusal) -> bool {
    let mut buffer = [7u8; 65536];
    let room = room.min(buffer.len());
    let written = put_study_answer(feeder, &mut buffer[..room]);
    let n = used(written, &buffer);
    if !check::same(&buffer, &buffer_with(&buffer[..n])) {
        return print(rt, b"differs\n");
    }
    if n == 0 {
        return print_refusal(rt, x);
    }
    print(rt, &buffer[..n])
}

// Whether the study's program writes the report, and nothing behind it.
fn writes(case: Case<'_>) -> bool {
    let mut buffer = [7u8; 65536];
    let room = case.room.min(buffer.len());
    let written = put_study_answer(case.feeder, &mut buffer[..room]);
    written == case.report.len() && check::same(&buffer, &buffer_with(case.report))
}

fn try_study(rt: &impl Print, case: Case<'_>) -> bool {
    let mut buffer = [7u8; 65536];
    let room = case.room.min(buffer.len());
    let answer = study_feeder(case.feeder, &mut buffer[..room]);
    if !check::same(&buffer, &buffer_with(case.report)) || !tells(answer, case.report) {
        return print(rt, b"differs\n");
    }
    match answer {
        Ok(_) if writes(case) => print(rt, b"good\n"),
        Ok(_) => print(rt, b"differs\n"),
        Err(x) => try_line(rt, case.feeder, case.room, x),
    }
}

fn try_check(rt: &impl Print, case: Case<'_>) -> bool {
    let mut line = [0u8; 4096];
    let n = put_check_answer(case.feeder, case.report, &mut line);
    print(rt, &line[..n])
}

fn try_root(rt: &impl Print, digits: &[u8]) -> bool {
    let r = root(binary(digits));
    println!(rt; "{} {}", r.root, r.steps).is_ok()
}

// The file's name, and the line of each of its cases, of which `try_case` writes what stands behind the number.
fn try_file<F: Fn(Case<'_>) -> bool>(rt: &(impl Files + Print + Eprint), name: &str, try_case: F)
    requires { F.IsAlwaysCallable try_case }
{
    let _ = println!(rt; "{name}");
    let mut text = text_space();
    let size = read_cases(rt, name.as_bytes(), &mut text);
    let n = used(size, &text);
    for (number, case) in (1usize..).zip(Cases(&text[..n])) {
        let _ = print!(rt; "{number} ");
        try_case(case);
    }
}

fn main(rt: HostRuntime) {
    try_file(&rt, "reading", |case| try_reading(&rt, case.feeder));
    try_file(&rt, "study", |case| try_study(&rt, case));
    try_file(&rt, "study_taps", |case| try_study(&rt, case));
    try_file(&rt, "check", |case| try_check(&rt, case));
    try_file(&rt, "check_taps", |case| try_check(&rt, case));
    try_file(&rt, "root", |case| try_root(&rt, case.feeder));
}
