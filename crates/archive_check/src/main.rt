// The check's program: `archive_check FEEDER REPORT` reads the two files and writes "pass", or the one line "refused NUMBER VALUE". A file that
// cannot be opened or read is named on standard error, and so is standard output where it cannot be written.
#![tactic(auto)]

use check_answer::put_check_answer;
use programs::{print_answer, read_whole_argument};

fn main(rt: HostRuntime) {
    let mut feeder = [0u8; 65537];
    let mut report = [0u8; 65537];
    let mut out = [0u8; 4096];
    let usage = b"usage: archive_check FEEDER REPORT";
    let Some(feeder_input) = read_whole_argument(&rt, 1, usage, &mut feeder) else {
        return;
    };
    let Some(report_input) = read_whole_argument(&rt, 2, usage, &mut report) else {
        return;
    };
    let length = put_check_answer(
        &feeder[..feeder_input.size()],
        &report[..report_input.size()],
        &mut out,
    );
    print_answer(&rt, &out[..length]);
}
