// The study program: reads a feeder from standard input, and writes its report, or the one line "refused NUMBER VALUE". Where standard input cannot be
// read, or standard output not be written, it is named on standard error.
#![tactic(auto)]

use programs::{print_answer, read_whole_input};
use study_answer::put_study_answer;

fn main(rt: HostRuntime) {
    let mut file = [0u8; 65537];
    let mut out = [0u8; 65536];
    let Some(input) = read_whole_input(&rt, &mut file) else {
        return;
    };
    let length = put_study_answer(&file[..input.size()], &mut out);
    print_answer(&rt, &out[..length]);
}
