// A second solver for the study: each feeder of the file `cases` is studied, and solved again in floats with no rounding (crate floats), with the taps of the
// report's last table. A line for each feeder has the largest distance of its report from the solution in floats, for voltages and for currents, and the
// largest share of its bound (crate bounds) that a distance has at any node and phase. A feeder on which a distance is above its bound is OVER. One that the
// study leaves unsettled (34) is named as such, with what the floats do.
#![tactic(auto)]

ghost use Rattle.std.specs.Prelude.{◌≤◌, length};

use answers::Refusal;
use bounds::bound::bounds_on_feeder;
use bounds::compare::{Compared, compare};
use cases::{Case, Cases, read_cases, text_space};
use feeder::Network;
use floats::phasor::Solution;
use floats::solver::{Feeder, solve_feeder};
use ladder::{Written, study_feeder};
use programs::{print, print_refusal, used};
use reading::read_into;
use report_reader::{ReportArrays, read_report};
use reported_taps::set_taps;

// x in hundredths, to the nearest whole number; 0 where there is none.
fn hundredths(x: f64) -> u64 {
    let y = 100.0 * x + 0.5;
    if y > -1.0 && y < 18446744073709551616.0 {
        return std::num::truncating_f64_to_u64(y);
    }
    0
}

// What is compared, the distance with its unit, and the share in per cent.
fn print_compared(rt: &impl Print, what: &str, c: Compared, unit: &str) {
    let d = hundredths(c.distance);
    let share = hundredths(c.share);
    let _ = print!(rt;
        "{what}{}.{}{}{unit}{share} %",
        d / 100,
        d / 10 % 10,
        d % 10
    );
}

fn within(voltages: Compared, currents: Compared) -> bool {
    voltages.share <= 1.0 && currents.share <= 1.0
}

fn print_both(rt: &impl Print, voltages: Compared, currents: Compared) {
    if !within(voltages, currents) {
        print(rt, b" OVER:");
    }
    print_compared(rt, " voltage ", voltages, " cV, share of bound ");
    print_compared(rt, "; current ", currents, " mA, share of bound ");
    print(rt, b"\n");
}

// The line of a feeder with a report, behind its name. The branches hold the reported taps.
fn try_report(rt: &impl Print, network: &Network, report: &ReportArrays) {
    let feeder = Feeder::from(network);
    let mut solved = Solution::zero();
    if solve_feeder(feeder, &mut solved).is_none() {
        print(rt, b" OVER: the floats do not settle\n");
        return;
    }
    let mut bounds = Solution::zero();
    let bounded = bounds_on_feeder(feeder, &solved.voltages, &report.voltages, &mut bounds);
    let Some(moved) = bounded else {
        print(rt, b" OVER: there is no bound\n");
        return;
    };
    let v = compare(
        network.rows,
        &solved.voltages,
        &report.voltages,
        &bounds.voltages,
        moved,
    );
    let i = compare(
        network.rows,
        &solved.currents,
        &report.currents,
        &bounds.currents,
        0.0,
    );
    print_both(rt, v, i);
}

// The feeder's limit of sweeps, and the sweeps in which the floats settle. Where the floats settle within that limit, it is the whole numbers that run in a circle.
fn print_sweeps(rt: &impl Print, limit: usize, sweeps: usize) {
    let found = if sweeps <= limit {
        "runs in a circle"
    } else {
        "is not settled"
    };
    let _ = println!(rt; " {found} (34): limit {limit}, the floats settle in {sweeps} sweeps");
}

// The line of a feeder that the study leaves unsettled (34), behind its name. The floats have the taps of the first round, so it is for feeders that have no
// level above 0.
fn try_unsettled(rt: &impl Print, network: &Network) {
    match solve_feeder(Feeder::from(network), &mut Solution::zero()) {
        Some(sweeps) => print_sweeps(rt, network.limit, sweeps),
        None => {
            print(rt, b" is not settled (34), nor are the floats\n");
        }
    }
}

// The limit of sweeps, which is at most 100 in every feeder.
fn limit_of(limit: usize) -> usize
    ensures { result ≤ 100 }
{
    limit.min(100)
}

// The line of a feeder in memory with the text of its report, behind its name. It is solved with the taps of the report's last table.
#[tactic(auto, using(report_reader::specs::ReportLaws::unread))]
fn try_written(rt: &impl Print, network: &mut Network, written: &[u8]) {
    network.limit = limit_of(network.limit);
    let mut report = ReportArrays::empty();
    if !read_report(written, network, &mut report) {
        print(rt, b" OVER: the report is not read\n");
        return;
    }
    set_taps(&mut network.branches, network.rows, &report.taps);
    try_report(rt, network, &report);
}

// The line of a feeder that is refused, behind its name.
fn print_refused(rt: &impl Print, x: Refusal) {
    print(rt, b" ");
    print_refusal(rt, x);
}

// The line of a feeder in memory, behind its name, from what the study made of it and the buffer that it wrote.
fn try_study(
    rt: &impl Print,
    network: &mut Network,
    study: Result<Written, Refusal>,
    buffer: &[u8],
) {
    match study {
        Ok(report) => {
            let n = used(report.length, buffer);
            try_written(rt, network, &buffer[..n]);
        }
        Err(Refusal::NotSettled(_)) => try_unsettled(rt, network),
        Err(x) => print_refused(rt, x),
    }
}

fn study_and_try(rt: &impl Print, feeder: &[u8], network: &mut Network) {
    let mut buffer = [0u8; 65536];
    let study = study_feeder(feeder, &mut buffer);
    try_study(rt, network, study, &buffer);
}

fn try_feeder(rt: &impl Print, feeder: &[u8]) {
    let mut network = Network::empty();
    match read_into(feeder, &mut network) {
        Ok(()) => study_and_try(rt, feeder, &mut network),
        Err(x) => print_refused(rt, x),
    }
}

// The line of one case. Its first text is its name, and its second the feeder.
fn try_case(rt: &impl Print, case: Case<'_>) {
    print(rt, case.feeder);
    try_feeder(rt, case.report);
}

fn main(rt: HostRuntime) {
    let mut text = text_space();
    let size = read_cases(&rt, b"cases", &mut text);
    let n = used(size, &text);
    for case in Cases(&text[..n]) {
        try_case(&rt, case);
    }
}
