// A report against its feeder, both in memory: each function below goes on where the one before it found nothing to refuse.
// specs/CheckStages.antt has the definition in the same steps.
ghost use Rattle.std.specs.Prelude.{true, ◌≡◌, Ok};
ghost use Rattle.answers.specs.Answers.{done};
ghost use Rattle.feeder.specs.Feeder.{Feeder, row_count};
ghost use Rattle.feeder.specs.Network.{Held};
ghost use Rattle.deviations.specs.Deviations.{Comparable};
ghost use Rattle.report.specs.Report.{Reported};
ghost use Rattle.report_reader.specs.Read.{ReportHeld, TapsHeld, report_read};
ghost use Rattle.sweeps.specs.Sweeps.{Known, SmallCurrents};
ghost use Rattle.verdicts.specs.Check.{compared};
ghost use Rattle.verdicts.specs.CheckChain.{from30, from53, from55};
ghost use Rattle.report_check.specs.CheckStages.{behind50, from50};
ghost use Rattle.report_check.specs.InHand.{InHand, Met, MetTaps};

use answers::Refusal;
use arrays::Threes;
use compare::Powers;
use deviations::compare_pass;
use feeder::{NO_THREE, Network};
use integers::Pair;
use passes::loss_pass;
use report_reader::{ReportArrays, read_report};
use reported_taps::set_taps;
use sweeps::work_currents;

// 55: `i` are the worked currents, `drawn` the power drawn with them.
fn check_totals(
    network: &Network,
    read: &ReportArrays,
    i: &Threes,
    drawn: Pair,
) -> Result<(), Refusal>
    requires known { Known network.now }
    requires small_currents { SmallCurrents network.now.rows i.now }
    ensures { (f : Feeder) (x : Reported) → InHand f x network.now (report_read true read.now) i.now drawn → result ≡ from55 (Ok done) f x }
{
    let mut worked = [Pair { re: 0, im: 0 }; 201];
    let lost = loss_pass(network, i, &mut worked);
    let source = devices::power(network.source, i[0]);
    let powers = Powers {
        source,
        drawn,
        lost,
    };
    if compare::totals_differ(network.rows, read, &worked, powers) {
        return Err(Refusal::TotalDiffers);
    }
    Ok(())
}

// 53 and 54.
fn check_currents(
    network: &Network,
    read: &ReportArrays,
    i: &Threes,
    drawn: Pair,
) -> Result<(), Refusal>
    requires known { Known network.now }
    requires comparable { Comparable network.now.source read.now.voltages network.now.tol }
    requires small_currents { SmallCurrents network.now.rows i.now }
    ensures { (f : Feeder) (x : Reported) → InHand f x network.now (report_read true read.now) i.now drawn → result ≡ from53 (Ok done) f x }
{
    if let Some(line) = compare::first_current_differs(network.rows, &read.currents, i) {
        return Err(Refusal::CurrentDiffers(line));
    }
    if let Some(line) = compare_pass(network, i, &read.voltages) {
        return Err(Refusal::VoltageOff(line));
    }
    check_totals(network, read, i, drawn)
}

// 30 to 32: the currents at the reported voltages. The check has no sweep, and their value is 0.
fn check_work(network: &Network, read: &ReportArrays) -> Result<(), Refusal>
    requires known { Known network.now }
    requires comparable { Comparable network.now.source read.now.voltages network.now.tol }
    ensures { (f : Feeder) (x : Reported) → Held f network.now → ReportHeld (row_count f) x (report_read true read.now) → result ≡ from30 (Ok done) f x }
{
    let mut i = [NO_THREE; 201];
    let drawn = work_currents(network, &read.voltages, &mut i).map_err(|e| e.refusal(0))?;
    check_currents(network, read, &i, drawn)
}

// 51 and 52, and all that follows up to 55.
fn check_report(network: &Network, read: &ReportArrays) -> Result<(), Refusal>
    requires { Met network.now (report_read true read.now) }
    ensures { (f : Feeder) (x : Reported) → Held f network.now → ReportHeld (row_count f) x (report_read true read.now) → result ≡ compared f x }
{
    if let Some(line) = compare::first_name_differs(network, read) {
        return Err(Refusal::NameDiffers(line));
    }
    if let Some(line) = compare::first_source_differs(network, &read.voltages) {
        return Err(Refusal::SourceDiffers(line));
    }
    check_work(network, read)
}

// 51 to 55 for the reported taps, which stand by node number, then 56.
fn check_taps(network: &Network, read: &ReportArrays) -> Result<(), Refusal>
    requires { MetTaps network.now (report_read true read.now) read.now.taps }
    ensures { (f : Feeder) (x : Reported) → Held f network.now → ReportHeld (row_count f) x (report_read true read.now) → TapsHeld f x read.now.taps → result ≡ behind50 f x }
{
    let mut own = *network;
    set_taps(&mut own.branches, network.rows, &read.taps);
    check_report(&own, read)?;
    if let Some(line) = compare::tap_rows::first_tap_differs(network, &own, read) {
        return Err(Refusal::TapDiffers(line));
    }
    Ok(())
}

// 50, and all that follows. Never a part of its caller: the stack of the reading is free again when its own arrays are laid.
#[inline(never)]
pub fn check_text(network: &Network, report: &[u8]) -> Result<(), Refusal>
    requires { Known network.now }
    ensures { (f : Feeder) → Held f network.now → result ≡ from50 f report.now }
{
    let mut read = ReportArrays::empty();
    if !read_report(report, network, &mut read) {
        return Err(Refusal::ReportLayout);
    }
    check_taps(network, &read)
}
