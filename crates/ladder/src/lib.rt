// The study: a feeder file, the rounds of the iteration, and the report. specs/Study.antt says what it answers.
#![tactic(auto)]

ghost use Rattle.std.specs.Prelude.{◌≡◌, ◌≤◌, length, Ok};
ghost use Rattle.feeder.specs.Feeder.{Feeder};
ghost use Rattle.feeder.specs.Network.{Held};
ghost use Rattle.iteration.specs.Ladder.{Solution};
ghost use Rattle.iteration.specs.Runs.{GoodRun};
ghost use Rattle.ladder.specs.Stages.{StudyAs, fitted_from, fitted_with};
ghost use Rattle.ladder.specs.Study.{StudyGood, StudyPoints, StudyTold, buffer_of, fitted, study_of};
ghost use Rattle.sweeps.specs.Retapped.{BranchesAlone};
ghost use Rattle.sweeps.specs.Sweeps.{Known, SmallCurrents};

use answers::Refusal;
use arrays::Threes;
use devices::power;
use feeder::{NO_THREE, Network};
use integers::Pair;
use iteration::Run;
use passes::loss_pass;
use reading::read_into;
use report_lines::Figures;
use report_writer::{put_report, report_width};
use rounds::regulate;

// Of a report that the study wrote: its length, and the number of sweeps made.
#[derive(Clone, Copy, PartialEq, Eq)]
pub struct Written {
    pub length: usize,
    pub sweeps: usize,
}

// The report of a solution, where the buffer has room for it.
fn write_solution(
    network: &Network,
    run: Run,
    v: &Threes,
    i: &Threes,
    out: &mut [u8],
) -> Result<Written, Refusal>
    requires known { Known network.now }
    requires small_currents { SmallCurrents network.now.rows i.now }
    requires sweeps_bound { run.sweeps ≤ 100 }
    ensures { (f : Feeder) (x : Solution) → Held f network.now → run.sweeps ≡ x.sweeps → GoodRun f x v.now i.now run.drawn → StudyAs (fitted_with f x (length out.old)) out.old result out.new }
{
    let mut losses = [Pair { re: 0, im: 0 }; 201];
    let lost = loss_pass(network, i, &mut losses);
    let figures = Figures {
        sweeps: run.sweeps,
        source: power(network.source, i[0]),
        drawn: run.drawn,
        lost,
    };
    let need = report_width(network, v, i, &losses, figures);
    if out.len() < need {
        return Err(Refusal::BufferShort(need));
    }
    let length = put_report(out, network, v, i, &losses, figures);
    Ok(Written {
        length,
        sweeps: run.sweeps,
    })
}

// The study of a feeder in memory. The rounds move the taps of its branches, and the report is of these. Never a part of its caller: the stack of the reading is
// free again when its own arrays are laid.
#[inline(never)]
pub fn study_network(network: &mut Network, out: &mut [u8]) -> Result<Written, Refusal>
    requires { Known network.old }
    ensures study { (f : Feeder) → Held f network.old → StudyAs (fitted_from f (length out.old)) out.old result out.new }
    ensures rest { BranchesAlone network.old network.new }
{
    let mut v = [NO_THREE; 201];
    let mut i = [NO_THREE; 201];
    let run = regulate(network, &mut v, &mut i)?;
    write_solution(network, run, &v, &i, out)
}

// The study of a feeder file: its report is written from the start of `out`, and after a refusal `out` holds what it held.
pub fn study_feeder(feeder: &[u8], out: &mut [u8]) -> Result<Written, Refusal>
    ensures answer { result ≡ study_of feeder.now (length out.old) }
    ensures buffer { out.new ≡ buffer_of feeder.now out.old }
    ensures sweeps { (w : Written) → result ≡ Ok w → StudyGood feeder.now (length out.old) w.length w.sweeps }
    ensures told { StudyTold (fitted feeder.now (length out.old)) result }
    ensures first { StudyPoints feeder.now result }
{
    let mut network = Network::empty();
    read_into(feeder, &mut network)?;
    study_network(&mut network, out)
}
