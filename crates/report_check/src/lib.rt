// The check: whether a report belongs to its feeder. What it answers, and what a pass implies: crate verdicts.
#![tactic(auto)]

ghost use Rattle.std.specs.Prelude.{◌≡◌, Ok};
ghost use Rattle.account.specs.Account.{PowerAccount};
ghost use Rattle.answers.specs.Answers.{done};
ghost use Rattle.verdicts.specs.Check.{CheckTold, checked};
ghost use Rattle.verdicts.specs.ReportFaults.{CheckPoints};

use crate::stages::check_text;
use answers::Refusal;
use feeder::Network;
use reading::read_into;

pub mod stages;

// The report of a feeder: a pass, or the one refusal that documents 01 and 02 name. Both texts may have any length and any bytes.
pub fn check(feeder: &[u8], report: &[u8]) -> Result<(), Refusal>
    ensures answer { result ≡ checked feeder.now report.now }
    ensures account { result ≡ Ok done → PowerAccount feeder.now report.now }
    ensures told { CheckTold (checked feeder.now report.now) result }
    ensures first { CheckPoints feeder.now report.now result }
{
    let long = 65536 < report.len();
    if long {
        return Err(Refusal::TooLong);
    }
    let mut network = Network::empty();
    read_into(feeder, &mut network)?;
    check_text(&network, report)
}
