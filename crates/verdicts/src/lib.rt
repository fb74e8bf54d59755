// What the check answers (specs/Check.antt), which row of a report has a fault (specs/ReportFaults.antt), and what follows from a pass (proofs/Demand.antt).
#![tactic(auto)]
