// The report: its text and its reading. specs/Report.antt says both.

#![tactic(auto)]
