// The power account (demand 3): its statement is in specs/Account.antt.

#![tactic(auto)]
