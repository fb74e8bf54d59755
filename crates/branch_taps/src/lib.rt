// The branches of a feeder while each row gets its taps: laws, in proofs/SettingLaws.antt.
#![tactic(auto)]
