// Nothing to run: specs/ tries the definitions by computing document 01's example, its table of values, and test vectors.

#![tactic(auto)]
