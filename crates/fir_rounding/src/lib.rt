// 02's Q-5, "A figure for the FIR's rounding": definitions in specs/, and in proofs/ that the run step keeps to it. Nothing runs
// here: `fir` has the code, and `claims` says it of the code's records.
#![tactic(auto)]
