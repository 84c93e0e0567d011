// The tap record as a filter, over any float format and capacity: definitions in specs/, and in proofs/ what follows from them.
// Nothing runs here: fir_sums, fir_step, fir_block and fir have the code.
#![tactic(auto)]
