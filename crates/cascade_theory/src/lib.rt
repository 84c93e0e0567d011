// The cascade as a filter, over any float format: definitions in specs/, and in proofs/ what follows from them. Nothing runs
// here: sections, pipeline and cascade have the code.
#![tactic(auto)]
