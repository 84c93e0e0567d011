// 02's Q-5: "Exact values are whole numbers after scaling by 2 to the 1074." Definitions in specs/; in proofs/ how far one
// rounded operation is from its exact result. Nothing runs here.
#![tactic(auto)]
