// What the calls of the C interface (crate capi) return and leave: definitions in specs/, laws in proofs/. Nothing runs here.
#![tactic(auto)]
