// The C interface: designs, steps, blocks and resets of both kinds of filter, whole pulses, and the rival's blocks, over numbers
// and slices that the caller lends (include/pulse.h). Each function tests the slices itself: one that does not fit is refused by
// 13, and a refused call leaves every slice. C has a name for each design, form and kind of record, so functions of one shape
// stand side by side; what they share stands in c_designs and c_blocks.
#![tactic(auto)]

mod cascades;
mod design;
mod filters;
mod pulses;
mod raw;
mod rival;
