// What is claimed of designs, filters and the rival's blocks. No program calls these functions: they stand for their contracts, so that the check
// names each claim as proved.
#![tactic(auto)]

ghost use Rattle.std.specs.Float.{binary64};
ghost use Rattle.limits.specs.Limits.{max_taps};
ghost use Rattle.fir_rounding.specs.Figure.{most_taps, figure_bits, Sharp};
ghost use Rattle.claims.specs.Refused.{RefusedByCheck};
ghost use Rattle.claims.specs.Default.{DefaultForms};
ghost use Rattle.claims.specs.Fresh.{AcceptedIsFresh, CMadeIsFresh};
ghost use Rattle.claims.specs.Forgetting.{CascadeRule, FirRule};
ghost use Rattle.claims.specs.Lists.{CascadeCallsRule, FirCallsRule, CCascadeRule, CFirRule};
ghost use Rattle.claims.specs.Sheet.{ReleaseSheet};
ghost use Rattle.claims.specs.Dropout.{Dropout};
ghost use Rattle.claims.specs.Recordings.{RivalBlocks};
ghost use Rattle.claims.specs.Rounding.{FirRounding, FirBlockRounding};

use cascade::Cascade;
use fir::TapRecord;

// Demand 3, the forgetting rule, of every list of calls on every cascade.
pub fn cascade_forgets(start: Cascade)
    ensures { CascadeRule start }
{}

// The same of every tap record.
pub fn fir_forgets(start: TapRecord)
    ensures { FirRule start }
{}

// A design of any kind is refused by the number that its check gives; by default 25 comes after every such number.
pub fn designs_are_refused_by_their_checks()
    ensures { RefusedByCheck }
{}

// Demand 3 of lists of calls of the code: `Cascade::update`, `block` and `reset`, each on the record that the call before it
// returned.
pub fn cascade_calls_forget(start: Cascade)
    ensures { CascadeCallsRule start }
{}

// The same of `TapRecord::update`, `block` and `reset`.
pub fn fir_calls_forget(start: TapRecord)
    ensures { FirCallsRule start }
{}

// Demand 3 of lists of calls of the C library on one cascade: steps, blocks, blocks in place and resets.
pub fn c_cascade_calls_forget()
    ensures { CCascadeRule }
{}

// The same on one tap record.
pub fn c_fir_calls_forget()
    ensures { CFirRule }
{}

// 02's Q-3: a default form refuses as its raw form does, or else by 25 where a coefficient is not finite; what it accepts is what the raw form
// returned.
pub fn default_forms()
    ensures { DefaultForms }
{}

// What an accepted design, set of ready-made taps or reset returns is fresh.
pub fn accepted_designs_are_fresh()
    ensures { AcceptedIsFresh }
{}

// Of a filter that a C function made: the record in the caller's slices fits and is fresh.
pub fn c_made_filters_are_fresh()
    ensures { CMadeIsFresh }
{}

// The fourteen calculations on the release sheet.
pub fn release_sheet()
    ensures { ReleaseSheet }
{}

// 02's Q-1: a NaN among the samples of a pulse makes every place a NaN. It is said of NaN, and does not hold of infinities.
pub fn j211_dropout()
    ensures { Dropout }
{}

// 02's Q-2: a channel of a block as the rival writes it is read as its samples, nothing but such a block is accepted, and every
// code but the dropout's becomes exactly its number.
pub fn rival_blocks()
    ensures { RivalBlocks }
{}

// 02's Q-5: with at most 64 taps of magnitude at most 1, and held samples that are whole numbers from −32768 to 32767, a FIR's
// answer is within 2 to the −27 of the exact sum of products.
pub fn fir_rounding(start: TapRecord, x: f64)
    ensures { FirRounding start x }
{}

// The same of every answer of a block.
pub fn fir_block_rounding(start: TapRecord)
    ensures { FirBlockRounding start }
{}

// A smaller power of two does not hold: there are such taps and samples whose answer is farther off than 2 to the −28.
pub fn fir_rounding_is_sharp()
    ensures { Sharp binary64 max_taps most_taps figure_bits }
{}
