// Steps, blocks and resets of a lent tap record.
ghost use Rattle.std.specs.Prelude.{◌≡◌};
ghost use Rattle.c_calls.specs.Kinds.{fir_kind};
ghost use Rattle.c_calls.specs.Calls.{step_call, block_call, block_in_place_call, reset_call};

use c_blocks::{LentTaps, block, block_in_place, reset, step};
use runs::number_in;

// One sample x.
#[unsafe(no_mangle)]
pub extern "C" fn pulse_fir_step(
    taps: &[f64],
    samples: &mut [f64],
    counts: &mut [usize],
    x: f64,
    answer: &mut [f64],
    clouded: &mut [usize],
) -> u8
    ensures { record { refusal = result; numbers = samples.new; counts = counts.new; answers = answer.new; clouded = clouded.new }
        ≡ step_call (fir_kind taps.now) samples.old counts.old x answer.old clouded.old }
{
    let mut lent = LentTaps {
        taps,
        samples,
        counts,
    };
    number_in(step(&mut lent, x, answer, clouded))
}

// A block of samples.
#[unsafe(no_mangle)]
pub extern "C" fn pulse_fir_block(
    taps: &[f64],
    samples: &mut [f64],
    counts: &mut [usize],
    input: &[f64],
    output: &mut [f64],
    clouded: &mut [usize],
) -> u8
    ensures { record { refusal = result; numbers = samples.new; counts = counts.new; answers = output.new; clouded = clouded.new }
        ≡ block_call (fir_kind taps.now) samples.old counts.old input.now output.old clouded.old }
{
    let mut lent = LentTaps {
        taps,
        samples,
        counts,
    };
    number_in(block(&mut lent, input, output, clouded))
}

// A block in place.
#[unsafe(no_mangle)]
pub extern "C" fn pulse_fir_block_in_place(
    taps: &[f64],
    samples: &mut [f64],
    counts: &mut [usize],
    buffer: &mut [f64],
    clouded: &mut [usize],
) -> u8
    ensures { record { refusal = result; numbers = samples.new; counts = counts.new; answers = buffer.new; clouded = clouded.new }
        ≡ block_in_place_call (fir_kind taps.now) samples.old counts.old buffer.old clouded.old }
{
    let mut lent = LentTaps {
        taps,
        samples,
        counts,
    };
    number_in(block_in_place(&mut lent, buffer, clouded))
}

// A reset.
#[unsafe(no_mangle)]
pub extern "C" fn pulse_fir_reset(taps: &[f64], samples: &mut [f64], counts: &mut [usize]) -> u8
    ensures { record { refusal = result; numbers = samples.new; counts = counts.new }
        ≡ reset_call (fir_kind taps.now) samples.old counts.old }
{
    let mut lent = LentTaps {
        taps,
        samples,
        counts,
    };
    number_in(reset(&mut lent))
}
