// Steps, blocks and resets of a lent cascade.
ghost use Rattle.std.specs.Prelude.{◌≡◌};
ghost use Rattle.c_calls.specs.Kinds.{cascade_kind};
ghost use Rattle.c_calls.specs.Calls.{step_call, block_call, block_in_place_call, reset_call};

use c_blocks::{LentCascade, block, block_in_place, reset, step};
use runs::number_in;

// One sample x.
#[unsafe(no_mangle)]
pub extern "C" fn pulse_cascade_step(
    numbers: &mut [f64],
    counts: &mut [usize],
    x: f64,
    answer: &mut [f64],
    clouded: &mut [usize],
) -> u8
    ensures { record { refusal = result; numbers = numbers.new; counts = counts.new; answers = answer.new; clouded = clouded.new }
        ≡ step_call cascade_kind numbers.old counts.old x answer.old clouded.old }
{
    number_in(step(&mut LentCascade { numbers, counts }, x, answer, clouded))
}

// A block of samples.
#[unsafe(no_mangle)]
pub extern "C" fn pulse_cascade_block(
    numbers: &mut [f64],
    counts: &mut [usize],
    input: &[f64],
    output: &mut [f64],
    clouded: &mut [usize],
) -> u8
    ensures { record { refusal = result; numbers = numbers.new; counts = counts.new; answers = output.new; clouded = clouded.new }
        ≡ block_call cascade_kind numbers.old counts.old input.now output.old clouded.old }
{
    number_in(block(&mut LentCascade { numbers, counts }, input, output, clouded))
}

// A block in place.
#[unsafe(no_mangle)]
pub extern "C" fn pulse_cascade_block_in_place(
    numbers: &mut [f64],
    counts: &mut [usize],
    buffer: &mut [f64],
    clouded: &mut [usize],
) -> u8
    ensures { record { refusal = result; numbers = numbers.new; counts = counts.new; answers = buffer.new; clouded = clouded.new }
        ≡ block_in_place_call cascade_kind numbers.old counts.old buffer.old clouded.old }
{
    number_in(block_in_place(&mut LentCascade { numbers, counts }, buffer, clouded))
}

// A reset.
#[unsafe(no_mangle)]
pub extern "C" fn pulse_cascade_reset(numbers: &mut [f64], counts: &mut [usize]) -> u8
    ensures { record { refusal = result; numbers = numbers.new; counts = counts.new }
        ≡ reset_call cascade_kind numbers.old counts.old }
{
    number_in(reset(&mut LentCascade { numbers, counts }))
}
