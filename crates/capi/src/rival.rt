// Blocks of the rival recorder.
ghost use Rattle.std.specs.Prelude.{◌≡◌};
ghost use Rattle.runs.specs.View.{refusal_in};
ghost use Rattle.c_calls.specs.Reading.{read_call};

use runs::{Refusal, number_in};

// 02's Q-2: one channel of a block, and how many samples it has.
#[unsafe(no_mangle)]
pub extern "C" fn pulse_read_channel(
    block: &[u8],
    channel: usize,
    output: &mut [f64],
    count: &mut [usize],
) -> u8
    ensures { record { refusal = result; output = output.new; count = count.new }
        ≡ read_call block.now channel output.old count.old }
{
    number_in(read_channel(block, channel, output, count))
}

fn read_channel(
    block: &[u8],
    channel: usize,
    output: &mut [f64],
    count: &mut [usize],
) -> Result<(), Refusal>
    ensures { record { refusal = refusal_in result; output = output.new; count = count.new }
        ≡ read_call block.now channel output.old count.old }
{
    if count.len() != 1 {
        return Err(Refusal::BadCall);
    }
    count[0] = recordings::read_channel(block, channel, output)?;
    Ok(())
}
