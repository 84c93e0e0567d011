// Calls of the C interface on a lent record.
ghost use Rattle.std.specs.Prelude.{◌≡◌};
ghost use Rattle.runs.specs.View.{refusal_in};
ghost use Rattle.c_calls.specs.Calls.{step_call, block_call, block_in_place_call, reset_call};

use super::lent::Lent;
use runs::Refusal;

// One sample.
pub fn step<L: Lent>(
    lent: &mut L,
    x: f64,
    answer: &mut [f64],
    clouded: &mut [usize],
) -> Result<(), Refusal>
    ensures same { L.slices lent.new ≡ L.slices lent.old }
    ensures call { record { refusal = refusal_in result; numbers = L.numbers lent.new; counts = L.counts lent.new; answers = answer.new; clouded = clouded.new }
        ≡ step_call (L.kind (L.slices lent.old)) (L.numbers lent.old) (L.counts lent.old) x answer.old clouded.old }
{
    if answer.len() != 1 || clouded.len() != 1 {
        return Err(Refusal::BadCall);
    }
    let a = lent.update(x);
    a.accepted()?;
    answer[0] = a.number();
    clouded[0] = usize::from(a.is_clouded());
    Ok(())
}

// How many samples of a block in place are copied at a time.
const PART: usize = 256;

// A block of samples.
pub fn block<L: Lent>(
    lent: &mut L,
    input: &[f64],
    output: &mut [f64],
    clouded: &mut [usize],
) -> Result<(), Refusal>
    ensures same { L.slices lent.new ≡ L.slices lent.old }
    ensures call { record { refusal = refusal_in result; numbers = L.numbers lent.new; counts = L.counts lent.new; answers = output.new; clouded = clouded.new }
        ≡ block_call (L.kind (L.slices lent.old)) (L.numbers lent.old) (L.counts lent.old) input.now output.old clouded.old }
{
    if clouded.len() != 1 {
        return Err(Refusal::BadCall);
    }
    clouded[0] = lent.block(input, output)?;
    Ok(())
}

// A block in place: an empty block, which tests the slices and the record, and then parts, each from a copy to its places. The parts
// are taken by their places: what is written through `chunks_mut` is not known behind the loop.
pub fn block_in_place<L: Lent>(
    lent: &mut L,
    buffer: &mut [f64],
    clouded: &mut [usize],
) -> Result<(), Refusal>
    ensures same { L.slices lent.new ≡ L.slices lent.old }
    ensures call { record { refusal = refusal_in result; numbers = L.numbers lent.new; counts = L.counts lent.new; answers = buffer.new; clouded = clouded.new }
        ≡ block_in_place_call (L.kind (L.slices lent.old)) (L.numbers lent.old) (L.counts lent.old) buffer.old clouded.old }
{
    if clouded.len() != 1 {
        return Err(Refusal::BadCall);
    }
    lent.block(&[], &mut [])?;
    let mut total = 0;
    for from in (0..buffer.len()).step_by(PART) {
        let to = from + PART.min(buffer.len() - from);
        let part = &mut buffer[from..to];
        let mut samples = [0.0; PART];
        let input = &mut samples[..part.len()];
        input.copy_from_slice(part);
        total += lent.block(input, part)?;
    }
    clouded[0] = total;
    Ok(())
}

// A reset.
pub fn reset<L: Lent>(lent: &mut L) -> Result<(), Refusal>
    ensures same { L.slices lent.new ≡ L.slices lent.old }
    ensures call { record { refusal = refusal_in result; numbers = L.numbers lent.new; counts = L.counts lent.new }
        ≡ reset_call (L.kind (L.slices lent.old)) (L.numbers lent.old) (L.counts lent.old) }
{
    lent.reset()
}
