// Whole pulses.
ghost use Rattle.std.specs.Prelude.{◌≡◌};
ghost use Rattle.j211.specs.J211.{refusal, filtered};

use runs::number_in;

// 02's Q-1: a pulse through a channel class of SAE J211-1, forward and then backward, in place.
#[unsafe(no_mangle)]
pub extern "C" fn pulse_j211(class: usize, sample_rate: f64, buffer: &mut [f64]) -> u8
    ensures { (result ≡ refusal class sample_rate) × (buffer.new ≡ filtered class sample_rate buffer.old) }
{
    number_in(j211::filter(class, sample_rate, buffer))
}
