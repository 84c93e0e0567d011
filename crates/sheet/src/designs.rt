// Designs of the current records, and ready-made taps.
use super::answer::Answers;
use super::fault::Fault;
use super::parameters::{MOST, Parameters};
use super::put::{put_floats, put_refused};
use cascade::Cascade;
use design_request::{DesignRequest, Designed, Form, Records, design_in, records_of};
use fir::TapRecord;
use runs::Refusal;
use text_answers::Output;

fn fir(mut parameters: Parameters) -> Result<DesignRequest, Fault> {
    parameters.exactly(3)?;
    Ok(DesignRequest::Fir {
        taps: parameters.count()?,
        cutoff: parameters.float()?,
        window: parameters.window()?,
    })
}

fn chebyshev(word: &[u8], parameters: Parameters) -> Result<DesignRequest, Fault> {
    match word {
        b"chebyshev1" => {
            let (order, [cutoff, ripple_db, sample_rate]) = parameters.order_and::<3>()?;
            Ok(DesignRequest::Chebyshev1 {
                order,
                cutoff,
                ripple_db,
                sample_rate,
            })
        }
        b"chebyshev2" => {
            let (order, [cutoff, stopband_db, sample_rate]) = parameters.order_and::<3>()?;
            Ok(DesignRequest::Chebyshev2 {
                order,
                cutoff,
                stopband_db,
                sample_rate,
            })
        }
        _ => Err(Fault::UnknownRequest),
    }
}

// 01's design request of a line.
fn request_of(word: &[u8], parameters: Parameters) -> Result<DesignRequest, Fault> {
    match word {
        b"lowpass" => {
            let (order, [cutoff, sample_rate]) = parameters.order_and::<2>()?;
            Ok(DesignRequest::LowPass {
                order,
                cutoff,
                sample_rate,
            })
        }
        b"highpass" => {
            let (order, [cutoff, sample_rate]) = parameters.order_and::<2>()?;
            Ok(DesignRequest::HighPass {
                order,
                cutoff,
                sample_rate,
            })
        }
        b"bandpass" => {
            let (order, [low, high, sample_rate]) = parameters.order_and::<3>()?;
            Ok(DesignRequest::BandPass {
                order,
                low,
                high,
                sample_rate,
            })
        }
        b"fir" => fir(parameters),
        _ => chebyshev(word, parameters),
    }
}

fn put_cascade(output: &mut Output, c: &Cascade) {
    output.put_bytes(b"cascade ");
    output.put_count(c.count as u64);
    if c.has_first {
        output.put_bytes(b" 1");
        put_floats(output, &[c.first.b0, c.first.b1, c.first.a1]);
    } else {
        output.put_bytes(b" 0");
    }
    for s in c.sections.iter().take(c.count) {
        put_floats(output, &[s.b0, s.b1, s.b2, s.a1, s.a2]);
    }
}

fn put_taps(output: &mut Output, filter: &TapRecord) {
    output.put_bytes(b"taps ");
    output.put_count(filter.length as u64);
    output.put_bytes(b" ");
    output.put_count(u64::from(filter.window));
    put_floats(
        output,
        &filter.taps[..filter.length.min(TapRecord::MAX_TAPS)],
    );
}

impl Answers<'_> {
    fn put_made(&mut self, made: Result<Designed, Refusal>) {
        match made {
            Ok(Designed::Cascade(cascade)) => put_cascade(&mut self.output, &cascade),
            Ok(Designed::Fir(filter)) => put_taps(&mut self.output, &filter),
            Err(refusal) => put_refused(&mut self.output, refusal),
        }
    }

    // A design. The record that it returns replaces the one of its kind.
    pub(crate) fn answer_design(
        &mut self,
        form: Form,
        word: &[u8],
        parameters: Parameters,
    ) -> Result<(), Fault> {
        let request = request_of(word, parameters)?;
        let made = design_in(form, request);
        self.put_made(made);
        let Records { cascade, filter } = records_of(made);
        match request {
            DesignRequest::Fir { .. } => self.filter = filter,
            _ => self.cascade = cascade,
        }
        Ok(())
    }

    // Ready-made taps. The record that they return replaces the current one.
    pub(crate) fn answer_taps(
        &mut self,
        form: Form,
        mut parameters: Parameters,
    ) -> Result<(), Fault> {
        let n = parameters.number();
        if n > MOST {
            return Err(Fault::TooManySamples);
        }
        let mut numbers = [0.0; MOST];
        let taps = &mut numbers[..n];
        parameters.floats(taps)?;
        let made = match form {
            Form::Default => TapRecord::from_coeffs(taps),
            Form::Raw => TapRecord::from_coeffs_raw(taps),
        };
        let made = made.map(Designed::Fir);
        self.put_made(made);
        self.filter = records_of(made).filter;
        Ok(())
    }
}
