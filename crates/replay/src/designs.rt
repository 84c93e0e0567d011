// Designs and ready-made taps: asking for one, making it by its own function, and comparing it with the stored one. 02's Q-3: each
// has two forms.
use crate::asked::Asked;
use crate::kinds::Kind;
use crate::stored::Stored;
use cascade::Cascade;
use design_cascade::{
    design_butterworth_bp, design_butterworth_hp, design_butterworth_lp, design_chebyshev1_lp,
    design_chebyshev2_lp,
};
use design_fir::{WindowType, design_fir_lp};
use design_request::{DesignRequest, Designed, Form, check_request, design_raw};
use fir::TapRecord;
use runs::Refusal;

// The design that is asked for behind the form. None at another kind.
pub(crate) fn design_of(kind: Kind, mut asked: Asked) -> Option<DesignRequest> {
    let design = match kind {
        Kind::LowPass => DesignRequest::LowPass {
            order: asked.size(),
            cutoff: asked.number(),
            sample_rate: asked.number(),
        },
        Kind::HighPass => DesignRequest::HighPass {
            order: asked.size(),
            cutoff: asked.number(),
            sample_rate: asked.number(),
        },
        Kind::BandPass => DesignRequest::BandPass {
            order: asked.size(),
            low: asked.number(),
            high: asked.number(),
            sample_rate: asked.number(),
        },
        Kind::Chebyshev1 => DesignRequest::Chebyshev1 {
            order: asked.size(),
            cutoff: asked.number(),
            ripple_db: asked.number(),
            sample_rate: asked.number(),
        },
        Kind::Chebyshev2 => DesignRequest::Chebyshev2 {
            order: asked.size(),
            cutoff: asked.number(),
            stopband_db: asked.number(),
            sample_rate: asked.number(),
        },
        Kind::Fir => DesignRequest::Fir {
            taps: asked.size(),
            cutoff: asked.number(),
            // A code that no window has stands for the last.
            window: WindowType::try_from(asked.size()).unwrap_or(WindowType::Blackman),
        },
        _ => return None,
    };
    Some(design)
}

// The design by its own function, in the default form. `design_request::design_raw` asks those of the raw form, and `design_in` none
// of these.
fn by_default(design: DesignRequest) -> Result<Designed, Refusal> {
    match design {
        DesignRequest::LowPass {
            order,
            cutoff,
            sample_rate,
        } => design_butterworth_lp(order, cutoff, sample_rate).map(Designed::Cascade),
        DesignRequest::HighPass {
            order,
            cutoff,
            sample_rate,
        } => design_butterworth_hp(order, cutoff, sample_rate).map(Designed::Cascade),
        DesignRequest::BandPass {
            order,
            low,
            high,
            sample_rate,
        } => design_butterworth_bp(order, low, high, sample_rate).map(Designed::Cascade),
        DesignRequest::Chebyshev1 {
            order,
            cutoff,
            ripple_db,
            sample_rate,
        } => design_chebyshev1_lp(order, cutoff, ripple_db, sample_rate).map(Designed::Cascade),
        DesignRequest::Chebyshev2 {
            order,
            cutoff,
            stopband_db,
            sample_rate,
        } => design_chebyshev2_lp(order, cutoff, stopband_db, sample_rate).map(Designed::Cascade),
        DesignRequest::Fir {
            taps,
            cutoff,
            window,
        } => design_fir_lp(taps, cutoff, window).map(Designed::Fir),
    }
}

// The design by its own function, in the form.
pub(crate) fn make(form: Form, design: DesignRequest) -> Result<Designed, Refusal> {
    match form {
        Form::Default => by_default(design),
        Form::Raw => design_raw(design),
    }
}

// Ready-made taps, in the form, as `sheet` takes them.
pub(crate) fn ready_made(form: Form, coeffs: &[f64]) -> Result<Designed, Refusal> {
    let made = match form {
        Form::Default => TapRecord::from_coeffs(coeffs),
        Form::Raw => TapRecord::from_coeffs_raw(coeffs),
    };
    made.map(Designed::Fir)
}

// Whether the stored refusal number, or 0, is the check's of the parameters. By default it may also be 25 where the check has
// nothing against them: the check works out no coefficient.
pub(crate) fn check_agrees(stored: Stored, form: Form, design: DesignRequest) -> bool {
    let checked = check_request(design);
    let may_be_25 = checked.is_ok() && form == Form::Default;
    stored.begins_with(checked)
        || (may_be_25 && stored.begins_with(Err(Refusal::NonFiniteCoefficient)))
}

// A cascade is stored as 0, how many sections there are, the flag, and the coefficients of the parts that are used.
fn cascade_agrees(stored: Stored, cascade: Cascade) -> bool {
    let Cascade {
        sections,
        count,
        first,
        has_first,
        clouded: _,
    } = cascade;
    let first = [first.b0, first.b1, first.a1];
    let first = if has_first { &first[..] } else { &[] };
    let sections = sections
        .iter()
        .take(count)
        .flat_map(|s| [s.b0, s.b1, s.b2, s.a1, s.a2]);
    let numbers = first.iter().copied().chain(sections);
    stored.agrees(&[0, count as u64, u64::from(has_first)], numbers)
}

// A tap record is stored as 0, the number of taps, the window's code and the taps.
fn taps_agree(stored: Stored, record: TapRecord) -> bool {
    let TapRecord {
        taps,
        samples: _,
        length,
        held: _,
        window,
    } = record;
    let numbers = taps.iter().copied().take(length);
    stored.agrees(&[0, length as u64, u64::from(window)], numbers)
}

// Whether a design or ready-made taps are as stored. Of a refused one there is its number, and the counts of a blank record.
pub(crate) fn design_agrees(stored: Stored, made: Result<Designed, Refusal>) -> bool {
    match made {
        Ok(Designed::Cascade(cascade)) => cascade_agrees(stored, cascade),
        Ok(Designed::Fir(taps)) => taps_agree(stored, taps),
        Err(refusal) => stored.agrees(&[u64::from(u8::from(refusal)), 0, 0], [].into_iter()),
    }
}
