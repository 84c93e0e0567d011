// 01's design request: one of six kinds, each with its own parameters alone, its check, and the design of any, by default and raw.
#![tactic(auto)]

ghost use Rattle.std.specs.Prelude.{◌≡◌};
ghost use Rattle.runs.specs.View.{refusal_in};
ghost use Rattle.cascade.specs.View.{cascade_view};
ghost use Rattle.fir.specs.View.{taps_view};
ghost use Rattle.design_cascade.specs.View.{design_view};
ghost use Rattle.design_request.specs.Request.{check_request, of_cascade, design_of, design_by_default};
ghost use Rattle.design_request.specs.View.{finite_in, designed_view, design_in};

use cascade::Cascade;
use design_cascade::{
    design_butterworth_bp_raw, design_butterworth_hp_raw, design_butterworth_lp_raw,
    design_chebyshev1_lp_raw, design_chebyshev2_lp_raw,
};
use design_checks::{validate_band, validate_chebyshev, validate_fir, validate_params};
use design_fir::{WindowType, design_fir_lp_raw};
use fir::TapRecord;
use runs::{Coefficients, Refusal};

// What may be asked for. A FIR's cutoff is a share of the rate.
#[derive(Clone, Copy)]
pub enum DesignRequest {
    LowPass {
        order: usize,
        cutoff: f64,
        sample_rate: f64,
    },
    HighPass {
        order: usize,
        cutoff: f64,
        sample_rate: f64,
    },
    BandPass {
        order: usize,
        low: f64,
        high: f64,
        sample_rate: f64,
    },
    Chebyshev1 {
        order: usize,
        cutoff: f64,
        ripple_db: f64,
        sample_rate: f64,
    },
    Chebyshev2 {
        order: usize,
        cutoff: f64,
        stopband_db: f64,
        sample_rate: f64,
    },
    Fir {
        taps: usize,
        cutoff: f64,
        window: WindowType,
    },
}

// A design of either kind.
#[derive(Clone, Copy)]
pub enum Designed {
    Cascade(Cascade),
    Fir(TapRecord),
}

impl Coefficients for Designed {
    ghost finite = { finite_in };

    fn coefficients_are_finite(self) -> bool {
        match self {
            Designed::Cascade(cascade) => cascade.coefficients_are_finite(),
            Designed::Fir(filter) => filter.coefficients_are_finite(),
        }
    }
}

// The records that a design returns. The one not asked for is blank.
#[derive(Clone, Copy)]
pub struct Records {
    pub cascade: Cascade,
    pub filter: TapRecord,
}

// Those of a design or of ready-made taps. What is refused returns its number and both records blank.
pub fn records_of(made: Result<Designed, Refusal>) -> Records
    ensures cascade { cascade_view result.cascade ≡ (designed_view made).cascade }
    ensures filter { taps_view result.filter ≡ (designed_view made).filter }
{
    let cascade = Cascade::blank();
    let filter = TapRecord::blank();
    match made {
        Ok(Designed::Cascade(cascade)) => Records { cascade, filter },
        Ok(Designed::Fir(filter)) => Records { cascade, filter },
        Err(_) => Records { cascade, filter },
    }
}

// 02's Q-3: the default form refuses by 25 where the coefficients are not all finite; the raw form hands them out.
#[derive(Clone, Copy, Debug, PartialEq, Eq)]
pub enum Form {
    Default,
    Raw,
}

// Whether the parameters pass their check. It works out no coefficient, so it never gives 25.
pub fn check_request(request: DesignRequest) -> Result<(), Refusal>
    ensures { refusal_in result ≡ check_request request }
{
    match request {
        DesignRequest::LowPass {
            order,
            cutoff,
            sample_rate,
        }
        | DesignRequest::HighPass {
            order,
            cutoff,
            sample_rate,
        } => validate_params(cutoff, sample_rate, order),
        DesignRequest::BandPass {
            order,
            low,
            high,
            sample_rate,
        } => validate_band(low, high, sample_rate, order),
        DesignRequest::Chebyshev1 {
            order,
            cutoff,
            ripple_db,
            sample_rate,
        } => validate_chebyshev(cutoff, ripple_db, sample_rate, order),
        DesignRequest::Chebyshev2 {
            order,
            cutoff,
            stopband_db,
            sample_rate,
        } => validate_chebyshev(cutoff, stopband_db, sample_rate, order),
        DesignRequest::Fir {
            taps,
            cutoff,
            window: _,
        } => validate_fir(taps, cutoff),
    }
}

// A cascade that was designed, as a design.
fn of_cascade(made: Result<Cascade, Refusal>) -> Result<Designed, Refusal>
    ensures { designed_view result ≡ of_cascade (design_view made) }
{
    made.map(Designed::Cascade)
}

// The design that is asked for, in a form.
pub fn design_in(form: Form, request: DesignRequest) -> Result<Designed, Refusal>
    ensures { designed_view result ≡ design_in form request }
{
    match form {
        Form::Default => design(request),
        Form::Raw => design_raw(request),
    }
}

// The design that is asked for. One whose coefficients are not all finite is refused by 25, after every other check.
pub fn design(request: DesignRequest) -> Result<Designed, Refusal>
    ensures { designed_view result ≡ design_by_default (design_of request) }
{
    runs::by_default(design_raw(request))
}

// The same of any coefficients, finite or not: the Rust's design.
pub fn design_raw(request: DesignRequest) -> Result<Designed, Refusal>
    ensures { designed_view result ≡ design_of request }
{
    match request {
        DesignRequest::LowPass {
            order,
            cutoff,
            sample_rate,
        } => of_cascade(design_butterworth_lp_raw(order, cutoff, sample_rate)),
        DesignRequest::HighPass {
            order,
            cutoff,
            sample_rate,
        } => of_cascade(design_butterworth_hp_raw(order, cutoff, sample_rate)),
        DesignRequest::BandPass {
            order,
            low,
            high,
            sample_rate,
        } => of_cascade(design_butterworth_bp_raw(order, low, high, sample_rate)),
        DesignRequest::Chebyshev1 {
            order,
            cutoff,
            ripple_db,
            sample_rate,
        } => of_cascade(design_chebyshev1_lp_raw(order, cutoff, ripple_db, sample_rate)),
        DesignRequest::Chebyshev2 {
            order,
            cutoff,
            stopband_db,
            sample_rate,
        } => of_cascade(design_chebyshev2_lp_raw(order, cutoff, stopband_db, sample_rate)),
        DesignRequest::Fir {
            taps,
            cutoff,
            window,
        } => design_fir_lp_raw(taps, cutoff, window).map(Designed::Fir),
    }
}
