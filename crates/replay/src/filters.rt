// The filters that the requests run on, and the requests by kind.
use crate::asked::MOST;
use crate::designs::{check_agrees, design_agrees, design_of, make, ready_made};
use crate::kinds::Kind;
use crate::list::Request;
use crate::pulses::pulse;
use crate::records::{block, reset, step};
use crate::rival::channel;
use cascade::Cascade;
use design_request::{DesignRequest, Records, design_in, records_of};
use exports::Function;
use fir::TapRecord;

// Whether a function's answer is as stored.
fn function(function: Function, mut request: Request) -> bool {
    let y = exports::value(function, request.asked.number());
    request.stored.agrees(&[], [y].into_iter())
}

#[derive(Clone, Copy)]
pub(crate) struct Filters {
    cascade: Cascade,
    taps: TapRecord,
}

impl Filters {
    pub(crate) fn blank() -> Filters {
        Filters {
            cascade: Cascade::blank(),
            taps: TapRecord::blank(),
        }
    }

    // A design by its own function, whose record stays, and as a request, both in its form. Where that is none it does not agree.
    fn design(&mut self, request: Request) -> bool {
        let mut asked = request.asked;
        let Some(form) = asked.form() else {
            return false;
        };
        let Some(design) = design_of(request.kind, asked) else {
            return false;
        };
        let made = make(form, design);
        let Records { cascade, filter } = records_of(made);
        match design {
            DesignRequest::Fir { .. } => self.taps = filter,
            _ => self.cascade = cascade,
        }
        design_agrees(request.stored, made)
            && design_agrees(request.stored, design_in(form, design))
            && check_agrees(request.stored, form, design)
    }

    // Ready-made taps, whose record stays. Where their form is none they do not agree.
    fn ready_made(&mut self, request: Request) -> bool {
        let mut asked = request.asked;
        let Some(form) = asked.form() else {
            return false;
        };
        let count = asked.0.len().min(MOST);
        let made = ready_made(form, &asked.numbers()[..count]);
        self.taps = records_of(made).filter;
        design_agrees(request.stored, made)
    }

    // Whether the request is answered as stored.
    pub(crate) fn agrees(&mut self, request: Request) -> bool {
        match request.kind {
            Kind::LowPass
            | Kind::HighPass
            | Kind::BandPass
            | Kind::Chebyshev1
            | Kind::Chebyshev2
            | Kind::Fir => self.design(request),
            Kind::Taps => self.ready_made(request),
            Kind::CascadeStep => step(&mut self.cascade, request),
            Kind::CascadeBlock => block(&mut self.cascade, request),
            Kind::CascadeReset => reset(&mut self.cascade, request),
            Kind::FirStep => step(&mut self.taps, request),
            Kind::FirBlock => block(&mut self.taps, request),
            Kind::FirReset => reset(&mut self.taps, request),
            Kind::J211 => pulse(request),
            Kind::Rival => channel(request),
            Kind::Sqrt => function(Function::Sqrt, request),
            Kind::Sin => function(Function::Sin, request),
            Kind::Cos => function(Function::Cos, request),
            Kind::Tan => function(Function::Tan, request),
            Kind::Exp => function(Function::Exp, request),
            Kind::Ln => function(Function::Ln, request),
            Kind::Sinh => function(Function::Sinh, request),
            Kind::Cosh => function(Function::Cosh, request),
            Kind::Pow10 => function(Function::Pow10, request),
        }
    }
}
