// From a prototype to a cascade: what the low-pass and high-pass designs of 000 and 001 share.
ghost use Rattle.std.specs.Prelude.{◌≡◌, map, ◌/◌};
ghost use Rattle.limits.specs.Limits.{max_sections};
ghost use Rattle.sections.specs.View.{section_view, first_view};
ghost use Rattle.cascade.specs.View.{cascade_view};
ghost use Rattle.lists.specs.Lists.{up_to};
ghost use Rattle.design_cascade.specs.Design.{padded};
ghost use Rattle.design_cascade.specs.Prototype.{pair_of, real_part, first_of, prototype_cascade};

use super::butterworth::pole;
use super::chebyshev::{cheb1_section, cheb2_section};
use super::order::{Order, PoleIndex};
use cascade::Cascade;
use limits::{MAX_ORDER, MAX_SECTIONS};
use sections::{FirstOrder, Section};

// Of 001: sinh a and cosh a, the half-axes of the ellipse on which the type I poles lie.
#[derive(Clone, Copy)]
pub struct Ellipse {
    pub sinh_a: f64,
    pub cosh_a: f64,
}

// The kinds of prototype, with what fixes their poles.
#[derive(Clone, Copy)]
pub enum Prototype {
    ButterworthLow { k: f64 },
    ButterworthHigh { k: f64 },
    ChebyshevI { ellipse: Ellipse, k: f64 },
    ChebyshevII { ellipse: Ellipse, k: f64 },
}

// Each kind has formulas of its own, under the Rust's names, so a match takes them.
impl Prototype {
    // The section of a pole pair.
    #[tactic(auto, unfolding(crate::specs::Butterworth::lp_pair, crate::specs::Butterworth::hp_pair))]
    fn section(self, pair: PoleIndex) -> Section
        ensures { section_view result ≡ pair_of self pair.order pair.m }
    {
        match self {
            Prototype::ButterworthLow { k } => {
                let (sigma, omega_im) = pole(pair);
                design_poles::lp_biquad_from_pole(sigma, omega_im, k)
            }
            Prototype::ButterworthHigh { k } => {
                let (sigma, omega_im) = pole(pair);
                design_poles::hp_biquad_from_pole(sigma, omega_im, k)
            }
            Prototype::ChebyshevI { ellipse, k } => cheb1_section(pair, ellipse, k),
            Prototype::ChebyshevII { ellipse, k } => cheb2_section(pair, ellipse, k),
        }
    }

    // The sections of all pole pairs, from pair 0 on, and blank ones behind them.
    fn sections(self, order: Order<MAX_ORDER>) -> [Section; MAX_SECTIONS]
        ensures { map section_view result ≡ padded max_sections (up_to (pair_of self order.value) (order.value / 2)) }
    {
        let mut sections = [Section::blank(); MAX_SECTIONS];
        let used = &mut sections[..order.value / 2];
        for (m, section) in used.iter_mut().enumerate() {
            *section = self.section(PoleIndex {
                order: order.value,
                m,
            });
        }
        sections
    }

    // The part of the real pole.
    fn real_part(self) -> FirstOrder
        ensures { first_view result ≡ real_part self }
    {
        match self {
            Prototype::ButterworthLow { k } => design_poles::lp_first_order_from_pole(k),
            Prototype::ButterworthHigh { k } => design_poles::hp_first_order_from_pole(k),
            Prototype::ChebyshevI { ellipse, k } => {
                design_poles::cheb1_lp_first_order(-ellipse.sinh_a, k)
            }
            Prototype::ChebyshevII { ellipse, k } => {
                design_poles::cheb2_lp_first_order(-1.0 / ellipse.sinh_a, k)
            }
        }
    }

    // The part of the real pole, which an odd order has.
    #[tactic(auto, unfolding(crate::specs::Prototype::first_of))]
    fn first(self, order: usize) -> FirstOrder
        ensures { first_view result ≡ first_of self order }
    {
        if order % 2 == 0 {
            FirstOrder::blank()
        } else {
            self.real_part()
        }
    }

    // The cascade of an order.
    #[tactic(auto, unfolding(crate::specs::Prototype::prototype_cascade))]
    pub(crate) fn cascade(self, order: Order<MAX_ORDER>) -> Cascade
        ensures { cascade_view result ≡ prototype_cascade self order.value }
    {
        Cascade {
            sections: self.sections(order),
            count: order.value / 2,
            first: self.first(order.value),
            has_first: order.value % 2 == 1,
            clouded: false,
        }
    }
}
