// The language's own operators meet IEEE 754 at each of its formats, for all operands: the claims, and f64.
ghost use Rattle.std.specs.Prelude.{Float};
ghost use Rattle.std.specs.Float.{Format, binary64};
ghost use Rattle.ieee.specs.Arithmetic.{Sum, Difference, Product, Quotient};

// A type of floats, the operands and results of its operators.
pub trait Ieee754 {
    ghost format: { Format };

    // The value of a number of the type.
    ghost number: { Self → Float };

    fn sum(self, y: Self) -> Self
        ensures { Sum format (number self) (number y) (number result) };

    fn difference(self, y: Self) -> Self
        ensures { Difference format (number self) (number y) (number result) };

    fn product(self, y: Self) -> Self
        ensures { Product format (number self) (number y) (number result) };

    fn quotient(self, y: Self) -> Self
        ensures { Quotient format (number self) (number y) (number result) };
}

#[tactic(auto, using(ieee::proofs::Arithmetic::correct_rules))]
impl Ieee754 for f64 {
    ghost format = { binary64 };

    ghost number = { λ x. x };

    fn sum(self, y: f64) -> f64 {
        self + y
    }

    fn difference(self, y: f64) -> f64 {
        self - y
    }

    fn product(self, y: f64) -> f64 {
        self * y
    }

    fn quotient(self, y: f64) -> f64 {
        self / y
    }
}
