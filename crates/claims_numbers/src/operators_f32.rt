// The claims of operators.rt at f32.
ghost use Rattle.std.specs.Float.{binary32};

use super::operators::Ieee754;

#[tactic(auto, using(ieee::proofs::Arithmetic::correct_rules))]
impl Ieee754 for f32 {
    ghost format = { binary32 };

    ghost number = { λ x. x };

    fn sum(self, y: f32) -> f32 {
        self + y
    }

    fn difference(self, y: f32) -> f32 {
        self - y
    }

    fn product(self, y: f32) -> f32 {
        self * y
    }

    fn quotient(self, y: f32) -> f32 {
        self / y
    }
}
