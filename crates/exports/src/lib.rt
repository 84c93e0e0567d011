// The square root and the elementary functions, each with its number and its name: for the program that tests them (vectors),
// and for exports_c, which hands them to C. Not part of what the recorder runs.
#![tactic(auto)]

ghost use Rattle.std.specs.Prelude.{◌≡◌};
ghost use Rattle.exports.specs.Numbered.{number, numbered, IsNumbered};

use std::error::Error;
use std::fmt;

// The functions, in the order of their numbers, which begin at 0.
#[derive(Clone, Copy, Debug, PartialEq, Eq)]
pub enum Function {
    Sqrt,
    Abs,
    MaxZero,
    Sin,
    Cos,
    Tan,
    Exp,
    Pow10,
    Ln,
    Sinh,
    Cosh,
    Arcsinh,
}

const FUNCTIONS: [Function; 12] = [
    Function::Sqrt,
    Function::Abs,
    Function::MaxZero,
    Function::Sin,
    Function::Cos,
    Function::Tan,
    Function::Exp,
    Function::Pow10,
    Function::Ln,
    Function::Sinh,
    Function::Cosh,
    Function::Arcsinh,
];

// A number that no function has.
#[derive(Clone, Copy, Debug, PartialEq, Eq)]
pub struct UnknownFunction(pub u64);

impl TryFrom<u64> for Function {
    type Error = UnknownFunction;

    ghost try_from_gives = { IsNumbered };

    fn try_from(number: u64) -> Result<Self, UnknownFunction> {
        FUNCTIONS
            .get(number as usize)
            .copied()
            .ok_or(UnknownFunction(number))
    }
}

impl fmt::Display for Function {
    fn fmt<W: fmt::Write>(&self, f: &mut fmt::Formatter<W>) -> fmt::Result {
        f.write_str(match self {
            Function::Sqrt => "sqrt",
            Function::Abs => "abs",
            Function::MaxZero => "max_zero",
            Function::Sin => "sin",
            Function::Cos => "cos",
            Function::Tan => "tan",
            Function::Exp => "exp",
            Function::Pow10 => "pow10",
            Function::Ln => "ln",
            Function::Sinh => "sinh",
            Function::Cosh => "cosh",
            Function::Arcsinh => "arcsinh",
        })
    }
}

impl fmt::Display for UnknownFunction {
    fn fmt<W: fmt::Write>(&self, f: &mut fmt::Formatter<W>) -> fmt::Result {
        write!(f, "no function has the number {}", self.0)
    }
}

impl Error for UnknownFunction {}

// The function at x.
#[tactic(auto, unfolding(crate::specs::Numbered::numbered))]
pub fn value(function: Function, x: f64) -> f64
    ensures { result ≡ numbered (number function) x }
{
    match function {
        Function::Sqrt => ieee::sqrt(x),
        Function::Abs => scalar::abs(x),
        Function::MaxZero => scalar::max_zero(x),
        Function::Sin => elementary::sin(x),
        Function::Cos => elementary::cos(x),
        Function::Tan => elementary::tan(x),
        Function::Exp => elementary::exp(x),
        Function::Pow10 => elementary::pow10(x),
        Function::Ln => logarithm::ln(x),
        Function::Sinh => hyperbolic::sinh(x),
        Function::Cosh => hyperbolic::cosh(x),
        Function::Arcsinh => hyperbolic::arcsinh(x),
    }
}
