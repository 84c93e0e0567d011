// 004's constants at f64. Each decimal form is the shortest that gives the bits beside it.
pub const ZERO: f64 = 0.0; // 0000000000000000

pub const ONE: f64 = 1.0; // 3FF0000000000000

pub const TWO: f64 = 2.0; // 4000000000000000

pub const HALF: f64 = 0.5; // 3FE0000000000000

pub const PI: f64 = 3.141592653589793; // 400921FB54442D18

pub const EPSILON: f64 = 2.220446049250313e-16; // 3CB0000000000000

// ln 2, and its two parts in the reductions of exp and ln: n * LN_2_HIGH is exact for the whole numbers n there.
pub const LN_2: f64 = 0.6931471805599453; // 3FE62E42FEFA39EF

pub const LN_2_HIGH: f64 = 0.6931471803691238; // 3FE62E42FEE00000

pub const LN_2_LOW: f64 = 1.9082149292705877e-10; // 3DEA39EF35793C76
