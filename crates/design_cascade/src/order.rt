// An order that has passed its check, and the pole pairs of one.
ghost use Rattle.std.specs.Prelude.{◌<◌, ◌≤◌};
ghost use Rattle.limits.specs.Limits.{max_sections, max_order};

// An order from 1 to MOST.
#[derive(Clone, Copy)]
pub(crate) struct Order<const MOST: usize> {
    pub(crate) value: usize,
    ghost above_zero: { 0 < value },
    ghost within_limit: { value ≤ MOST },
}

// Pole pair m of an order, from pair 0 on.
#[derive(Clone, Copy)]
pub(crate) struct PoleIndex {
    pub(crate) order: usize,
    pub(crate) m: usize,
    ghost above_zero: { 0 < order },
    ghost within_limit: { order ≤ max_order },
    ghost is_pair: { m < max_sections },
}
