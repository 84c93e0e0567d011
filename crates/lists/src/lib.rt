// What several crates do with lists: copying, and whether places are there.
#![tactic(auto)]

ghost use Rattle.std.specs.Prelude.{◌≡◌, ◌+◌, leb};
ghost use Rattle.lists.specs.Copies.{copied};

// The elements of one slice into the first places of another, as far as both go.
#[tactic(auto, unfolding(crate::specs::Copies::copied))]
pub fn copy<T: Copy>(from: &[T], to: &mut [T])
    ensures { to.new ≡ copied from.now to.old }
{
    let n = from.len().min(to.len());
    to[..n].copy_from_slice(&from[..n]);
}

// Whether a run of m places from place `at` on lies within so many places.
pub fn within(at: usize, m: usize, places: usize) -> bool
    ensures { result ≡ leb (at + m) places }
{
    places.checked_sub(at).is_some_and(|rest| m <= rest)
}
