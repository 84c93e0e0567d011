// How a cascade stands in slices that a caller lends: its numbers and three counts (include/pulse.h).
#![tactic(auto)]

ghost use Rattle.std.specs.Prelude.{◌≡◌, cond, option_map};
ghost use Rattle.sections.specs.View.{section_view};
ghost use Rattle.cascade_theory.specs.Cascade.{blank_cascade};
ghost use Rattle.cascade.specs.View.{cascade_view};
ghost use Rattle.c_layout.specs.Layout.{section_at, cascade_places, cascade_fits, cascade_at, cascade_in};
ghost use Rattle.c_layout.specs.Layout.{section_numbers, cascade_numbers, cascade_counts};

use cascade::Cascade;
use limits::MAX_SECTIONS;
use sections::{FirstOrder, Section};

// How many numbers a section has, and a first-order part.
const SECTION: usize = 7;

const FIRST: usize = 4;

// How many numbers a cascade has: its sections', and the first-order part's behind them.
const NUMBERS: usize = SECTION * MAX_SECTIONS + FIRST;

// How many counts either kind of record has.
pub const COUNTS: usize = 3;

// A section by its numbers.
fn section(numbers: [f64; SECTION]) -> Section
    ensures { section_view result ≡ section_at numbers 0 }
{
    let [b0, b1, b2, a1, a2, w1, w2] = numbers;
    Section {
        b0,
        b1,
        b2,
        a1,
        a2,
        w1,
        w2,
    }
}

// A section's numbers.
fn section_numbers(s: Section) -> [f64; SECTION]
    ensures { result ≡ section_numbers (section_view s) }
{
    [s.b0, s.b1, s.b2, s.a1, s.a2, s.w1, s.w2]
}

// Whether slices have the places of a cascade.
#[tactic(auto, using(std::proofs::lemmas::Bool::Decides::nat_tests), unfolding(crate::specs::Layout::cascade_places))]
pub fn has_places(numbers: &[f64], counts: &[usize]) -> bool
    ensures { result ≡ cascade_places numbers.now counts.now }
{
    numbers.len() == NUMBERS && counts.len() == COUNTS
}

// Whether slices can be a cascade: they have its places, and each flag is 0 or 1.
pub fn fits(numbers: &[f64], counts: &[usize]) -> bool
    ensures { result ≡ cascade_fits numbers.now counts.now }
{
    if !has_places(numbers, counts) {
        return false;
    }
    counts[1] <= 1 && counts[2] <= 1
}

// The cascade that a cascade's places hold.
fn assembled(numbers: &[f64; NUMBERS], counts: &[usize; COUNTS]) -> Cascade
    ensures { cascade_view result ≡ cascade_at numbers.now counts.now }
{
    let (sections, first) = numbers.as_chunks::<SECTION>();
    let sections = sections.as_array::<MAX_SECTIONS>().unwrap();
    let &[b0, b1, a1, w] = first.as_array::<FIRST>().unwrap();
    let &[count, has_first, clouded] = counts;
    Cascade {
        sections: sections.map(section),
        count,
        first: FirstOrder { b0, b1, a1, w },
        has_first: has_first == 1,
        clouded: clouded == 1,
    }
}

// The cascade that slices hold; the blank one where they do not have its places.
pub fn read(numbers: &[f64], counts: &[usize]) -> Cascade
    ensures { cascade_view result ≡ cond (cascade_places numbers.now counts.now) (cascade_at numbers.now counts.now)
        blank_cascade }
{
    let Some(numbers) = numbers.as_array() else {
        return Cascade::blank();
    };
    let Some(counts) = counts.as_array() else {
        return Cascade::blank();
    };
    assembled(numbers, counts)
}

// The cascade that slices hold; none where they cannot be one.
pub fn cascade_in(numbers: &[f64], counts: &[usize]) -> Option<Cascade>
    ensures { option_map cascade_view result ≡ cascade_in numbers.now counts.now }
{
    if fits(numbers, counts) {
        Some(read(numbers, counts))
    } else {
        None
    }
}

// A cascade into its places.
fn put(c: Cascade, numbers: &mut [f64; NUMBERS], counts: &mut [usize; COUNTS])
    ensures numbers { numbers.new ≡ cascade_numbers (cascade_view c) }
    ensures counts { counts.new ≡ cascade_counts (cascade_view c) }
{
    let sections = c.sections.map(section_numbers);
    let FirstOrder { b0, b1, a1, w } = c.first;
    let (of_sections, of_first) = numbers.split_at_mut(SECTION * MAX_SECTIONS);
    of_sections.copy_from_slice(sections.as_flattened());
    of_first.copy_from_slice(&[b0, b1, a1, w]);
    *counts = [c.count, usize::from(c.has_first), usize::from(c.clouded)];
}

// A cascade into slices, and true; or false and the slices as they were, where they do not have its places. The answer is a bool: no
// value and no number comes with it.
pub fn write(c: Cascade, numbers: &mut [f64], counts: &mut [usize]) -> bool
    ensures { (result ≡ cascade_places numbers.old counts.old)
        × (numbers.new ≡ cond (cascade_places numbers.old counts.old) (cascade_numbers (cascade_view c)) numbers.old)
        × (counts.new ≡ cond (cascade_places numbers.old counts.old) (cascade_counts (cascade_view c)) counts.old) }
{
    let Some(numbers) = numbers.as_mut_array() else {
        return false;
    };
    let Some(counts) = counts.as_mut_array() else {
        return false;
    };
    put(c, numbers, counts);
    true
}
