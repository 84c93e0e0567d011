// The sections of a cascade: a sample through as many of the four as are counted, whether the counted ones' coefficients are
// finite, and their reset.
ghost use Rattle.std.specs.Prelude.{◌≡◌, map, take};
ghost use Rattle.std.specs.Float.{binary64};
ghost use Rattle.cascade_theory.specs.Section.{cleared_section};
ghost use Rattle.sections.specs.View.{section_view};
ghost use Rattle.cascade_theory.specs.Parts.{sections_out, sections_next};
ghost use Rattle.cascade_theory.specs.Coefficients.{coefficients_of_sections};
ghost use Rattle.runs.specs.Runs.{all_finite};

use super::part::{Part, ProcessResult, process_if};
use super::section::Section;
use limits::MAX_SECTIONS;
use runs::Coefficients;

// A sample through the first `count` sections, from section 0 upward, and through all where that is above 4: four turns, so
// that no place depends on the count.
pub fn pass_sections(
    sections: [Section; MAX_SECTIONS],
    count: usize,
    x: f64,
) -> ProcessResult<[Section; MAX_SECTIONS]>
    ensures { (result.out ≡ sections_out binary64 count (map section_view sections) x)
        × (map section_view result.next ≡ sections_next binary64 count (map section_view sections) x) }
{
    let [s0, s1, s2, s3] = sections;
    let p0 = process_if(count > 0, s0, x);
    let p1 = process_if(count > 1, s1, p0.out);
    let p2 = process_if(count > 2, s2, p1.out);
    let p3 = process_if(count > 3, s3, p2.out);
    ProcessResult {
        out: p3.out,
        next: [p0.next, p1.next, p2.next, p3.next],
    }
}

// 02's Q-3: whether the coefficients of the first `count` sections, and of all where that is above 4, are all finite.
pub fn sections_are_finite(sections: [Section; MAX_SECTIONS], count: usize) -> bool
    ensures { result ≡ all_finite (coefficients_of_sections (take count (map section_view sections))) }
{
    sections
        .iter()
        .take(count)
        .all(|s| s.coefficients_are_finite())
}

// All four sections with carried values +0.
pub fn reset_sections(sections: [Section; MAX_SECTIONS]) -> [Section; MAX_SECTIONS]
    ensures { map section_view result ≡ map cleared_section (map section_view sections) }
{
    sections.map(|s| s.reset())
}
