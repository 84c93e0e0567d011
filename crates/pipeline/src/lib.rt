// Four sections in a row over a block of samples, skewed: each section works one sample behind the section before it, so
// that none waits for another within a turn. Operations and answers are those of one sample after the other. It is no part
// of what is promised.
#![tactic(auto)]

ghost use Rattle.std.specs.Prelude.{◌≡◌};
ghost use Rattle.std.specs.Float.{binary64};
ghost use Rattle.cascade_theory.specs.Skew.{filled, line_out, advanced, drained, ran};
ghost use Rattle.pipeline.specs.View.{four_view, line_view, drained_view, ran_view};

use limits::MAX_SECTIONS;
use sections::{Part, ProcessResult, Section};

// Four sections at work: each has taken one number fewer than the section before it.
#[derive(Clone, Copy)]
struct Line {
    sections: [Section; MAX_SECTIONS],
    // What sections 0, 1 and 2 answered last, which the sections behind them have yet to take.
    waiting: [f64; 3],
}

// The first three samples in, each as far as it goes.
#[tactic(auto, unfolding(cascade_theory::specs::Skew::filled))]
fn fill(sections: [Section; MAX_SECTIONS], x0: f64, x1: f64, x2: f64) -> Line
    ensures { line_view result ≡ filled binary64 (four_view sections) x0 x1 x2 }
{
    let [s0, s1, s2, s3] = sections;
    let a0 = s0.process(x0);
    let a1 = a0.next.process(x1);
    let a2 = a1.next.process(x2);
    let b0 = s1.process(a0.out);
    let b1 = b0.next.process(a1.out);
    let c0 = s2.process(b0.out);
    Line {
        sections: [a2.next, b1.next, c0.next, s3],
        waiting: [a2.out, b1.out, c0.out],
    }
}

// One sample in and one number out, that of three samples before.
#[tactic(auto, unfolding(cascade_theory::specs::Skew::line_out, cascade_theory::specs::Skew::advanced))]
fn advance(line: Line, x: f64) -> ProcessResult<Line>
    ensures { (result.out ≡ line_out binary64 (line_view line)) × (line_view result.next ≡ advanced binary64 (line_view line) x) }
{
    let [s0, s1, s2, s3] = line.sections;
    let [y0, y1, y2] = line.waiting;
    let a = s0.process(x);
    let b = s1.process(y0);
    let c = s2.process(y1);
    let d = s3.process(y2);
    ProcessResult {
        out: d.out,
        next: Line {
            sections: [a.next, b.next, c.next, d.next],
            waiting: [a.out, b.out, c.out],
        },
    }
}

// The numbers on their way, each to the end: the last three out of the line, and its sections after them.
#[tactic(auto, unfolding(cascade_theory::specs::Skew::drained))]
fn drain(line: Line) -> ([f64; 3], [Section; MAX_SECTIONS])
    ensures { drained_view result ≡ drained binary64 (line_view line) }
{
    let [s0, s1, s2, s3] = line.sections;
    let [y0, y1, y2] = line.waiting;
    let b = s1.process(y0);
    let c0 = s2.process(y1);
    let c1 = c0.next.process(b.out);
    let d0 = s3.process(y2);
    let d1 = d0.next.process(c0.out);
    let d2 = d1.next.process(c1.out);
    ([d0.out, d1.out, d2.out], [s0, b.next, c1.next, d2.next])
}

// Samples through four sections: the answers in the first places of the output, later places left, and the sections after
// them. Fewer than three samples, or more than the output has places, are not run, and change nothing.
#[tactic(auto, unfolding(cascade_theory::specs::Skew::ran))]
pub fn run(
    sections: [Section; MAX_SECTIONS],
    input: &[f64],
    output: &mut [f64],
) -> Option<[Section; MAX_SECTIONS]>
    ensures { ran_view sections result output.new ≡ ran binary64 (four_view sections) input.now output.old }
{
    let [x0, x1, x2, rest @ ..] = input else {
        return None;
    };
    if output.len() < input.len() {
        return None;
    }
    let mut line = fill(sections, *x0, *x1, *x2);
    for (i, x) in rest.iter().enumerate() {
        let a = advance(line, *x);
        output[i] = a.out;
        line = a.next;
    }
    let ([y0, y1, y2], after) = drain(line);
    let n = rest.len();
    // One by one: a copy of all three from an array waits for them in memory.
    output[n] = y0;
    output[n + 1] = y1;
    output[n + 2] = y2;
    Some(after)
}
