// Passing over code lines of a body: for a skip, and past an iteration that makes no pass.
// Places, and no slices of what is left, here and below: calls and the state keep them, and borrow nothing; so that each lies in the text is asked.
#![tactic(auto)]

ghost use Rattle.std.specs.Prelude.{◌≤◌, length};
ghost use Rattle.body.specs.Steps.{DropsFirst, StepsOver, PassesOver, Leaves};

use faults::RunFault;
use model::Effect;
use scan::Marked;

// What a skip of code lines comes to: the place of the line landed on, or the lines left at the body's end.
// A caller goes on with either, so that it is no Option and no Result.
#[derive(Clone, Copy)]
pub enum Passed {
    Landed(usize),
    Beyond(usize),
}

// What one code line passed over comes to: the body's end, the end of the iteration around it with the place after it, or
// the place of the next code line and how many iterations are then open. These are three, so that it is no Option.
#[derive(Clone, Copy)]
enum Stepped {
    Ended,
    Closed(usize),
    On(usize, usize),
}

// The place after the line at `at`, if there is one there.
pub fn skip_layout(marked: &Marked, at: usize) -> usize
    requires { at ≤ length marked.now.text.now }
    ensures { DropsFirst marked.now.marks marked.now.text.now at result }
{
    match marked.read_code(at) {
        Some(line) => line.next,
        None => at,
    }
}

// Passes over the code line at `at`, a layout with its owner; `depth` iterations were opened on the way there. The two make no struct, since
// each loop below tests the depth and answers the place.
fn step_over(marked: &Marked, at: usize, depth: usize) -> Stepped
    requires { (at ≤ length marked.now.text.now) × (depth ≤ at) }
    ensures { StepsOver marked.now.marks marked.now.text.now at depth result }
{
    let Some(line) = marked.read_code(at) else {
        return Stepped::Ended;
    };
    let next = line.next;
    match code::read_effect(marked.marks, &marked.text[at..line.end]) {
        Effect::Malformed | Effect::Plain => Stepped::On(next, depth),
        Effect::Opens => Stepped::On(next, depth + 1),
        Effect::Closes => match depth.checked_sub(1) {
            Some(outer) => Stepped::On(next, outer),
            None => Stepped::Closed(next),
        },
        Effect::Owns => Stepped::On(skip_layout(marked, next), depth),
    }
}

// Passes over n code lines from `at` on. The line landed on must lie in the iterations of the line skipped from, and a body's end
// lies in none: else the skip is bad.
#[tactic(auto, using(crate::proofs::Laws::landed, crate::proofs::Laws::open_landing, crate::proofs::Laws::beyond_end, crate::proofs::Laws::open_end))]
pub fn pass_over(marked: &Marked, at: usize, n: usize) -> Result<Passed, RunFault>
    requires { at ≤ length marked.now.text.now }
    ensures { PassesOver marked.now.marks marked.now.text.now at n result }
{
    let mut i = at;
    let mut depth: usize = 0;
    for passed in 0..n {
        match step_over(marked, i, depth) {
            Stepped::Ended if depth == 0 => return Ok(Passed::Beyond(n - passed)),
            Stepped::Ended | Stepped::Closed(_) => return Err(RunFault::BadSkip),
            Stepped::On(p, d) => (i, depth) = (p, d),
        }
    }
    if depth == 0 {
        Ok(Passed::Landed(i))
    } else {
        Err(RunFault::BadSkip)
    }
}

// The place past the end of the iteration whose first code line is at `at`.
#[tactic(auto, using(crate::proofs::Laws::leaving_ended))]
pub fn past_loop(marked: &Marked, at: usize) -> usize
    requires { at ≤ length marked.now.text.now }
    ensures { Leaves marked.now.marks marked.now.text.now at result }
{
    // where the next code line starts is what the step says, so that the places are no range
    let mut i = at;
    let mut depth: usize = 0;
    loop {
        match step_over(marked, i, depth) {
            Stepped::Ended => return i,
            Stepped::Closed(p) => return p,
            Stepped::On(p, d) => (i, depth) = (p, d),
        }
    }
}
