// The run over the input, line by line (document 01, "Events, store and result").
#![tactic(auto)]

ghost use Rattle.std.specs.Prelude.{◌+◌, ◌≤◌, length};
ghost use Rattle.model.specs.Machine.{outputs};
ghost use Rattle.state.specs.State.{Sound};
ghost use Rattle.usage.specs.Counts.{Counts};
ghost use Rattle.input.specs.Expands.{DropsLines, Expands};
ghost use Rattle.model.specs.Limits.{fuel_most, dead_least};

use answer::Turn;
use cycle::offer;
use faults::RunFault;
use matching::Script;
use model::LINE_MOST;
use scan::read_line;
use state::State;

// Drops n input lines, or all that are left: they are read and not measured.
// n counts lines, and is no place of the text: a slice would not say it.
// It asks for two parts of Sound, which cycle's offer asks for: they relate the state and the text, and are no fact of a type.
#[tactic(auto, using(crate::proofs::Lines::dropping_more, crate::proofs::Lines::input_ends))]
fn drop_lines(text: &[u8], n: usize, s: &mut State)
    requires { (s.old.at ≤ length text.now) × (s.old.line + length text.now ≤ fuel_most + s.old.at) }
    ensures { DropsLines text.now n s.old s.new }
{
    for dropped in 0..n {
        if s.at == text.len() {
            return;
        }
        s.set_input(read_line(text, s.at).next, s.line + 1);
    }
}

// Expands the input that is left, from the names that are stored on.
// It asks what cycle's offer asks, for its reasons: these facts relate the state, both outputs and the counts, which are lent, one by one as there.
pub fn expand_input(
    script: &Script,
    dead: &mut [u8],
    output: &mut [u8],
    second: &mut [u8],
    counts: &mut [usize],
    s: &mut State,
) -> Result<Turn, RunFault>
    requires { Sound script.now.text s.old (outputs output.old second.old)
        × (dead_least ≤ length dead.old) × Counts counts.old s.old.fuel }
    ensures { Expands script.now s.old
        (outputs output.old second.old) counts.old result
        s.new (outputs output.new second.new) counts.new }
{
    let text = script.marked.text;
    // how far the text is read stands in the state, which each line moves on, and a call may read on: no range
    while s.at < text.len() {
        let line = script.marked.read_input(s.at);
        let content = &text[s.at..line.end];
        s.set_input(line.next, s.line + 1);
        if LINE_MOST < content.len() {
            return Err(RunFault::LongInput);
        }
        let turn = offer(script, dead, output, second, counts, content, 0, s)?;
        let Turn::Back(n) = turn else {
            return Ok(turn);
        };
        drop_lines(text, n, s);
    }
    Ok(Turn::Ends)
}
