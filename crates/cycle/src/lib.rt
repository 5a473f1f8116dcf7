// Offering a line and running a body call each other under fuel (document 01, "Events, store and result"). The fuel falls with
// each line that is offered and each code line that is begun. Of the lent rows, `dead` is the search's alone: it has bits for the places of the
// tree's nodes; `counts` says how often each template was chosen.
// Sound stays a clause of each function: it relates the text, the state and both outputs, which are lent beside each other.
// Counts stays one too: it changes only where a line is offered, and as a part of the state every code line would have to say that it stays.
// The lent rows are no struct of `&mut`s: every function that is lent it would have to say that each is still the caller's reference (tried).
// Open stays one as in carry, since a call borrows no text, and the least length of `dead`, here and in input, since C lends a slice of any length.
// The three functions ask for the same, since they call each other.
#![tactic(auto)]

ghost use Rattle.std.proofs.Math.Option.{none, some};
ghost use Rattle.std.specs.Prelude.{[], ◌∷◌, ◌≤◌, ◌<◌, length};
ghost use Rattle.model.specs.Machine.{outputs};
ghost use Rattle.state.specs.State.{Sound};
ghost use Rattle.call.specs.Call.{frame_of};
ghost use Rattle.usage.specs.Counts.{Counts};
ghost use Rattle.answer.specs.Kept.{Open};
ghost use Rattle.cycle_laws.specs.Meets.{Meets, Advances};
ghost use Rattle.model.specs.Limits.{line_most, calls_most, dead_least};

use answer::{Turn, is_left};
use call::{Call, Text};
use carry::step;
use faults::RunFault;
use fit::first_reading;
use landing::land;
use matching::{Script, count_decided, decide, open_reading};
use state::State;

// Offers a line, with `depth` calls open, and runs the call that it opens.
#[cycle(calls)]
pub fn offer(
    script: &Script,
    dead: &mut [u8],
    output: &mut [u8],
    second: &mut [u8],
    counts: &mut [usize],
    line: &[u8],
    depth: usize,
    s: &mut State,
) -> Result<Turn, RunFault>
    requires { Sound script.now.text s.old (outputs output.old second.old)
        × (length line.now ≤ line_most) × (depth ≤ calls_most) × (dead_least ≤ length dead.old)
        × Counts counts.old s.old.fuel }
    ensures { Meets script.now (some line.now) []
        depth s.old (outputs output.old second.old) counts.old result
        s.new (outputs output.new second.new) counts.new }
{
    let found = first_reading(script.marked.marks, script.nodes, dead, line);
    count_decided(&found, counts, s.fuel);
    decide(&found, line, output, depth, s)?;
    let Some(reading) = found.reading else {
        return Ok(Turn::Back(0));
    };
    s.add_call();
    let call = open_reading(script.table, line, reading, s.calls);
    body(script, dead, output, second, counts, call, depth, s)
}

// Runs a call that is opened, with `depth` callers.
#[cycle(calls)]
fn body(
    script: &Script,
    dead: &mut [u8],
    output: &mut [u8],
    second: &mut [u8],
    counts: &mut [usize],
    mut call: Call,
    depth: usize,
    s: &mut State,
) -> Result<Turn, RunFault>
    requires { Sound script.now.text s.old (outputs output.old second.old)
        × Open script.now.marks script.now.text call × (depth < calls_most) × (dead_least ≤ length dead.old)
        × Counts counts.old s.old.fuel }
    ensures { Meets script.now none (frame_of script.now.marks script.now.text call ∷ [])
        depth s.old (outputs output.old second.old) counts.old result
        s.new (outputs output.new second.new) counts.new }
{
    // the answers are not counted: the last one is that with which the call is left
    loop {
        let answer = advance(script, dead, output, second, counts, &mut call, depth, s);
        if is_left(answer) {
            return answer;
        }
    }
}

// Carries out the next code line of a call, which has `depth` callers, and offers the line that it builds.
#[cycle(calls)]
fn advance(
    script: &Script,
    dead: &mut [u8],
    output: &mut [u8],
    second: &mut [u8],
    counts: &mut [usize],
    call: &mut Call,
    depth: usize,
    s: &mut State,
) -> Result<Turn, RunFault>
    requires { Sound script.now.text s.old (outputs output.old second.old)
        × Open script.now.marks script.now.text call.old × (depth < calls_most) × (dead_least ≤ length dead.old)
        × Counts counts.old s.old.fuel }
    ensures { Advances script.now call.old
        depth s.old (outputs output.old second.old) counts.old result
        s.new call.new (outputs output.new second.new) counts.new }
{
    let mut line = Text::EMPTY;
    let turn = step(&script.marked, call, &mut line, output, second, s)?;
    let Turn::Offers = turn else {
        return Ok(turn);
    };
    let offered = offer(
        script,
        dead,
        output,
        second,
        counts,
        line.as_bytes(),
        depth + 1,
        s,
    );
    land(&script.marked, call, offered)
}
