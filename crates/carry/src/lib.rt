// A code line of a call is carried out, but for the offering of what it builds (document 01, "A call's code").
// Sound is of the text, the state and both outputs, which are lent beside each other, so that it is no struct's.
// The outputs are no struct of two `&mut`: every function that is lent it would have to say that each is still the caller's reference (tried).
// Placed and Open say that the call lies in the text: that is no fact of its type, since a call borrows no text.
// marked and call are two parameters: a struct of them would hold a `&mut`, and each clause would name the call behind its field.
#![tactic(auto)]

ghost use Rattle.std.specs.Prelude.{◌≤◌, length};
ghost use Rattle.model.specs.Text.{part};
ghost use Rattle.model.specs.Machine.{outputs};
ghost use Rattle.state.specs.State.{Sound};
ghost use Rattle.call.specs.Call.{text_of, Placed};
ghost use Rattle.answer.specs.Kept.{Open};
ghost use Rattle.carry.specs.Carries.{ReadyToFinish, Finishes, Steps};

use answer::Turn;
use build::build_line;
use call::{Call, Span, Text};
use code::Ending;
use copying::copy_input;
use faults::RunFault;
use finish::{repeat, save, write_layout_line};
use iterate::{end_pass, start_pass};
use scan::Marked;
use skip::{skip_by, skip_text, skip_value};
use state::State;
use write::{Line, write};

// What is done at the end of a code line, with the line that it built. The call's next code line is the one after it.
// The code line is a part of the text by its places: an iteration that it opens keeps those of its delimiters.
#[tactic(auto, using(crate::proofs::Endings::iterate_within))]
fn finish_code(
    marked: &Marked,
    code: Span,
    call: &mut Call,
    ending: Ending,
    line: &[u8],
    output: &mut [u8],
    second: &mut [u8],
    s: &mut State,
) -> Result<Turn, RunFault>
    requires sound { Sound marked.now.text.now s.old (outputs output.old second.old) × Placed marked.now.text.now call.old }
    requires code_in_bounds { (code.start ≤ code.end) × (code.end ≤ length marked.now.text.now) }
    requires ready { ReadyToFinish (part marked.now.text.now code.start code.end) call.old ending line.now }
    ensures { Finishes marked.now.marks marked.now.text.now (part marked.now.text.now code.start code.end) call.old ending line.now s.old
        (outputs output.old second.old) result s.new call.new (outputs output.new second.new) }
{
    match ending {
        Ending::Offer => return Ok(Turn::Offers),
        Ending::Assign(d) => call.set_param(d, line),
        Ending::Iterate(d, list) => {
            let start = code.start + list;
            let list = Span { start, ..code };
            start_pass(marked, call, d, line, list)?;
        }
        Ending::Stop => return Ok(Turn::Ends),
        Ending::Write(ch) => write(ch, &Line { bytes: line }, output, second, s)?,
        Ending::Layout(ch) => write_layout_line(marked, ch, call, output, second, s)?,
        Ending::Copy(ch) => copy_input(marked, ch, call, output, second, s)?,
        Ending::Save => save(call, s)?,
        Ending::Skip => return skip_by(marked, call, 1, s),
        Ending::SkipText(equal) => return skip_text(marked, call, equal, s),
        Ending::SkipValue(how) => return skip_value(marked, call, how, s),
        Ending::Repeat => repeat(marked, call, line, s)?,
        Ending::Again => end_pass(marked, call)?,
        Ending::Leave => return Ok(Turn::Back(0)),
        Ending::Malformed => {}
    }
    Ok(Turn::Continues)
}

// The next code line of a call: an event is counted, the call moves past the line, and it is carried out. With no code line left the call
// is left; with no fuel left the run ends.
pub fn step(
    marked: &Marked,
    call: &mut Call,
    line: &mut Text,
    output: &mut [u8],
    second: &mut [u8],
    s: &mut State,
) -> Result<Turn, RunFault>
    requires { Sound marked.now.text.now s.old (outputs output.old second.old) × Open marked.now.marks marked.now.text.now call.old }
    ensures { Steps marked.now.marks marked.now.text.now call.old s.old (outputs output.old second.old)
        (text_of line.new) result s.new call.new (outputs output.new second.new) }
{
    let start = call.next;
    let Some(code) = marked.read_code(start) else {
        return Ok(Turn::Back(0));
    };
    if s.fuel == 0 {
        return Err(RunFault::NoFuel);
    }
    call.move_to(code.next);
    s.count_event();
    let bytes = &marked.text[start..code.end];
    let ending = build_line(marked.marks, bytes, call, line, s)?;
    let code = Span {
        start,
        end: code.end,
    };
    finish_code(
        marked,
        code,
        call,
        ending,
        line.as_bytes(),
        output,
        second,
        s,
    )
}
