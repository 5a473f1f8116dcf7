// Ways to end a code line that are more than one step (document 01, "A call's code"): a layout, a text that is stored, and a count of passes.
// Asked is that the call lies in the text: it is no fact of the type, since a call borrows no text.
// Asked of the state is, as of write's, that what is written lies in the outputs, which are lent beside it.
// That fewer than four iterations are open is asked where one begins: it follows from the text, and a call by itself may have four.
// marked and call are two parameters: a struct of them would hold a `&mut`, and each clause would name the call behind its field.
#![tactic(auto)]

ghost use Rattle.std.specs.Prelude.{◌≡◌, ◌≤◌, ◌<◌, length};
ghost use Rattle.model.specs.Machine.{outputs};
ghost use Rattle.call.specs.Call.{Placed};
ghost use Rattle.finish.specs.Leaves.{WritesLayoutLine, Saves, Repeats};
ghost use Rattle.model.specs.Limits.{nesting_most};

use call::Call;
use faults::RunFault;
use iterate::start_repeat;
use model::Channel;
use scan::Marked;
use state::State;
use value::value;
use write::{Layout, write};

// F1 at the line's start: the next code line is a layout, written in place of the line.
// The outputs are no struct of two `&mut`: every function that is lent it would have to say that each is still the caller's reference (tried).
pub fn write_layout_line(
    marked: &Marked,
    ch: Channel,
    call: &mut Call,
    output: &mut [u8],
    second: &mut [u8],
    s: &mut State,
) -> Result<(), RunFault>
    requires placed { Placed marked.now.text.now call.old }
    requires written_in_bounds { (s.old.written ≤ length output.old) × (s.old.second ≤ length second.old) }
    ensures { WritesLayoutLine marked.now.marks marked.now.text.now ch call.old s.old (outputs output.old second.old) result call.new s.new (outputs output.new second.new) }
{
    let at = call.next;
    let Some(line) = marked.read_code(at) else {
        return Ok(());
    };
    let layout = Layout {
        m: marked.marks,
        text: &marked.text[at..line.end],
        call,
    };
    write(ch, &layout, output, second, s)?;
    call.move_to(line.next);
    Ok(())
}

// F3: parameter 2 is stored under parameter 1.
#[tactic(auto, using(crate::proofs::Storing::saves))]
pub fn save(call: &Call, s: &mut State) -> Result<(), RunFault>
    ensures { Saves call.now s.old result s.new }
{
    s.store.put(call.param(1), call.param(2))?;
    Ok(())
}

// F7: as many passes as the line's value.
pub fn repeat(marked: &Marked, call: &mut Call, line: &[u8], s: &State) -> Result<(), RunFault>
    requires { (call.old.next ≤ length marked.now.text.now) × (call.old.depth < nesting_most) }
    ensures { Repeats marked.now.marks marked.now.text.now call.old line.now s.now result call.new }
{
    let v = value(marked.marks, &s.store, line).ok_or(RunFault::NoValue)?;
    start_repeat(marked, call, v);
    Ok(())
}
