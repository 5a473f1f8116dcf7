// F2: the contents of the input lines that follow are copied to a channel, until one begins with parameter 1, which is dropped, or the input
// ends (document 02, ticket 4). Each line is compared, then measured, then written; on channel 0 it is compared and dropped. No event is counted.
// The outputs are no struct of two `&mut`: every function that is lent it would have to say that each is still the caller's reference (tried).
// Asked is that the call lies in the text: it is no fact of the type, since a call borrows no text.
// How much is written and read stands in the state, beside the outputs and the text: they are lent, and a state borrows nothing.
#![tactic(auto)]

ghost use Rattle.std.specs.Prelude.{◌≤◌, length};
ghost use Rattle.model.specs.Machine.{outputs};
ghost use Rattle.call.specs.Call.{Placed};
ghost use Rattle.copying.specs.Copies.{MeasuresLong, CopiesContent, CopiesLines, CopiesInput, ReadyToCopy};

use call::Call;
use faults::RunFault;
use model::{Channel, LINE_MOST};
use scan::Marked;
use state::State;
use write::{Line, write};

// Whether a content of n bytes is too long to be copied; a dropped one isn't measured.
#[tactic(auto, using(crate::proofs::Measured::long_nowhere, crate::proofs::Measured::long_written))]
fn is_too_long(ch: Channel, n: usize) -> bool
    ensures { MeasuresLong ch n result }
{
    match ch {
        Channel::Nowhere => false,
        Channel::First | Channel::Second => LINE_MOST < n,
    }
}

// A content goes to a channel, or the run ends with 11 or 13.
fn copy_content(
    ch: Channel,
    content: &[u8],
    output: &mut [u8],
    second: &mut [u8],
    s: &mut State,
) -> Result<(), RunFault>
    requires { (s.old.written ≤ length output.old) × (s.old.second ≤ length second.old) }
    ensures { CopiesContent ch content.now s.old (outputs output.old second.old) result s.new (outputs output.new second.new) }
{
    if is_too_long(ch, content.len()) {
        return Err(RunFault::LongInput);
    }
    write(ch, &Line { bytes: content }, output, second, s)
}

// The lines up to one that begins with the name, or up to the input's end.
fn copy_lines(
    marked: &Marked,
    ch: Channel,
    name: &[u8],
    output: &mut [u8],
    second: &mut [u8],
    s: &mut State,
) -> Result<(), RunFault>
    requires { ReadyToCopy marked.now.text.now s.old (outputs output.old second.old) }
    ensures { CopiesLines marked.now.marks marked.now.text.now ch name.now s.old
        (outputs output.old second.old) result s.new (outputs output.new second.new) }
{
    // how far the text is read stands in the state, which each line moves on: no range
    while s.at < marked.text.len() {
        let line = marked.read_input(s.at);
        let content = &marked.text[s.at..line.end];
        s.set_input(line.next, s.line + 1);
        if content.starts_with(name) {
            return Ok(());
        }
        copy_content(ch, content, output, second, s)?;
    }
    Ok(())
}

// F2 of a call. With an empty parameter 1 no line is read.
pub fn copy_input(
    marked: &Marked,
    ch: Channel,
    call: &Call,
    output: &mut [u8],
    second: &mut [u8],
    s: &mut State,
) -> Result<(), RunFault>
    requires { Placed marked.now.text.now call.now × ReadyToCopy marked.now.text.now s.old (outputs output.old second.old) }
    ensures { CopiesInput marked.now.marks marked.now.text.now ch call.now s.old
        (outputs output.old second.old) result s.new (outputs output.new second.new) }
{
    let name = call.param(1);
    if name.is_empty() {
        return Ok(());
    }
    copy_lines(marked, ch, name, output, second, s)
}
