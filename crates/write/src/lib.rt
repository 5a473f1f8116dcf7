// What is written to an output: a line, or a layout with the parameters in its fields, and a byte 10 after it.
#![tactic(auto)]

ghost use Rattle.std.specs.Prelude.{◌≡◌, ◌≤◌, length};
ghost use Rattle.write.specs.Output.{Puts, Writes, PassesThrough};
ghost use Rattle.model.specs.Machine.{outputs};
ghost use Rattle.model.specs.Text.{Bytes};

mod layout;

use buffer::copy;
use faults::RunFault;
pub use layout::Layout;
use model::Channel;
use state::State;

// What is written as a line: it says how many bytes it has, and fills a slice of so many with them.
pub trait Content {
    ghost bytes: { Self → Bytes };

    // How many bytes it has.
    fn count(&self) -> usize
        ensures { result ≡ length (bytes self.now) };

    // A slice of so many bytes becomes them.
    fn fill(&self, out: &mut [u8])
        requires { length out.old ≡ length (bytes self.now) }
        ensures { out.new ≡ bytes self.now };
}

// A line as it is.
#[derive(Clone, Copy)]
pub struct Line<'a> {
    pub bytes: &'a [u8],
}

impl<'a> Content for Line<'a> {
    ghost bytes = { λ s. s.bytes.now };

    fn count(&self) -> usize {
        self.bytes.len()
    }

    #[tactic(auto, using(crate::proofs::Lines::line_copied))]
    fn fill(&self, out: &mut [u8]) {
        copy(out, 0, self.bytes);
    }
}

// A content and a byte 10 come to the front of what is left of an output. The answer is how many bytes they are; without room for them the
// run ends with 13.
#[tactic(auto, using(crate::proofs::Lines::puts_line))]
fn put<C: Content>(content: &C, left: &mut [u8]) -> Result<usize, RunFault>
    ensures { Puts (C.bytes content.now) left.old result left.new }
{
    let n = content.count();
    if left.len() <= n {
        return Err(RunFault::NoRoom);
    }
    content.fill(&mut left[..n]);
    left[n] = b'\n';
    Ok(n + 1)
}

// A content and a byte 10 after it go to a channel. Without room for them nothing changes, and the run ends with 13.
// How much of each output is written stands in the state: the outputs are lent beside it, since a state borrows nothing.
// The outputs are no struct of two `&mut`: every function that is lent it would have to say that each is still the caller's reference (tried).
#[tactic(auto, using(crate::proofs::Lines::writes_nowhere))]
pub fn write<C: Content>(
    ch: Channel,
    content: &C,
    output: &mut [u8],
    second: &mut [u8],
    s: &mut State,
) -> Result<(), RunFault>
    requires { (s.old.written ≤ length output.old) × (s.old.second ≤ length second.old) }
    ensures { Writes ch (C.bytes content.now) s.old (outputs output.old second.old) result s.new (outputs output.new second.new) }
{
    match ch {
        Channel::Nowhere => {}
        Channel::First => s.written += put(content, &mut output[s.written..])?,
        Channel::Second => s.second += put(content, &mut second[s.second..])?,
    }
    Ok(())
}

// A line without a reading is written to the first output as it is.
// How much of the one output is written stands in the state, as in write. That it lies in it is a part of Sound, which cycle's offer asks.
#[tactic(auto, using(crate::proofs::Lines::passes_through))]
pub fn pass_through(line: &[u8], output: &mut [u8], s: &mut State) -> Result<(), RunFault>
    requires { s.old.written ≤ length output.old }
    ensures { PassesThrough line.now s.old output.old result s.new output.new }
{
    s.written += put(&Line { bytes: line }, &mut output[s.written..])?;
    Ok(())
}
