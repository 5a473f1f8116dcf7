// Skips of code lines, by a value or where a test holds (document 01, "A call's code").
// Asked is that the call's place lies in the text: it is no fact of the type, since a call borrows no text.
// marked, call and s are three parameters: a struct of them would hold a `&mut`, and each clause would name the call behind its field.
#![tactic(auto)]

ghost use Rattle.std.specs.Prelude.{◌≤◌, length};
ghost use Rattle.code.specs.Tokens.{Parameter};
ghost use Rattle.skip.specs.Skips.{SkipsLines, ParamValue, Agrees, SkipsBy, SkipsIf, SkipsText, SkipsValue};

use answer::Turn;
use buffer::same_bytes;
use call::Call;
use faults::RunFault;
use landing::land_skip;
use model::{Comparison, Integer, Marks};
use number::compare;
use scan::Marked;
use state::State;
use store::Store;
use value::value;

// Skips v code lines; a negative skip ends the run with 18.
fn skip_lines(marked: &Marked, call: &mut Call, v: Integer) -> Result<Turn, RunFault>
    requires { call.old.next ≤ length marked.now.text.now }
    ensures { SkipsLines marked.now.marks marked.now.text.now call.old v result call.new }
{
    let Ok(n) = usize::try_from(v) else {
        return Err(RunFault::BadSkip);
    };
    land_skip(marked, call, n)
}

// The value of parameter d, or 15. d is a number from 1 to 9, here and below, as in call.
fn param_value(m: Marks, call: &Call, d: usize, store: &Store) -> Result<Integer, RunFault>
    requires { Parameter d }
    ensures { ParamValue m call.now d store.now result }
{
    value(m, store, call.param(d)).ok_or(RunFault::NoValue)
}

// Whether parameters 1 and 2 are the same text.
// same_bytes is `==` by the name of document 01's `same`: with `==` here, its proof would stand here once more.
fn params_agree(call: &Call) -> bool
    ensures { Agrees call.now result }
{
    same_bytes(call.param(1), call.param(2))
}

// F4 by parameter d.
pub fn skip_by(marked: &Marked, call: &mut Call, d: usize, s: &State) -> Result<Turn, RunFault>
    requires { Parameter d × (call.old.next ≤ length marked.now.text.now) }
    ensures { SkipsBy marked.now.marks marked.now.text.now call.old d s.now result call.new }
{
    let v = param_value(marked.marks, call, d, &s.store)?;
    skip_lines(marked, call, v)
}

// Where a test holds, a skip by parameter 3.
// The flag is the test's outcome: without it each of its two callers would have this `if`, with the same two proofs.
fn skip_if(marked: &Marked, call: &mut Call, holds: bool, s: &State) -> Result<Turn, RunFault>
    requires { call.old.next ≤ length marked.now.text.now }
    ensures { SkipsIf marked.now.marks marked.now.text.now holds call.old s.now result call.new }
{
    if holds {
        skip_by(marked, call, 3, s)
    } else {
        Ok(Turn::Continues)
    }
}

// F5: F50 wants equal texts, F51 unequal ones.
// What is wanted is a bool, which is compared with what is found: an enum of two would be turned into one first.
pub fn skip_text(marked: &Marked, call: &mut Call, equal: bool, s: &State) -> Result<Turn, RunFault>
    requires { call.old.next ≤ length marked.now.text.now }
    ensures { SkipsText marked.now.marks marked.now.text.now equal call.old s.now result call.new }
{
    let agree = params_agree(call);
    skip_if(marked, call, agree == equal, s)
}

// F6.
pub fn skip_value(
    marked: &Marked,
    call: &mut Call,
    how: Comparison,
    s: &State,
) -> Result<Turn, RunFault>
    requires { call.old.next ≤ length marked.now.text.now }
    ensures { SkipsValue marked.now.marks marked.now.text.now how call.old s.now result call.new }
{
    let a = param_value(marked.marks, call, 1, &s.store)?;
    let b = param_value(marked.marks, call, 2, &s.store)?;
    skip_if(marked, call, compare(how, a, b), s)
}
