// Where a skip of lines ends in a call, and what an answer comes to in the call that offered a line ("Skips").
// Asked is that the call's place lies in the text: it is no fact of the type, since a call borrows no text.
// marked and call are two parameters: a struct of them would hold a `&mut`, and each clause would name the call behind its field.
#![tactic(auto)]

ghost use Rattle.std.specs.Prelude.{◌≤◌, length};
ghost use Rattle.landing.specs.Landing.{LandsSkip, LandsTurn};

use answer::Turn;
use body::{Passed, pass_over};
use call::Call;
use faults::RunFault;
use scan::Marked;

// Skips n code lines of a call, and those past its end in its caller.
#[tactic(auto, using(crate::proofs::Leaves::lands_beyond))]
pub fn land_skip(marked: &Marked, call: &mut Call, n: usize) -> Result<Turn, RunFault>
    requires { call.old.next ≤ length marked.now.text.now }
    ensures { LandsSkip marked.now.marks marked.now.text.now call.old n result call.new }
{
    match pass_over(marked, call.next, n)? {
        Passed::Landed(next) => {
            call.move_to(next);
            Ok(Turn::Continues)
        }
        Passed::Beyond(k) => Ok(Turn::Back(k)),
    }
}

// What the answer to a line that a call offered comes to in that call.
pub fn land(
    marked: &Marked,
    call: &mut Call,
    answer: Result<Turn, RunFault>,
) -> Result<Turn, RunFault>
    requires { call.old.next ≤ length marked.now.text.now }
    ensures { LandsTurn marked.now.marks marked.now.text.now call.old answer result call.new }
{
    let turn = answer?;
    match turn {
        Turn::Back(n) => land_skip(marked, call, n),
        Turn::Continues | Turn::Offers | Turn::Ends => Ok(turn),
    }
}
