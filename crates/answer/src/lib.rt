// What a code line, a body and an offered line come to: a turn, or the fault that ends the run.
#![tactic(auto)]

ghost use Rattle.std.specs.Prelude.{◌≡◌, Ok};
ghost use Rattle.answer.specs.Answers.{is_left};

use faults::RunFault;

// What comes next where no fault ends the run. It is no Option or Result: each of the four is a way of its own.
#[derive(Clone, Copy)]
pub enum Turn {
    // The call goes on.
    Continues,
    // The call goes on once the line that it built is offered.
    Offers,
    // The call is left, or the line that was offered is done with; so many lines are skipped in the caller, or of the input.
    Back(usize),
    // The run ends as it should: at the end of its input, or where a code line says so.
    Ends,
}

impl Turn {
    // Whether the call is left, or the run ends.
    pub fn is_left(self) -> bool
        ensures { result ≡ is_left (Ok self) }
    {
        matches!(self, Turn::Back(_) | Turn::Ends)
    }
}

// Whether the call is left, or the run ends, by a fault too.
pub fn is_left(answer: Result<Turn, RunFault>) -> bool
    ensures { result ≡ is_left answer }
{
    match answer {
        Ok(turn) => turn.is_left(),
        Err(_) => true,
    }
}
