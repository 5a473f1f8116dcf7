// An open call, and the line that its code builds (document 01, "A call's code").
// Asked is that a parameter's number is 1 to 9, that the pieces that a call is opened with lie in their line, and that what becomes a
// parameter or an iteration's text has at most 200 bytes. What a call says is free: a length counts as at most 200.
// A parameter's number stays a usize of 1 to 9: a type of its own would first be made of constants and of a code line's digits.
#![tactic(auto)]

ghost use Rattle.std.specs.Prelude.{◌≡◌, ◌≤◌, ◌<◌, length};
ghost use Rattle.call.specs.Call.{Holds, text_of};
ghost use Rattle.call.specs.Params.{PiecesInside, Opens, Reads, Sets, Delimiter, Delimits, DelimitsParam, Moves, Enters};
ghost use Rattle.call.specs.Line.{Appends};
ghost use Rattle.model.specs.Limits.{line_most, nesting_most};

use buffer::copy;
use faults::RunFault;
use model::{LINE_MOST, NESTING_MOST, PLACEHOLDERS_MOST};

// A text of at most 200 bytes.
// Its length stands beside its bytes, since the library has no heap, and an ArrayVec is not Copy.
#[derive(Clone, Copy)]
pub struct Text {
    pub len: usize,
    pub bytes: [u8; LINE_MOST],
}

impl Text {
    // The text of no byte.
    pub const EMPTY: Text = Text {
        len: 0,
        bytes: [0; LINE_MOST],
    };

    // A text by itself.
    // What becomes a text comes as a slice, here and below: as a type of at most 200 bytes it would be copied first.
    pub fn new(bytes: &[u8]) -> Text
        requires { length bytes.now ≤ line_most }
        ensures { Holds bytes.now result }
    {
        let mut text = Text::EMPTY;
        text.set(bytes);
        text
    }

    // Its bytes.
    pub fn as_bytes(&self) -> &[u8]
        ensures { result.now ≡ text_of self.now }
    {
        &self.bytes[..self.len.min(LINE_MOST)]
    }

    // It becomes another.
    #[tactic(auto, using(crate::proofs::Line::holds_copied))]
    pub fn set(&mut self, bytes: &[u8])
        requires { length bytes.now ≤ line_most }
        ensures { Holds bytes.now self.new }
    {
        copy(&mut self.bytes, 0, bytes);
        self.len = bytes.len();
    }

    // A part comes at its end, or it stays as it was where that would pass 200 bytes.
    #[tactic(auto, using(crate::proofs::Line::appends, crate::proofs::Line::too_long))]
    pub fn append(&mut self, part: &[u8]) -> Result<(), RunFault>
        ensures { Appends self.old part.now result self.new }
    {
        let n = self.as_bytes().len();
        if LINE_MOST - n < part.len() {
            return Err(RunFault::LongLine);
        }
        copy(&mut self.bytes, n, part);
        self.len = n + part.len();
        Ok(())
    }
}

// A parameter, with the byte that ended the latest piece of an iteration that it was.
#[derive(Clone, Copy)]
pub struct Param {
    pub text: Text,
    pub delimiter: Option<u8>,
}

impl Param {
    // The empty parameter, of which no pass was made.
    pub const EMPTY: Param = Param {
        text: Text::EMPTY,
        delimiter: None,
    };

    // It becomes another text; its delimiter stays.
    pub fn set(&mut self, bytes: &[u8])
        requires { length bytes.now ≤ line_most }
        ensures text { Holds bytes.now self.new.text }
        ensures delimiter { self.new.delimiter ≡ self.old.delimiter }
    {
        self.text.set(bytes);
    }

    // It gets another latest delimiter; its text stays.
    #[tactic(auto, using(crate::proofs::Calls::delimits_param))]
    pub fn set_delimiter(&mut self, delimiter: Option<u8>)
        ensures text { self.new.text ≡ self.old.text }
        ensures delimiter { self.new.delimiter ≡ delimiter }
        ensures call { DelimitsParam self.old delimiter self.new }
    {
        self.delimiter = delimiter;
    }
}

// A part of the text, by its places, as `after` and `next` below are places: a call borrows nothing, and std's Range is not Copy.
#[derive(Clone, Copy)]
pub struct Span {
    pub start: usize,
    pub end: usize,
}

// The passes of an ed7 over a line.
#[derive(Clone, Copy)]
pub struct Pieces {
    // the number of the parameter that each pass sets
    pub param: usize,
    // the list of delimiters
    pub list: Span,
    // where the rest of the line starts: a place, since a slice of `line` beside it would be lent by the struct itself
    pub from: usize,
    pub line: Text,
    // the parameter's value before them
    pub before: Text,
}

// How an iteration goes on: an eF7's by the passes left, an ed7's by its pieces.
// It is no Option: an iteration of either kind goes on.
#[derive(Clone, Copy)]
pub enum Kind {
    Count(usize),
    Pieces(Pieces),
}

// An iteration.
#[derive(Clone, Copy)]
pub struct Iteration {
    // where the code line after the opening line starts
    pub after: usize,
    pub kind: Kind,
}

impl Iteration {
    // One that makes no pass more: it fills the row past the open ones, where a None would be one more case at each use.
    pub const DONE: Iteration = Iteration {
        after: 0,
        kind: Kind::Count(0),
    };
}

// An open call.
#[derive(Clone, Copy)]
pub struct Call {
    // which of the run's calls it is, as e0k writes it
    pub number: usize,
    // where its next code line starts
    pub next: usize,
    pub params: [Param; PLACEHOLDERS_MOST],
    pub iterations: [Iteration; NESTING_MOST],
    // how many iterations are open, the innermost last; beside their row, since the library has no heap
    pub depth: usize,
}

impl Call {
    // A call with pieces of a line as its parameters: no pass was made yet, and no iteration is open.
    // starts and lens are two rows, as a reading has them, which the C interface answers so; of a zip with iter_mut a proof knows no element.
    // No array::from_fn: its closure would have to ask, for each place, that the piece lies in the line.
    pub fn open(
        number: usize,
        next: usize,
        line: &[u8],
        starts: [usize; PLACEHOLDERS_MOST],
        lens: [usize; PLACEHOLDERS_MOST],
    ) -> Call
        requires { PiecesInside line.now starts lens }
        ensures { Opens number next line.now starts lens result }
    {
        let mut params = [Param::EMPTY; PLACEHOLDERS_MOST];
        for (i, param) in params.iter_mut().enumerate() {
            param.set(&line[starts[i]..starts[i] + lens[i]]);
        }
        Call {
            number,
            next,
            params,
            iterations: [Iteration::DONE; NESTING_MOST],
            depth: 0,
        }
    }

    // Parameter d.
    #[tactic(auto, using(crate::proofs::Calls::reads))]
    pub fn param(&self, d: usize) -> &[u8]
        requires { (1 ≤ d) × (d ≤ 9) }
        ensures { Reads self.now d result.now }
    {
        self.params[d - 1].text.as_bytes()
    }

    // Parameter d becomes a part.
    #[tactic(auto, using(crate::proofs::Calls::sets))]
    pub fn set_param(&mut self, d: usize, part: &[u8])
        requires { (1 ≤ d) × (d ≤ 9) × (length part.now ≤ line_most) }
        ensures { Sets self.old d part.now self.new }
    {
        self.params[d - 1].set(part);
    }

    // The latest delimiter of parameter d.
    pub fn delimiter(&self, d: usize) -> Option<u8>
        requires { (1 ≤ d) × (d ≤ 9) }
        ensures { Delimiter self.now d result }
    {
        self.params[d - 1].delimiter
    }

    // It becomes another.
    #[tactic(auto, using(crate::proofs::Calls::delimits))]
    pub fn set_delimiter(&mut self, d: usize, delimiter: Option<u8>)
        requires { (1 ≤ d) × (d ≤ 9) }
        ensures { Delimits self.old d delimiter self.new }
    {
        let param = &mut self.params[d - 1];
        param.set_delimiter(delimiter);
    }

    // The call goes on at another code line.
    #[tactic(auto, unfolding(model::specs::Machine::resume_at))]
    pub fn move_to(&mut self, next: usize)
        ensures { Moves self.old next self.new }
    {
        self.next = next;
    }

    // An iteration begins in front of the next code line.
    // That fewer than four are open is asked: it follows from the text for a code line that opens one, and a call by itself may have four.
    #[tactic(auto, using(crate::proofs::Calls::enters))]
    pub fn enter(&mut self, kind: Kind)
        requires { self.old.depth < nesting_most }
        ensures enters { Enters self.old kind self.new }
        ensures params { self.new.params ≡ self.old.params }
    {
        self.iterations[self.depth] = Iteration {
            after: self.next,
            kind,
        };
        self.depth += 1;
    }
}
