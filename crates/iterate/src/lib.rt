// The iterations of a call: begun, gone on with and ended (document 01, "A call's code"). Asked is that what the call says lies in the text
// (`Placed`; start_repeat asks it of the next code line alone), and where an iteration is begun, that fewer than four are open; start_pass
// asks too that its parameter's number is 1 to 9, that its line has at most 200 bytes and that its list of delimiters lies in the text.
// That fewer than four iterations are open is asked where one begins: it follows from the text, and a call by itself may have four.
// What becomes a text is a slice of at most 200 bytes, and a parameter's number a usize of 1 to 9, as in call, for its reasons.
// That a call lies in the text is asked, and is no fact of the type, since a call borrows no text.
// marked and call are two parameters, as are an iteration and params: a struct of two would hold `&mut`s, which each clause would name behind fields.
#![tactic(auto)]

ghost use Rattle.std.specs.Prelude.{◌≡◌, ◌≤◌, ◌<◌, length};
ghost use Rattle.call.specs.Call.{Holds, PlacedPieces, PlacedLoop, Placed};
ghost use Rattle.iterate.specs.Iterate.{TakesPass, GoesOn, StartsPass, EndsPass, CountsPasses, StartsRepeat};
ghost use Rattle.model.specs.Limits.{line_most, nesting_most};

use body::past_loop;
use call::{Call, Iteration, Kind, Param, Pieces, Span, Text};
use faults::RunFault;
use model::{Integer, PLACEHOLDERS_MOST};
use pass::take_piece;
use scan::Marked;

// A parameter becomes a piece that this byte ended.
fn set_piece(param: &mut Param, piece: &[u8], delimiter: Option<u8>)
    requires { length piece.now ≤ line_most }
    ensures text { Holds piece.now param.new.text }
    ensures delimiter { param.new.delimiter ≡ delimiter }
{
    param.set(piece);
    param.set_delimiter(delimiter);
}

// An ed7 makes a pass over the rest of its line.
fn take_pass(
    marked: &Marked,
    pieces: &mut Pieces,
    params: &mut [Param; PLACEHOLDERS_MOST],
) -> Result<(), RunFault>
    requires { PlacedPieces marked.now.text.now pieces.old }
    ensures { TakesPass marked.now.marks marked.now.text.now pieces.old params.old result pieces.new params.new }
{
    let line = pieces.line.as_bytes();
    let from = pieces.from;
    let list = &marked.text[pieces.list.start..pieces.list.end];
    let taken = take_piece(marked.marks, line, from, list)?;
    set_piece(
        &mut params[pieces.param - 1],
        &line[from..taken.end],
        taken.delimiter,
    );
    pieces.from = taken.rest;
    Ok(())
}

// ed7: the first pass over the line, with a list of delimiters.
pub fn start_pass(
    marked: &Marked,
    call: &mut Call,
    d: usize,
    line: &[u8],
    list: Span,
) -> Result<(), RunFault>
    requires placed { Placed marked.now.text.now call.old }
    requires depth_lt_nesting_most { (call.old.depth < nesting_most) × ((1 ≤ d) × (d ≤ 9)) }
    requires line_len_bound { (length line.now ≤ line_most) × ((list.start ≤ list.end) × (list.end ≤ length marked.now.text.now)) }
    ensures { StartsPass marked.now.marks marked.now.text.now call.old d line.now list.start list.end result call.new }
{
    let mut pieces = Pieces {
        param: d,
        list,
        from: 0,
        line: Text::new(line),
        before: call.params[d - 1].text,
    };
    take_pass(marked, &mut pieces, &mut call.params)?;
    call.enter(Kind::Pieces(pieces));
    Ok(())
}

// Where the call goes on if an iteration makes another pass. Where an ed7 makes none, its parameter regains its old value.
fn pass_again(
    marked: &Marked,
    iteration: &mut Iteration,
    params: &mut [Param; PLACEHOLDERS_MOST],
) -> Result<Option<usize>, RunFault>
    requires { PlacedLoop marked.now.text.now iteration.old }
    ensures { GoesOn marked.now.marks marked.now.text.now iteration.old params.old result iteration.new params.new }
{
    match &mut iteration.kind {
        Kind::Count(0) => return Ok(None),
        Kind::Count(left) => *left -= 1,
        Kind::Pieces(pieces) if pieces.from < pieces.line.as_bytes().len() => {
            take_pass(marked, pieces, params)?
        }
        Kind::Pieces(pieces) => {
            params[pieces.param - 1].set(pieces.before.as_bytes());
            return Ok(None);
        }
    }
    Ok(Some(iteration.after))
}

// eF8: the innermost iteration's next pass, or its end.
pub fn end_pass(marked: &Marked, call: &mut Call) -> Result<(), RunFault>
    requires { Placed marked.now.text.now call.old }
    ensures { EndsPass marked.now.marks marked.now.text.now call.old result call.new }
{
    let Some(i) = call.depth.checked_sub(1) else {
        return Ok(());
    };
    match pass_again(marked, &mut call.iterations[i], &mut call.params)? {
        Some(after) => call.next = after,
        None => call.depth = i,
    }
    Ok(())
}

// The number of passes that a value asks for.
#[tactic(auto, using(crate::proofs::Repeats::counts))]
fn count_passes(v: Integer) -> usize
    ensures { CountsPasses v result }
{
    usize::try_from(v).unwrap_or(0)
}

// eF7: so many passes; 0 or less skips past the matching eF8.
pub fn start_repeat(marked: &Marked, call: &mut Call, v: Integer)
    requires next_in_bounds { call.old.next ≤ length marked.now.text.now }
    requires depth_lt_nesting_most { call.old.depth < nesting_most }
    ensures { StartsRepeat marked.now.marks marked.now.text.now call.old v call.new }
{
    match count_passes(v).checked_sub(1) {
        None => call.move_to(past_loop(marked, call.next)),
        Some(left) => call.enter(Kind::Count(left)),
    }
}
