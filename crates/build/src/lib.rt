// The line that a code line builds, part by part, and how the code line ends (document 01, "A call's code").
// `symbols` relates two fields of the state: as the fact of its type each method that changes neither would prove it again.
// A call's number is bounded as a part of Placed: as the fact of its type each method of a call that leaves it would prove it again.
// line and s are two parameters: a struct of them would hold two `&mut`s, and each clause would name both behind its fields.
#![tactic(auto)]

ghost use Rattle.std.specs.Prelude.{◌≤◌, length};
ghost use Rattle.build.specs.Built.{Ranges, AddsPart, Builds};
ghost use Rattle.model.specs.Limits.{fuel_most};

use call::{Call, Text};
use code::{Ending, Part, Token};
use faults::RunFault;
use model::Marks;
use state::State;

// A part comes at the end of the line.
#[tactic(auto, using(crate::proofs::Parts::part_byte, crate::proofs::Parts::part_serial, crate::proofs::Parts::part_convert))]
fn add_part(m: Marks, call: &Call, p: Part, line: &mut Text, s: &mut State) -> Result<(), RunFault>
    requires symbols { s.old.symbols ≤ length s.old.store }
    requires ranges { Ranges p × (call.now.number ≤ fuel_most) }
    ensures { AddsPart m call.now p line.old s.old result line.new s.new }
{
    match p {
        Part::Byte(b) => convert::add_byte(b, line),
        Part::Serial(k) => convert::add_number(call.number * 10 + k, line),
        Part::Convert(d, c) => convert::add_converted(
            m,
            c,
            call.param(d),
            call.delimiter(d),
            line,
            s,
        ),
    }
}

// The line that a code line builds in a call, in place of the one before.
pub fn build_line(
    m: Marks,
    code: &[u8],
    call: &Call,
    line: &mut Text,
    s: &mut State,
) -> Result<Ending, RunFault>
    requires symbols { s.old.symbols ≤ length s.old.store }
    requires number { call.now.number ≤ fuel_most }
    ensures { Builds m code.now call.now s.old line.new result s.new }
{
    line.set(&[]);
    // where a part ends is found by reading it, so that the places are no range
    let mut at = 0;
    loop {
        match code::read_token(m, code, at, at == 0) {
            Token::Ends(ending) => return Ok(ending),
            Token::Has(part, end) => {
                add_part(m, call, part, line, s)?;
                at = end;
            }
        }
    }
}
