// What a pass of an iteration takes from the line it goes over (document 01, "A call's code"). The pass has to start
// in the line or at its end; nothing else is asked.
#![tactic(auto)]

ghost use Rattle.std.specs.Prelude.{◌≡◌, ◌≤◌, ◌<◌, length};
ghost use Rattle.pass.specs.Pass.{up_to, Takes, TakesCharacter};

use atom::scan_atom;
use character::read_character;
use faults::RunFault;
use model::Marks;
use scan::has_byte;

// What a pass takes: the piece ends before `end`, and the rest starts at `rest`.
#[derive(Clone, Copy, PartialEq, Eq)]
pub struct Taken {
    pub end: usize,
    // the byte that ended the piece
    pub delimiter: Option<u8>,
    pub rest: usize,
}

impl Taken {
    // A piece that no delimiter ended.
    fn up_to(end: usize) -> Self
        ensures { result ≡ up_to end }
    {
        Taken {
            end,
            delimiter: None,
            rest: end,
        }
    }
}

// With a list of delimiters, a pass takes the shortest row of atoms that stands before one of them or the end.
// `at` stays beside the line: a call keeps the place where its next pass goes on, and answers are places of the same line.
#[tactic(auto, using(crate::proofs::Pieces::taking_begins, crate::proofs::Pieces::taking_delimiter, crate::proofs::Pieces::taking_goes_on, crate::proofs::Pieces::taking_fails, atom::proofs::Atoms::atom_by_brackets))]
fn take_atoms(m: Marks, line: &[u8], at: usize, list: &[u8]) -> Result<Taken, RunFault>
    requires at_in_bounds { at ≤ length line.now }
    requires list_nonzero { 0 < length list.now }
    ensures { Takes m line.now at list.now result }
{
    // where an atom ends is found by reading it, so that the places are no range
    let mut end = at;
    while let Some(&b) = line.get(end) {
        if has_byte(list, b) {
            return Ok(Taken {
                end,
                delimiter: Some(b),
                rest: end + 1,
            });
        }
        let Some(next) = scan_atom(line, end, m.left, m.right).end else {
            return Err(RunFault::NoAtom);
        };
        end = next;
    }
    Ok(Taken::up_to(end))
}

// With no list, a pass takes one character, or nothing at the line's end.
// As in take_atoms, `at` is the place that the call keeps.
#[tactic(auto, using(crate::proofs::Pieces::takes_one, crate::proofs::Pieces::takes_nothing))]
fn take_character(line: &[u8], at: usize) -> Result<Taken, RunFault>
    requires { at ≤ length line.now }
    ensures { TakesCharacter line.now at result }
{
    let found = read_character(line, at)?;
    match found {
        Some(c) => Ok(Taken::up_to(at + c.len)),
        None => Ok(Taken::up_to(at)),
    }
}

// What a pass takes from the line, from `at` on. It finds nothing to take where with a list a bracket begins no atom, and without one a
// character is malformed.
// As in take_atoms, `at` is the place that the call keeps.
pub fn take_piece(m: Marks, line: &[u8], at: usize, list: &[u8]) -> Result<Taken, RunFault>
    requires { at ≤ length line.now }
    ensures { Takes m line.now at list.now result }
{
    if list.is_empty() {
        return take_character(line, at);
    }
    take_atoms(m, line, at, list)
}
