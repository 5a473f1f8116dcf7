// What a run goes by, what an offered line comes to up to a call, and the call that its reading opens (document 01, "Fitting a line" and "Events,
// store and result"). A line is counted when its reading is decided. open_reading asks what a reading of `fit` has in a text that is loaded: its
// pieces lie in the line, and its template has a body (`Opening`).
#![tactic(auto)]

ghost use Rattle.std.specs.Prelude.{◌+◌, ◌≤◌, ◌<◌, ◌≡◌, length, IfSome};
ghost use Rattle.model.specs.Limits.{macros_most, fuel_most};
ghost use Rattle.macros.specs.Table.{bodies_in};
ghost use Rattle.usage.specs.Counts.{Counts};
ghost use Rattle.matching.specs.Matches.{chosen_place, CountsDecided, Decides, Opening, Opened};

use call::Call;
use faults::RunFault;
use fit::{Choice, Reading};
use macros::Table;
use model::{CALLS_MOST, MACROS_MOST};
use nodes::Node;
use scan::Marked;
use state::State;
use std::marker::Model;
use usage::count_line;
use write::pass_through;

// What a run goes by: the text with its marks, the tree of its templates, and the table, which says where their bodies start.
// What makes one proves that the text is loaded into it. No ghost field says so, since the fact has more than one proof.
#[derive(Drop)]
pub struct Script<'a> {
    pub marked: Marked<'a>,
    pub nodes: &'a [Node],
    pub table: &'a Table,
}

impl<'a> Model for Script<'a> {
    ghost use Rattle.matching.specs.Book.{Basis, basis, Prepared};

    ghost Value = { Basis };

    ghost view = { λ s. basis s.marked.marks s.marked.text.now s.nodes.now s.table.now };

    ghost invariant = { λ s. Prepared (basis s.marked.marks s.marked.text.now s.nodes.now s.table.now) };
}

// Where a line is counted by its reading: at its template's place, or behind all templates where it has none.
fn find_count(found: &Choice) -> usize
    ensures { result ≡ chosen_place found.now.reading }
{
    match found.reading {
        Some(reading) => reading.template,
        None => MACROS_MOST,
    }
}

// Counts a line whose reading is decided, whatever follows; where no fuel is left it is not offered.
// Counts is asked for as cycle's offer asks it: it bounds each count by the fuel that is spent, and so relates what is lent to a state.
pub fn count_decided(found: &Choice, counts: &mut [usize], fuel: usize)
    requires { Counts counts.old fuel × IfSome found.now.reading (λ r. r.template < macros_most) }
    ensures { CountsDecided found.now.reading fuel counts.old counts.new }
{
    if 0 < fuel {
        count_line(counts, find_count(found));
    }
}

// What a line comes to by its reading, with `depth` calls open, up to the opening of a call: the run is spent, or an event is counted, and without a
// reading the line is written to the first output, and with one a call more may be one too many.
// It asks for two parts of Sound, which cycle's offer asks for: that relates the state and lent outputs, and is no fact of a type.
pub fn decide(
    found: &Choice,
    line: &[u8],
    output: &mut [u8],
    depth: usize,
    s: &mut State,
) -> Result<(), RunFault>
    requires { (s.old.written ≤ length output.old) × (s.old.events + s.old.fuel ≤ fuel_most) }
    ensures { Decides found.now.reading line.now depth s.old output.old result s.new output.new }
{
    if s.fuel == 0 {
        return Err(RunFault::NoFuel);
    }
    s.count_event();
    match found.reading {
        None => pass_through(line, output, s),
        Some(_) if depth == CALLS_MOST => Err(RunFault::DeepCall),
        Some(_) => Ok(()),
    }
}

// The call of the body of a reading's template, with the pieces of a line as its parameters. `number` says which of the run's calls it is.
#[tactic(auto, using(macros::proofs::Entries::bodies_in_at))]
pub fn open_reading(table: &Table, line: &[u8], reading: Reading, number: usize) -> Call
    requires { Opening line.now reading }
    ensures { Opened (bodies_in table.now) line.now reading number result }
{
    let next = table.entries[reading.template].body;
    Call::open(number, next, line, reading.starts, reading.lens)
}
