// The public calls of STAGE2 (document 01, "Events, store and result"): check a text, fit a line against its templates, and run it.
// Each takes the text itself and a lent row of nodes, and fit and run a lent row of dead places. Fit and run leave the tree of a text that
// loads at the front of the row of nodes; what else these rows hold is free. No public function has a `requires`.
#![tactic(auto)]

ghost use Rattle.std.specs.Prelude.{◌≡◌, ◌≤◌, ◌<◌, length, false, IfSome};
ghost use Rattle.model.specs.Load as Load;
ghost use Rattle.model.specs.Load.{Loaded, loaded};
ghost use Rattle.model.specs.Machine.{rooms};
ghost use Rattle.model.specs.Results.{short_row, checked_as, check_text, without_pieces, fitted_in, fit_of_line, illegal, run_text};
ghost use Rattle.model.specs.FirstReading.{FitsFirst};
ghost use Rattle.faults.specs.Numbers.{fault_number};
ghost use Rattle.nodes.specs.SideBySide.{HoldsTree};
ghost use Rattle.prepare.specs.Prepares.{IsPrepared};
ghost use Rattle.model.specs.Runs.{Runs};
ghost use Rattle.model.specs.Demands.{FollowsExpansion};
ghost use Rattle.stage2.specs.Answers.{answer_of};
ghost use Rattle.stage2.specs.Rooms.{TestsRows, TestsRooms};
ghost use Rattle.model.specs.Limits.{macros_most, dead_least};

use faults::{Fault, RunFault};
use fit::{Choice, first_reading};
use load::load;
use macros::Table;
use model::{
    Checked, DEAD_LEAST, FUEL_MOST, Fitted, LINE_MOST, NODES_MOST, REPORT_LEAST, Ran, STORE_LEAST,
};
use nodes::Node;
use prepare::{Prepared, prepare};
use run::{refuse, run_prepared};

// Nine counts, as the answers have them: C callers read u64, of which From makes none of a count.
fn widen_nine(a: [usize; 9]) -> [u64; 9]
    ensures { result ≡ a }
{
    a.map(|n| n as u64)
}

// Whether a row of so many nodes is below the least legal length. Lengths and no rows, here and below: document 01's tests speak of these alone.
#[tactic(auto, unfolding(model::specs::Results::short_row))]
fn is_short(rows: usize) -> bool
    ensures { result ≡ short_row rows }
{
    rows < NODES_MOST
}

// Whether that row, or a row of so many bytes for dead places, is.
#[tactic(auto, unfolding(model::specs::Results::short_row, model::specs::Results::short_dead))]
fn lack_room(rows: usize, dead: usize) -> bool
    ensures { TestsRows rows dead result }
{
    is_short(rows) || dead < DEAD_LEAST
}

// A text checked, with a legal row of nodes. Numbers and lines are document 01's, here and below: C callers read 0 where there is none.
#[tactic(auto, using(crate::proofs::Results::checked_refused))]
fn check_in(text: &[u8]) -> Checked
    ensures { result ≡ checked_as (Load.load text.now) }
{
    let mut table = Table::default();
    // u64, as in widen_nine
    match load(text, &mut table) {
        Ok(loaded) => Checked {
            number: 0,
            line: loaded.line as u64,
        },
        Err(refused) => Checked {
            number: refused.fault.into(),
            line: refused.line as u64,
        },
    }
}

// Checks a text: 0 and the section's last line where it loads, else the number of its first fault and the fault's line.
#[tactic(auto, unfolding(model::specs::Results::check_text))]
pub fn check(text: &[u8], nodes: &mut [Node]) -> Checked
    ensures { result ≡ check_text (length nodes.old) text.now }
{
    if is_short(nodes.len()) {
        return Checked {
            number: Fault::Illegal.into(),
            line: 0,
        };
    }
    check_in(text)
}

// A fault and a line, with no pieces, no place taken up and no byte read.
#[tactic(auto, unfolding(model::specs::Results::without_pieces, model::specs::Results::nine))]
fn no_pieces(fault: Fault, line: usize) -> Fitted
    ensures { result ≡ without_pieces (fault_number fault) line }
{
    // u64, as in widen_nine; by hand, since Default says of an array what each element is, and the answer is told as a whole
    Fitted {
        number: fault.into(),
        line: line as u64,
        start: [0; 9],
        length: [0; 9],
        places: 0,
        bytes: 0,
    }
}

// What a choice comes to; the table says each template's line.
#[tactic(auto, unfolding(model::specs::Results::nine))]
fn answer_choice(table: &Table, c: Choice) -> Fitted
    requires { IfSome c.reading (λ r. r.template < macros_most) }
    ensures { result ≡ answer_of table.now c.reading c.places c.bytes }
{
    // u64 and by hand, as in no_pieces
    let none = Fitted {
        number: 0,
        line: 0,
        start: [0; 9],
        length: [0; 9],
        places: c.places as u64,
        bytes: c.bytes as u64,
    };
    match c.reading {
        None => none,
        Some(r) => Fitted {
            line: table.line_of(r.template) as u64,
            start: widen_nine(r.starts),
            length: widen_nine(r.lens),
            ..none
        },
    }
}

// A line fitted against the templates of a text that is prepared.
#[tactic(auto, using(crate::proofs::Results::fit_long))]
fn fit_prepared(text: &[u8], nodes: &[Node], dead: &mut [u8], t: &Prepared, line: &[u8]) -> Fitted
    requires { IsPrepared text.now nodes.now t.now × (dead_least ≤ length dead.old) }
    ensures { result ≡ fitted_in line.now (Load.load text.now) }
{
    if LINE_MOST < line.len() {
        return no_pieces(RunFault::LongInput.into(), 0);
    }
    let loaded = t.loaded;
    let choice = first_reading(loaded.marks, &nodes[..loaded.nodes], dead, line);
    answer_choice(&t.table, choice)
}

// Fits one line, taken whole, against the templates of a text: the first of all its readings, or line 0 where it is no call; how many
// places were taken up to find it; and how many bytes were read where the next atom was looked for.
// The 0 is document 01's, and C callers read it: no template stands on line 0.
#[tactic(auto, using(crate::proofs::Results::fit_legal, crate::proofs::Results::fit_refused))]
pub fn fit(text: &[u8], nodes: &mut [Node], dead: &mut [u8], line: &[u8]) -> Fitted
    ensures value { result ≡ fit_of_line (length nodes.old) (length dead.old) text.now line.now }
    ensures holds_tree { (t : Loaded) → Load.load text.now ≡ loaded t → 2048 ≤ length nodes.old → 51456 ≤ length dead.old
        → HoldsTree t nodes.new × (length line.now ≤ 200 → FitsFirst t line.now result) }
{
    if lack_room(nodes.len(), dead.len()) {
        return no_pieces(Fault::Illegal, 0);
    }
    match prepare(text, nodes) {
        Ok(prepared) => fit_prepared(text, nodes, dead, &prepared, line),
        Err(refused) => no_pieces(refused.fault.into(), refused.line),
    }
}

// Whether the fuel is not 1 to 1,000,000, the node row below 2,048, the row of dead places below 51,456, the store below 8,704 or the report
// below 2,048.
#[tactic(auto, unfolding(model::specs::Results::illegal, model::specs::Results::short_row, model::specs::Results::short_dead))]
fn is_illegal(fuel: u64, rows: usize, dead: usize, store: usize, report: usize) -> bool
    ensures { TestsRooms fuel rows dead store report result }
{
    !(1..=FUEL_MOST).contains(&fuel)
        || lack_room(rows, dead)
        || store < STORE_LEAST
        || report < REPORT_LEAST
}

// Runs a text. No more than 2,048 nodes and 51,456 bytes of the lent rows are used. Channel 3 is the output, and
// channel 4 the second one; either may have any length. The report says how often each template was chosen.
// The rows go along one by one, as in run.
pub fn run(
    text: &[u8],
    fuel: u64,
    nodes: &mut [Node],
    dead: &mut [u8],
    output: &mut [u8],
    second: &mut [u8],
    store: &mut [u8],
    report: &mut [u8],
) -> Ran
    ensures runs { Runs (run_text fuel (length nodes.old) (length dead.old)
        (rooms (length output.old) (length second.old)) (length store.old) (length report.old) text.now)
        output.old second.old store.old report.old result
        output.new second.new store.new report.new }
    ensures holds_tree { (t : Loaded) → Load.load text.now ≡ loaded t
        → illegal fuel (length nodes.old) (length dead.old) (length store.old) (length report.old) ≡ false
        → HoldsTree t nodes.new × FollowsExpansion t fuel output.old second.old store.old report.old result
        output.new second.new store.new report.new }
{
    if is_illegal(fuel, nodes.len(), dead.len(), store.len(), report.len()) {
        return refuse(Fault::Illegal.into(), 0);
    }
    let t = prepare(text, nodes);
    // `as`: fuel that is legal is at most 1,000,000, so that what usize::try_from would refuse cannot be
    run_prepared(
        text,
        nodes,
        dead,
        &t,
        fuel as usize,
        output,
        second,
        store,
        report,
    )
}
