// The run of a text that is prepared (document 01, "Events, store and result"): its input is expanded with the caller's fuel into
// the caller's outputs, the names that were stored are listed in the caller's store, and how often each template was chosen is printed
// in the caller's report.
// The rows go along one by one, with their least lengths as clauses: C lends each as a slice, and as one struct of `&mut`s each function would
// have to say that all are still the caller's references.
#![tactic(auto)]

ghost use Rattle.std.specs.Prelude.{◌≡◌, ◌≤◌, length};
ghost use Rattle.model.specs.Load as Load;
ghost use Rattle.model.specs.Machine as Machine;
ghost use Rattle.model.specs.Machine.{rooms, no_run};
ghost use Rattle.model.specs.Results.{ran_as};
ghost use Rattle.prepare.specs.Prepares.{Prepares};
ghost use Rattle.model.specs.Runs.{Runs};
ghost use Rattle.answer.specs.Answers.{end_number};
ghost use Rattle.run.specs.Inner.{ReadyToRun, start_of, EndsRun};
ghost use Rattle.model.specs.Limits.{store_least, dead_least, report_least, fuel_most};

use answer::Turn;
use faults::RunFault;
use input::expand_input;
use load::{Loaded, Refused};
use matching::Script;
use model::Ran;
use nodes::Node;
use prepare::Prepared;
use scan::Marked;
use state::State;
use store::Store;
use usage::{COUNTS_SIZE, print_report};

// A number of the table of numbers and a line; nothing is written. C callers read u64, of which From makes none of a count.
// The zeroes stand by hand: `model`, which declares the type, has no function, and a derived Default would be one.
#[tactic(auto, unfolding(model::specs::Results::ran_as, model::specs::Machine::no_output))]
pub fn refuse(number: u64, line: usize) -> Ran
    ensures { result ≡ ran_as (no_run number line) }
{
    Ran {
        number,
        line: line as u64,
        events: 0,
        output: 0,
        second: 0,
        store: 0,
        report: 0,
    }
}

// The state before the first input line, with nothing stored. By hand: four of its nine fields are no zero, and a Default would say so of none.
fn start(loaded: Loaded, fuel: usize) -> State
    ensures { result ≡ start_of loaded fuel }
{
    State {
        at: loaded.input,
        line: loaded.line,
        calls: 0,
        symbols: 0,
        store: Store::new(),
        written: 0,
        second: 0,
        events: 0,
        fuel,
    }
}

// Document 01's number for how a run ended, as C callers read it: 0 where no fault ended it.
fn number_end(ended: Result<Turn, RunFault>) -> u64
    ensures { result ≡ end_number ended }
{
    match ended {
        Ok(Turn::Continues | Turn::Offers | Turn::Back(_) | Turn::Ends) => 0,
        Err(fault) => fault.into(),
    }
}

// The end of a run whose report has so many bytes: what is stored is listed in the caller's store.
fn end(ended: Result<Turn, RunFault>, reported: usize, s: &State, store: &mut [u8]) -> Ran
    requires { store_least ≤ length store.old }
    ensures { EndsRun ended reported s.now store.old result store.new }
{
    let n = s.store.list(store);
    // C callers read u64, of which From makes none of a count
    Ran {
        number: number_end(ended),
        line: s.line as u64,
        events: s.events as u64,
        output: s.written as u64,
        second: s.second as u64,
        store: n as u64,
        report: reported as u64,
    }
}

// The run of a text that is loaded. At first nothing is stored and nothing counted.
fn run_loaded(
    text: &[u8],
    nodes: &[Node],
    dead: &mut [u8],
    t: &Prepared,
    fuel: usize,
    output: &mut [u8],
    second: &mut [u8],
    store: &mut [u8],
    report: &mut [u8],
) -> Ran
    requires { ReadyToRun text.now nodes.now t.now
        × (fuel ≤ fuel_most) × (store_least ≤ length store.old) × (dead_least ≤ length dead.old)
        × (report_least ≤ length report.old) }
    ensures { Runs (Machine.run fuel (rooms (length output.old) (length second.old)) (Load.load text.now))
        output.old second.old store.old report.old result
        output.new second.new store.new report.new }
{
    let loaded = t.loaded;
    let mut s = start(loaded, fuel);
    let mut counts = [0usize; COUNTS_SIZE];
    let script = Script {
        marked: Marked {
            marks: loaded.marks,
            text,
        },
        nodes: &nodes[..loaded.nodes],
        table: &t.table,
    };
    let ended = expand_input(&script, dead, output, second, &mut counts, &mut s);
    let reported = print_report(&t.table.entries[..t.table.count], &counts, report);
    end(ended, reported, &s, store)
}

// The run of a text that is prepared, or refused.
pub fn run_prepared(
    text: &[u8],
    nodes: &[Node],
    dead: &mut [u8],
    t: &Result<Prepared, Refused>,
    fuel: usize,
    output: &mut [u8],
    second: &mut [u8],
    store: &mut [u8],
    report: &mut [u8],
) -> Ran
    requires { Prepares text.now nodes.now t.now × (fuel ≤ fuel_most) × (store_least ≤ length store.old) × (dead_least ≤ length dead.old)
        × (report_least ≤ length report.old) }
    ensures { Runs (Machine.run fuel (rooms (length output.old) (length second.old)) (Load.load text.now))
        output.old second.old store.old report.old result
        output.new second.new store.new report.new }
{
    match t {
        Err(refused) => refuse(refused.fault.into(), refused.line),
        Ok(prepared) => run_loaded(
            text, nodes, dead, prepared, fuel, output, second, store, report,
        ),
    }
}
