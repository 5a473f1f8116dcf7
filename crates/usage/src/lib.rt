// How often each template was chosen (document 02, request 7): the counts of a run, and the usage report that is printed from them. There is
// a count for each macro that a text may have, in the order of the text, and a last one for the lines passed through.
// One row and no struct of both: a line is counted at one place, and the tally that the clauses speak of is made of one list.
#![tactic(auto)]

ghost use Rattle.std.specs.Prelude.{◌≡◌, ◌<◌, length, get_or};
ghost use Rattle.model.specs.Limits.{fuel_most};
ghost use Rattle.model.specs.Report.{one_more_of, row_bytes};
ghost use Rattle.rendering.specs.Prints.{RoomFor, Prints};
ghost use Rattle.usage.specs.Counts.{ReadyToReport, PrintsReport};

use macros::Entry;
use model::MACROS_MOST;
use rendering::{add_bytes, add_decimal};

// All counts.
pub const COUNTS_SIZE: usize = 129;

// A line more is counted at a place. No Option of a template: the last place is that of no template, and one clause holds for all.
#[tactic(auto, using(crate::proofs::Counts::more_stored))]
pub fn count_line(counts: &mut [usize], place: usize)
    requires { (place < length counts.old) × (get_or counts.old place 0 < fuel_most) }
    ensures { counts.new ≡ one_more_of place counts.old }
{
    counts[place] += 1;
}

// A row of the report: a line's number, a comma, a count, and byte 10. It goes on at a place of the room, and the answer is where it ends.
// The room and the place stay two parameters, as in rendering's add_bytes; RoomFor is the fact of no type, since each row has room of its own.
#[tactic(auto, using(crate::proofs::Report::row_comma, crate::proofs::Report::row_count, crate::proofs::Report::row_end))]
fn add_row(report: &mut [u8], at: usize, line: usize, count: usize) -> usize
    requires { RoomFor report.old at (row_bytes (line, count)) }
    ensures { Prints report.old at (row_bytes (line, count)) result report.new }
{
    // `as`: `From` makes no `u64` of a `usize`
    let comma = add_decimal(report, at, line as u64);
    let digits = add_bytes(report, comma, b",");
    let end = add_decimal(report, digits, count as u64);
    add_bytes(report, end, b"\n")
}

// The report of these macros, at the front of its room; the answer is its length. Room and place stay two, as in rendering.
// Entries and counts stay two rows, the text's and the run's. The last row's 0 is document 02's line for the lines passed through.
pub fn print_report(entries: &[Entry], counts: &[usize], report: &mut [u8]) -> usize
    requires { ReadyToReport entries.now counts.now report.old }
    ensures { PrintsReport entries.now counts.now report.old result report.new }
{
    let mut at = add_bytes(report, 0, b"template,calls\n");
    for (entry, &count) in entries.iter().zip(counts) {
        at = add_row(report, at, entry.line, count);
    }
    add_row(report, at, 0, counts[MACROS_MOST])
}
