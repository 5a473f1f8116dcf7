// What the programs print, byte for byte, in a lent slice. Each function adds bytes from an offset on and answers where they end;
// every other byte of the slice stays as it was. The slice and the offset stay two parameters, as in rendering's add_bytes.
// RoomFor is the fact of no type: each function has room for something else.
#![tactic(auto)]

ghost use Rattle.std.specs.Prelude.{◌≡◌, [], ◌∷◌, ◌++◌, ◌+◌, ◌*◌, ◌≤◌, length};
ghost use Rattle.model.specs.Results.{check_text};
ghost use Rattle.model.specs.Printed.{spaced, end_row, expand_runs, expand_prints, expand_writes, expand_reports, check_row, piece_row, fit_row, fit_prints};
ghost use Rattle.rendering.specs.Prints.{RoomFor, Prints};
ghost use Rattle.printed.specs.Leaves.{Leaves};

use model::{Checked, FUEL_MOST, Fitted, Ran, STORE_LEAST, TEXT_MOST};
use rendering::{add_bytes, add_decimal};

// The room for what expand prints: all of a run's output, and its end in at most 67 bytes.
pub const EXPAND_ROOM: usize = 65603;

// The room for a row of check_text, besides the name's.
pub const CHECK_ROOM: usize = 43;

// The most bytes of a file of lines, and the room for the rows of any such file.
pub const FILE_MOST: usize = 65536;

pub const FIT_ROOM: usize = 3342387;

// A number after a blank.
#[tactic(auto, using(crate::proofs::Adding::digits_room))]
fn add_spaced(out: &mut [u8], at: usize, n: u64) -> usize
    requires { RoomFor out.old at (spaced n) }
    ensures { Prints out.old at (spaced n) result out.new }
{
    let digits = add_bytes(out, at, b" ");
    add_decimal(out, digits, n)
}

// Two numbers, each after a blank.
#[tactic(auto, using(crate::proofs::Adding::first_room, crate::proofs::Adding::second_room))]
fn add_pair(out: &mut [u8], at: usize, a: u64, b: u64) -> usize
    requires { RoomFor out.old at (spaced a ++ spaced b) }
    ensures { Prints out.old at (spaced a ++ spaced b) result out.new }
{
    let second = add_spaced(out, at, a);
    add_spaced(out, second, b)
}

// Two numbers, each after a blank, and the row's end.
#[tactic(auto, using(crate::proofs::Adding::counts_room, crate::proofs::Adding::end_room, rendering::proofs::Prints::prints_more))]
fn add_counts(out: &mut [u8], at: usize, a: u64, b: u64) -> usize
    requires { RoomFor out.old at (spaced a ++ spaced b ++ (10 ∷ [])) }
    ensures { Prints out.old at (spaced a ++ spaced b ++ (10 ∷ [])) result out.new }
{
    let end = add_pair(out, at, a, b);
    add_bytes(out, end, b"\n")
}

// The row that ends what expand prints.
#[tactic(auto, using(crate::proofs::Adding::end_second))]
fn add_end(out: &mut [u8], at: usize, r: Ran) -> usize
    requires { RoomFor out.old at (end_row r.number r.line r.events) }
    ensures { Prints out.old at (end_row r.number r.line r.events) result out.new }
{
    let number = add_bytes(out, at, b"END");
    let events = add_pair(out, number, r.number, r.line);
    let end = add_spaced(out, events, r.events);
    add_bytes(out, end, b"\n")
}

// Runs a text as expand does: the output goes to the front of out, where the row that ends it has room behind it, and all of `second` is
// channel 4's room.
// Three rooms and no struct of them, as in print_run; that of the store is an array, as all buffers of the programs (source).
fn run_text(text: &[u8], out: &mut [u8], second: &mut [u8], report: &mut [u8]) -> Ran
    requires { (65603 ≤ length out.old) × (length report.old ≡ 2048) }
    ensures { Leaves (expand_runs (length second.old) text.now) out.old second.old report.old result
        out.new second.new report.new }
{
    let mut store = [0u8; STORE_LEAST];
    with_row::run(
        text,
        FUEL_MOST,
        &mut out[0..TEXT_MOST],
        second,
        &mut store,
        report,
    )
}

// How many bytes expand prints, how many it writes to channel 4's file, and how many to the report's. These are counts and no slices, since
// what is promised of each room speaks of all of it, also of what is behind them.
#[derive(Clone, Copy)]
pub struct Shown {
    pub printed: usize,
    pub second: usize,
    pub report: usize,
}

// What expand prints for a text, in out, what it writes to channel 4's file, in second, and to the report's, in report.
// Three rooms and no struct of them: the run takes a part of the first, and each has a clause of its own.
pub fn print_run(text: &[u8], out: &mut [u8], second: &mut [u8], report: &mut [u8]) -> Shown
    requires { (65603 ≤ length out.old) × (length report.old ≡ 2048) }
    ensures prints { Prints out.old 0 (expand_prints (length second.old) text.now) result.printed out.new }
    ensures prints_2 { Prints second.old 0 (expand_writes (length second.old) text.now) result.second second.new }
    ensures prints_3 { Prints report.old 0 (expand_reports (length second.old) text.now) result.report report.new }
{
    let r = run_text(text, out, second, report);
    // `as`, here and below: each is at most the length of its room, so that what usize::try_from would refuse cannot be
    let printed = add_end(out, r.output as usize, r);
    Shown {
        printed,
        second: r.second as usize,
        report: r.report as usize,
    }
}

// A file's name, with what checking its text answers.
#[tactic(auto, using(crate::proofs::Adding::check_counts))]
fn add_checked(out: &mut [u8], at: usize, name: &[u8], c: Checked) -> usize
    requires { RoomFor out.old at (check_row name.now c) }
    ensures { Prints out.old at (check_row name.now c) result out.new }
{
    let number = add_bytes(out, at, name);
    add_counts(out, number, c.number, c.line)
}

// The row that check_text prints for a file with this name and text.
#[tactic(auto, using(crate::proofs::Rows::checked_prints))]
pub fn print_check(out: &mut [u8], at: usize, name: &[u8], text: &[u8]) -> usize
    requires { at + length name.now + 43 ≤ length out.old }
    ensures { Prints out.old at (check_row name.now (check_text 2048 text.now)) result out.new }
{
    add_checked(out, at, name, with_row::check(text))
}

// Start and length of each piece. Two rows, as C reads them in Fitted.
#[tactic(auto, using(crate::proofs::Rows::piecing_more))]
fn add_pieces(out: &mut [u8], at: usize, starts: [u64; 9], lens: [u64; 9]) -> usize
    requires { RoomFor out.old at (piece_row starts lens) }
    ensures { Prints out.old at (piece_row starts lens) result out.new }
{
    let mut w = at;
    for (&start, &len) in starts.iter().zip(&lens) {
        w = add_pair(out, w, start, len);
    }
    w
}

// What fitting a line answers.
#[tactic(auto, using(crate::proofs::Adding::fit_line))]
fn add_fitted(out: &mut [u8], at: usize, f: Fitted) -> usize
    requires { RoomFor out.old at (fit_row f) }
    ensures { Prints out.old at (fit_row f) result out.new }
{
    let line = add_decimal(out, at, f.number);
    let pieces = add_spaced(out, line, f.line);
    let counts = add_pieces(out, pieces, f.start, f.length);
    add_counts(out, counts, f.places, f.bytes)
}

// What fit_line prints for a text and a file of lines.
#[tactic(auto, using(crate::proofs::Rows::rowing_none))]
pub fn print_fits(text: &[u8], file: &[u8], out: &mut [u8]) -> usize
    requires { 51 * (length file.now + 1) ≤ length out.old }
    ensures { Prints out.old 0 (fit_prints text.now file.now) result out.new }
{
    let mut w = 0;
    for line in file.split_inclusive(|b| *b == b'\n') {
        w = add_fitted(
            out,
            w,
            with_row::fit(text, line.strip_suffix(b"\n").unwrap_or(line)),
        );
    }
    w
}
