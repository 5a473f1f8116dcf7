// Expands the text of a file, or of standard input where no file is named: prints the output, then a line with END, the number, the line
// and the events. With -4 and a name behind that, what the text writes to channel 4 goes to the file of this name; without it channel 4
// has no room. With --report and a name behind that, the usage report goes to the file of this name, which stays empty where no run
// begins. Nothing else goes to standard output: a file that cannot be read or written, wrong arguments and a failed write have a message
// on standard error.
#![tactic(auto)]

ghost use Rattle.std.specs.Prelude.{◌≡◌, length};
ghost use Rattle.model.specs.Printed.{expand_prints, expand_writes, expand_reports};
ghost use Rattle.expand.specs.Room.{room_for};

use arguments::find_names;
use model::{REPORT_LEAST, TEXT_MOST};
use printed::{EXPAND_ROOM, print_run};
use source::{Program, Trouble, arg_count, read_named_or_input, tell};
use std::env::Env;
use std::io::{Read, Write};
use std::rt::Files;
use targets::{Target, open_target, write_target};

const EXPAND: Program = Program {
    name: b"expand: ",
    usage: b"expand: give the file of a text, or nothing to expand standard input; then -4 and a file for channel 4, or nothing; then --report and a file for the usage report, or nothing\n",
};

// ---- what is written; the caller of each shows that it is that. Text and room go along, since each clause says of both what is written

// What is printed for a text, with so many bytes of room for channel 4. One function for the three programs is no plainer, as fit_line says.
fn write_printed(
    output: &mut impl Write,
    text: &[u8],
    room: usize,
    shown: &[u8],
) -> Result<(), Trouble>
    requires { shown.now ≡ expand_prints room text.now }
{
    output
        .write_all(shown)
        .map_err(|_| Trouble::UnwrittenOutput)
}

// What it has for channel 4, which has room only where there is a file for it.
fn write_second<F: Write + Drop>(
    text: &[u8],
    room: usize,
    shown: &[u8],
    styles: Option<Target<F>>,
) -> Result<(), Trouble>
    requires room { room ≡ room_for styles }
    requires written { shown.now ≡ expand_writes room text.now }
{
    write_target(styles, shown)
}

// Its usage report. The two stay apart: each requires something else of what it writes.
fn write_report<F: Write + Drop>(
    text: &[u8],
    room: usize,
    shown: &[u8],
    uses: Option<Target<F>>,
) -> Result<(), Trouble>
    requires { shown.now ≡ expand_reports room text.now }
{
    write_target(uses, shown)
}

// ---- a text

// With the room that channel 4 has. Nothing is printed before the files are written.
// The rooms are arrays, as all buffers of the programs (source); what is shown of each is a count, as print_run answers it, for its reason.
fn expand_with<F: Write + Drop>(
    output: &mut impl Write,
    text: &[u8],
    second: &mut [u8],
    styles: Option<Target<F>>,
    uses: Option<Target<F>>,
) -> Result<(), Trouble>
    requires { length second.old ≡ room_for styles }
{
    let mut out = [0u8; EXPAND_ROOM];
    let mut report = [0u8; REPORT_LEAST];
    let room = second.len();
    let shown = print_run(text, &mut out, second, &mut report);
    write_second(text, room, &second[..shown.second], styles)?;
    write_report(text, room, &report[..shown.report], uses)?;
    write_printed(output, text, room, &out[..shown.printed])
}

// Where there is no file for channel 4 it has no room, so that nothing which is written there is lost in silence; and none is cleared for it.
fn expand_text<F: Write + Drop>(
    output: &mut impl Write,
    text: &[u8],
    styles: Option<Target<F>>,
    uses: Option<Target<F>>,
) -> Result<(), Trouble> {
    if styles.is_some() {
        let mut second = [0u8; TEXT_MOST];
        return expand_with(output, text, &mut second, styles, uses);
    }
    expand_with(output, text, &mut [], styles, uses)
}

// A byte past the limit is read too, so that a text that is too large is seen to be. Nothing is run before the files are open.
fn expand<R: Env + Files>(
    rt: &R,
    input: &mut impl Read,
    output: &mut impl Write,
) -> Result<(), Trouble> {
    let names = find_names(rt, arg_count(rt)).ok_or(Trouble::Arguments)?;
    let mut space = [0u8; 65537];
    let text = read_named_or_input(rt, input, names.file, &mut space)?;
    let styles = open_target(rt, names.second)?;
    let uses = open_target(rt, names.report)?;
    expand_text(output, text, styles, uses)
}

// A twin of the other programs' main that stays: one function of source would take the work as a closure, and ask that it may be called.
fn main(rt: HostRuntime) {
    if let Err(trouble) = expand(&rt, &mut rt.stdin(), &mut rt.stdout()) {
        tell(&rt, &mut rt.stderr(), &EXPAND, trouble);
    }
}
