// Fits each line of a file against the templates of a text: number, template's line, then start and length of nine pieces. Both files are
// read before anything is printed. Nothing else goes to standard output: a file that cannot be read, one of lines that is too large, other
// arguments and a failed write have a message on standard error.
#![tactic(auto)]

ghost use Rattle.std.specs.Prelude.{◌≡◌, ◌≤◌, length};
ghost use Rattle.model.specs.Printed.{fit_prints};

use printed::{FILE_MOST, FIT_ROOM, print_fits};
use source::{Program, Trouble, arg_count, read_named, tell};
use std::env::Env;
use std::io::Write;
use std::rt::Files;

const FIT_LINE: Program = Program {
    name: b"fit_line: ",
    usage: b"fit_line: give the file of a text and the file of the lines\n",
};

// Writes what is printed for a text and a file of lines; the caller shows that it is that. One function for the three
// programs would be no plainer: each requires something else of what it writes. Text, file and output go through three functions, of which each
// shows something else of them: a struct of the two slices would be taken apart in each.
fn write_printed(
    output: &mut impl Write,
    text: &[u8],
    file: &[u8],
    shown: &[u8],
) -> Result<(), Trouble>
    requires { shown.now ≡ fit_prints text.now file.now }
{
    output
        .write_all(shown)
        .map_err(|_| Trouble::UnwrittenOutput)
}

// Fits the lines in room that is lent.
fn fit_lines(
    output: &mut impl Write,
    text: &[u8],
    file: &[u8],
    out: &mut [u8],
) -> Result<(), Trouble>
    requires file_len_bound { length file.now ≤ 65536 }
    requires in_bounds { 3342387 ≤ length out.old }
{
    let n = print_fits(text, file, out);
    write_printed(output, text, file, &out[..n])
}

// Lends the room, an array: there is no heap, and its size is a limit of the program.
fn lend_room(output: &mut impl Write, text: &[u8], file: &[u8]) -> Result<(), Trouble>
    requires { length file.now ≤ 65536 }
{
    let mut out = [0u8; FIT_ROOM];
    fit_lines(output, text, file, &mut out)
}

// The first argument names the text, the second the file of lines. Of each a byte past the limit is read too, so that one that is too large
// is seen to be.
fn fit_files<R: Env + Files>(rt: &R, output: &mut impl Write) -> Result<(), Trouble> {
    if arg_count(rt) != 3 {
        return Err(Trouble::Arguments);
    }
    let mut space = [0u8; 65537];
    let mut lines = [0u8; 65537];
    let text = read_named(rt, 1, &mut space)?;
    let file = read_named(rt, 2, &mut lines)?;
    if FILE_MOST < file.len() {
        return Err(Trouble::LargeFile(2));
    }
    lend_room(output, text, file)
}

// A twin of the other programs' main that stays: one function of source would take the work as a closure, and ask that it may be called.
fn main(rt: HostRuntime) {
    if let Err(trouble) = fit_files(&rt, &mut rt.stdout()) {
        tell(&rt, &mut rt.stderr(), &FIT_LINE, trouble);
    }
}
