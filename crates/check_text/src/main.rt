// Prints for each file whether its text loads: the name, the number and the line. Every file is read before anything is printed. Nothing
// else goes to standard output: a file that cannot be read, too many files, no file and a failed write have a message on standard error.
#![tactic(auto)]

ghost use Rattle.std.specs.Prelude.{◌-◌, ◌≤◌, length, IfOk, IfSome};
ghost use Rattle.check_text.specs.Files.{AddsFile, HasFiles};

use printed::{CHECK_ROOM, print_check};
use source::{
    ARGUMENT_ROOM, Argument, Program, Trouble, arg, arg_count, read_argument, read_file, tell,
};
use std::env::Env;
use std::io::Write;
use std::rt::Files;

// The bytes of all rows.
const ROWS_MOST: usize = 1048576;

const CHECK_TEXT: Program = Program {
    name: b"check_text: ",
    usage: b"check_text: give the names of the files to check\n",
};

// Adds the row of a file with this name and text, if there is room for it.
// The rows and the offset stay two parameters, here and below, as in rendering's add_bytes, and for its reason.
fn add_row(rows: &mut [u8], at: usize, name: &[u8], text: &[u8]) -> Option<usize>
    requires { at ≤ length rows.old }
    ensures { IfSome result (λ w. AddsFile rows.old at w rows.new) }
{
    if rows.len() - at < name.len() + CHECK_ROOM {
        return None;
    }
    Some(print_check(rows, at, name, text))
}

// Adds the row of the file that argument i names. A byte past the limit is read too, so that a text that is too large is seen to be.
fn take_file<R: Env + Files>(rt: &R, rows: &mut [u8], at: usize, i: usize) -> Result<usize, Trouble>
    requires { at ≤ length rows.old }
    ensures { IfOk result (λ w. AddsFile rows.old at w rows.new) }
{
    let mut space = [0u8; ARGUMENT_ROOM];
    let mut file = [0u8; 65537];
    let name = arg(rt, i, &mut space);
    let text = read_file(rt, name, &mut file).ok_or(Trouble::UnreadFile(i))?;
    add_row(rows, at, name, text).ok_or(Trouble::ManyFiles(i))
}

// The files that arguments 1 to n - 1 name, if each has a row.
#[tactic(auto, using(crate::proofs::Files::files_more, crate::proofs::Files::files_none))]
fn take_files<R: Env + Files>(rt: &R, rows: &mut [u8], n: usize) -> Result<usize, Trouble>
    ensures { IfOk result (λ w. HasFiles (n - 1) rows.new w) }
{
    let mut at = 0;
    for i in 1..n {
        at = take_file(rt, rows, at, i)?;
    }
    Ok(at)
}

// Writes the rows of n - 1 files; the caller shows that they are that, for which alone n goes along.
// One function for the three programs would be no plainer, as fit_line says.
fn write_rows(output: &mut impl Write, n: usize, shown: &[u8]) -> Result<(), Trouble>
    requires { HasFiles (n - 1) shown.now (length shown.now) }
{
    output
        .write_all(shown)
        .map_err(|_| Trouble::UnwrittenOutput)
}

// Whether the first argument asks how the program is called.
fn is_help_asked(env: &impl Env) -> bool {
    let mut space = [0u8; ARGUMENT_ROOM];
    read_argument(arg(env, 1, &mut space)) == Argument::Help
}

// Checks the files that the n - 1 arguments name, with room for their rows.
fn check_files<R: Env + Files>(
    rt: &R,
    output: &mut impl Write,
    n: usize,
    rows: &mut [u8],
) -> Result<(), Trouble> {
    let k = take_files(rt, rows, n)?;
    write_rows(output, n, &rows[..k])
}

// Lends the room. It stays an array: what the rows may have is a limit of the program.
fn check<R: Env + Files>(rt: &R, output: &mut impl Write) -> Result<(), Trouble> {
    let n = arg_count(rt);
    if n < 2 || is_help_asked(rt) {
        return Err(Trouble::Arguments);
    }
    let mut rows = [0u8; ROWS_MOST];
    check_files(rt, output, n, &mut rows)
}

// A twin of the other programs' main that stays: one function of source would take the work as a closure, and ask that it may be called.
fn main(rt: HostRuntime) {
    if let Err(trouble) = check(&rt, &mut rt.stdout()) {
        tell(&rt, &mut rt.stderr(), &CHECK_TEXT, trouble);
    }
}
