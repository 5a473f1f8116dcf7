// What a program is given: its arguments, and all that a reader gives or a whole file, read into a lent buffer; and what it says where
// something keeps it from its work.
// Every buffer is an array of the largest size that a program takes, here and in the programs: they use no heap, and what they need is known
// before they run (docs/DECISIONS.md).
#![tactic(auto)]

ghost use Rattle.std.specs.Prelude.{◌≡◌, ◌≤◌, ◌<◌, IfOk, IfErr, IfSome, length, take};
ghost use Rattle.std.specs.Io.KnownBytes.{Consumes, IsAtEnd};
ghost use Rattle.source.specs.Argument.{argument_of};
ghost use Rattle.source.specs.Trouble.{unread_of};
ghost use Rattle.source.specs.declared.Trouble.TheVariants.{UnreadFile};

use buffer::same_bytes;
use std::env::{Env, FillError};
use std::io::{Read, Write};
use std::rt::Files;
use std::{fs, io, str};

// ---- arguments; on Linux none is longer than 131,071 bytes

pub const ARGUMENT_ROOM: usize = 131072;

// Puts argument i at the start of buf, whatever its bytes are, and answers it. One that is missing or longer than buf is taken for empty,
// and is no None: no file has an empty name, so that whoever opens it says what is wrong.
pub fn arg<'a>(env: &impl Env, i: usize, buf: &'a mut [u8]) -> &'a [u8]
    ensures { length result.now ≤ length buf.old }
{
    let n = env.arg(i, buf).unwrap_or(0);
    &buf[..n]
}

// How many arguments there are, the program's own name among them. They are counted one by one, since std's args takes a heap.
pub fn arg_count(env: &impl Env) -> usize {
    for i in 0..usize::MAX {
        if let Err(FillError::NotPresent) = env.arg(i, &mut []) {
            return i;
        }
    }
    usize::MAX
}

// What an argument says: how a program is called is asked, a file for channel 4 or one for the usage report follows, an option that is none
// of these, or a name.
#[derive(Clone, Copy, PartialEq, Eq)]
pub enum Argument {
    Help,
    Second,
    Report,
    Unknown,
    Name,
}

// An argument by its bytes; an option begins with a minus. same_bytes is `==` by the name of document 01's `same`, by which argument_of is said.
// As a match on the bytes the proof didn't close: each byte is a test of its own then, in 24 goals, of which none names `same`.
#[tactic(auto, using(crate::proofs::First::begins_first))]
pub fn read_argument(argument: &[u8]) -> Argument
    ensures { result ≡ argument_of argument.now }
{
    if same_bytes(argument, b"--help") {
        Argument::Help
    } else if same_bytes(argument, b"-4") {
        Argument::Second
    } else if same_bytes(argument, b"--report") {
        Argument::Report
    } else if argument.starts_with(b"-") {
        Argument::Unknown
    } else {
        Argument::Name
    }
}

// ---- readers and files

// Reads until buf is full or the input ends, and answers how many bytes were read. The loop stays: std's read_to_end takes a Vec, and the
// programs have no heap.
#[tactic(auto, using(crate::proofs::Read::consumes_more))]
fn fill<R: Read>(from: &mut R, buf: &mut [u8]) -> io::Result<usize>
    ensures bound { IfOk result (λ n. n ≤ length buf.new) }
    ensures bytes { IfOk result (λ n. Consumes (R.remaining from.old) (R.remaining from.new) (take n buf.new)) }
    ensures end { IfOk result (λ n. n < length buf.new → IsAtEnd (R.remaining from.new)) }
{
    let mut done = 0;
    while done < buf.len() {
        let n = from.read(&mut buf[done..])?;
        if n == 0 {
            return Ok(done);
        }
        done += n;
    }
    Ok(done)
}

// The same, and answers what was read. Where that is as long as buf, there may be more.
pub fn read_all<'a, R: Read>(from: &mut R, buf: &'a mut [u8]) -> io::Result<&'a [u8]>
    ensures bound { IfOk result (λ s. length s.now ≤ length buf.old) }
    ensures bytes { IfOk result (λ s. Consumes (R.remaining from.old) (R.remaining from.new) s.now) }
    ensures end { IfOk result (λ s. length s.now < length buf.old → IsAtEnd (R.remaining from.new)) }
{
    let n = fill(from, buf)?;
    Ok(&buf[..n])
}

// Reads a file by its name, which is opened once. A name that is not UTF-8 cannot be opened.
pub fn read_file<'a, F: Files>(files: &F, name: &[u8], buf: &'a mut [u8]) -> Option<&'a [u8]>
    ensures { IfSome result (λ s. length s.now ≤ length buf.old) }
{
    let path = str::from_utf8(name).ok()?;
    let mut file = fs::open(files, path).ok()?;
    read_all(&mut file, buf).ok()
}

// ---- what keeps a program from its work

// What that is; a file goes by the argument that names it.
#[derive(Clone, Copy)]
pub enum Trouble {
    Arguments,
    UnreadInput,
    UnreadFile(usize),
    LargeFile(usize),
    ManyFiles(usize),
    UnwrittenOutput,
    UnwrittenFile(usize),
}

// Reads the file that argument i names.
pub fn read_named<'a, R: Env + Files>(
    rt: &R,
    i: usize,
    buf: &'a mut [u8],
) -> Result<&'a [u8], Trouble>
    ensures bound { IfOk result (λ s. length s.now ≤ length buf.old) }
    ensures named { IfErr result (λ e. e ≡ UnreadFile i) }
{
    let mut space = [0u8; ARGUMENT_ROOM];
    read_file(rt, arg(rt, i, &mut space), buf).ok_or(Trouble::UnreadFile(i))
}

// Reads standard input where no argument names a file.
pub fn read_named_or_input<'a, R: Env + Files>(
    rt: &R,
    input: &mut impl Read,
    i: Option<usize>,
    buf: &'a mut [u8],
) -> Result<&'a [u8], Trouble>
    ensures bound { IfOk result (λ s. length s.now ≤ length buf.old) }
    ensures named { IfErr result (λ e. e ≡ unread_of i) }
{
    match i {
        Some(i) => read_named(rt, i, buf),
        None => read_all(input, buf).map_err(|_| Trouble::UnreadInput),
    }
}

// What a program is called in its messages, and what it says where its arguments are wrong.
pub struct Program {
    pub name: &'static [u8],
    pub usage: &'static [u8],
}

// Says what keeps a program from its work, after the program's name; a file goes before what is wrong with it. Where that cannot be written,
// nothing can say so.
// Bytes and no Display: a file's name need be no UTF-8, and is read from the arguments once more.
pub fn tell(env: &impl Env, errors: &mut impl Write, program: &Program, trouble: Trouble) {
    let (file, wrong): (Option<usize>, &[u8]) = match trouble {
        Trouble::Arguments => {
            let _ = errors.write_all(program.usage);
            return;
        }
        Trouble::UnreadInput => (None, b"standard input cannot be read\n"),
        Trouble::UnreadFile(i) => (Some(i), b" cannot be read\n"),
        Trouble::LargeFile(i) => (Some(i), b" has more than 65,536 bytes\n"),
        Trouble::ManyFiles(i) => (Some(i), b" is one file too many\n"),
        Trouble::UnwrittenOutput => (None, b"standard output cannot be written\n"),
        Trouble::UnwrittenFile(i) => (Some(i), b" cannot be written\n"),
    };
    let _ = errors.write_all(program.name);
    if let Some(i) = file {
        let mut space = [0u8; ARGUMENT_ROOM];
        let _ = errors.write_all(arg(env, i, &mut space));
    }
    let _ = errors.write_all(wrong);
}
