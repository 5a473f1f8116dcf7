// Files that a program writes: each is named by an argument, opened before anything is run, and written whole.
#![tactic(auto)]

ghost use Rattle.std.specs.Prelude.{◌≡◌, ℕ, IfOk, IfErr, Some};
ghost use Rattle.targets.specs.Target.{named_by};
ghost use Rattle.source.specs.declared.Trouble.TheVariants.{UnwrittenFile};

use source::{ARGUMENT_ROOM, Trouble, arg};
use std::env::Env;
use std::io::Write;
use std::rt::Files;
use std::{fs, str};

// A file that is open to be written, and the argument that names it.
#[derive(Drop)]
pub struct Target<F> {
    pub name: usize,
    pub file: F,
}

// Opens the file of this name, made or emptied, for writing. A name that is not UTF-8 cannot be opened.
fn open_overwrite<R: Files>(files: &R, name: &[u8]) -> Option<R::File> {
    let path = str::from_utf8(name).ok()?;
    fs::create(files, path).ok()
}

// Opens the file that argument i names.
fn open_named<R: Env + Files>(rt: &R, i: usize) -> Result<Target<R::File>, Trouble>
    ensures named { IfOk result (λ t. t.name ≡ i) }
    ensures unwritten { IfErr result (λ e. e ≡ UnwrittenFile i) }
{
    let mut space = [0u8; ARGUMENT_ROOM];
    let file = open_overwrite(rt, arg(rt, i, &mut space)).ok_or(Trouble::UnwrittenFile(i))?;
    Ok(Target { name: i, file })
}

// The same, if an argument names one.
pub fn open_target<R: Env + Files>(
    rt: &R,
    name: Option<usize>,
) -> Result<Option<Target<R::File>>, Trouble>
    ensures named { IfOk result (λ t. named_by t ≡ name) }
    ensures unwritten { IfErr result (λ e. (i : ℕ) × (name ≡ Some i) × (e ≡ UnwrittenFile i)) }
{
    name.map(|i| open_named(rt, i)).transpose()
}

// Writes all bytes to a file, if there is one, and closes it.
pub fn write_target<F: Write + Drop>(target: Option<Target<F>>, shown: &[u8]) -> Result<(), Trouble>
    ensures { IfErr result (λ e. (i : ℕ) × (named_by target ≡ Some i) × (e ≡ UnwrittenFile i)) }
{
    let Some(mut target) = target else {
        return Ok(());
    };
    target
        .file
        .write_all(shown)
        .map_err(|_| Trouble::UnwrittenFile(target.name))
}
