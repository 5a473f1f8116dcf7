// What the arguments of expand name: a text's file, then -4 and a file, then --report and a file, each or none.
#![tactic(auto)]

ghost use Rattle.std.specs.Prelude.{◌<◌, IsTrue, IfSome};

use source::{ARGUMENT_ROOM, Argument, arg, read_argument};
use std::env::Env;

// The arguments that name a text's file, the one for channel 4 and the one for the report.
// By their numbers, as std's Env has arguments: a name would want a room of the largest size for as long as it is kept.
#[derive(Clone, Copy)]
pub struct Names {
    pub file: Option<usize>,
    pub second: Option<usize>,
    pub report: Option<usize>,
}

// A program's arguments, and how many there are, the program's own name among them.
#[derive(Drop)]
struct Arguments<'a, E: Env> {
    env: &'a E,
    count: usize,
}

impl<'a, E: Env> Arguments<'a, E> {
    // Whether argument i says this.
    fn says(&self, i: usize, what: Argument) -> bool
        ensures { IsTrue result → i < self.now.count }
    {
        // no room is cleared for an argument that is missing
        if self.count <= i {
            return false;
        }
        let mut space = [0u8; ARGUMENT_ROOM];
        read_argument(arg(self.env, i, &mut space)) == what
    }

    // Argument i, if it is a name.
    fn find_name(&self, i: usize) -> Option<usize>
        ensures { IfSome result (λ j. j < self.now.count) }
    {
        self.says(i, Argument::Name).then_some(i)
    }

    // The name behind argument i, if that is this option.
    fn find_option(&self, i: usize, option: Argument) -> Option<usize>
        ensures { IfSome result (λ j. j < self.now.count) }
    {
        if self.says(i, option) {
            return self.find_name(i + 1);
        }
        None
    }
}

// With so many arguments, the program's own name among them: a text's file, then -4 and a file, then --report and a file, each or none.
// The 0 where no name stands before is no argument that was found: argument 0 is the program's own name, behind which the others begin.
pub fn find_names(env: &impl Env, count: usize) -> Option<Names>
    ensures { IfSome result (λ n. IfSome n.file (λ i. i < count) × IfSome n.second (λ i. i < count) × IfSome n.report (λ i. i < count)) }
{
    let arguments = Arguments { env, count };
    let file = arguments.find_name(1);
    let second = arguments.find_option(file.unwrap_or(0) + 1, Argument::Second);
    let report = arguments.find_option(second.or(file).unwrap_or(0) + 1, Argument::Report);
    let last = report.or(second).or(file).unwrap_or(0);
    (count <= last + 1).then_some(Names {
        file,
        second,
        report,
    })
}
