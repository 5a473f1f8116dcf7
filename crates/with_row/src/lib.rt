// The public calls with rows of nodes and of dead places of their own, for programs: arrays of the least legal size, since the library has no
// heap. A row's contents are free.
#![tactic(auto)]

ghost use Rattle.std.specs.Prelude.{◌≡◌, false, ◌≤◌, length};
ghost use Rattle.model.specs.Load.{Loaded, loaded, load};
ghost use Rattle.model.specs.Machine.{rooms};
ghost use Rattle.model.specs.Results.{check_text, fit_of_line, illegal, run_text};
ghost use Rattle.model.specs.FirstReading.{FitsFirst};
ghost use Rattle.model.specs.Runs.{Runs};
ghost use Rattle.model.specs.Demands.{FollowsExpansion};

use model::{Checked, DEAD_LEAST, Fitted, NODES_MOST, Ran};
use nodes::Node;

// Checks a text.
pub fn check(text: &[u8]) -> Checked
    ensures { result ≡ check_text 2048 text.now }
{
    let mut row = [Node::default(); NODES_MOST];
    stage2::check(text, &mut row)
}

// Fits a line.
pub fn fit(text: &[u8], line: &[u8]) -> Fitted
    ensures value { result ≡ fit_of_line 2048 51456 text.now line.now }
    ensures fits_first { (t : Loaded) → load text.now ≡ loaded t → length line.now ≤ 200
        → FitsFirst t line.now result }
{
    let mut row = [Node::default(); NODES_MOST];
    let mut dead = [0u8; DEAD_LEAST];
    stage2::fit(text, &mut row, &mut dead, line)
}

// Runs a text. The rooms go along one by one, as in run.
pub fn run(
    text: &[u8],
    fuel: u64,
    output: &mut [u8],
    second: &mut [u8],
    store: &mut [u8],
    report: &mut [u8],
) -> Ran
    ensures runs { Runs (run_text fuel 2048 51456
        (rooms (length output.old) (length second.old)) (length store.old) (length report.old) text.now)
        output.old second.old store.old report.old result
        output.new second.new store.new report.new }
    ensures follows_expansion { (t : Loaded) → load text.now ≡ loaded t → illegal fuel 2048 51456 (length store.old) (length report.old) ≡ false
        → FollowsExpansion t fuel output.old second.old store.old report.old result
        output.new second.new store.new report.new }
{
    let mut row = [Node::default(); NODES_MOST];
    let mut dead = [0u8; DEAD_LEAST];
    stage2::run(
        text, fuel, &mut row, &mut dead, output, second, store, report,
    )
}
