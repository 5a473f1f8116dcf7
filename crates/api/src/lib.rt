// The public calls for C and Rust; include/stage2.h declares them. A slice is a pointer and a count.
// Rows and rooms go along one by one, as C lends them.
#![tactic(auto)]

ghost use Rattle.std.specs.Prelude.{◌≡◌, false, ◌≤◌, length};
ghost use Rattle.model.specs.Load.{Loaded, loaded, load};
ghost use Rattle.model.specs.Machine.{rooms};
ghost use Rattle.model.specs.Results.{check_text, fit_of_line, illegal, run_text};
ghost use Rattle.model.specs.FirstReading.{FitsFirst};
ghost use Rattle.model.specs.Runs.{Runs};
ghost use Rattle.model.specs.Demands.{FollowsExpansion};
ghost use Rattle.nodes.specs.SideBySide.{HoldsTree};

use model::{Checked, Fitted, Ran};
use nodes::Node;

#[unsafe(no_mangle)]
pub extern "C" fn stage2_check(text: &[u8], nodes: &mut [Node]) -> Checked
    ensures { result ≡ check_text (length nodes.old) text.now }
{
    stage2::check(text, nodes)
}

#[unsafe(no_mangle)]
pub extern "C" fn stage2_fit(
    text: &[u8],
    nodes: &mut [Node],
    dead: &mut [u8],
    line: &[u8],
) -> Fitted
    ensures value { result ≡ fit_of_line (length nodes.old) (length dead.old) text.now line.now }
    ensures holds_tree { (t : Loaded) → load text.now ≡ loaded t → 2048 ≤ length nodes.old → 51456 ≤ length dead.old
        → HoldsTree t nodes.new × (length line.now ≤ 200 → FitsFirst t line.now result) }
{
    stage2::fit(text, nodes, dead, line)
}

#[unsafe(no_mangle)]
pub extern "C" fn stage2_run(
    text: &[u8],
    fuel: u64,
    nodes: &mut [Node],
    dead: &mut [u8],
    output: &mut [u8],
    second: &mut [u8],
    store: &mut [u8],
    report: &mut [u8],
) -> Ran
    ensures runs { Runs (run_text fuel (length nodes.old) (length dead.old)
        (rooms (length output.old) (length second.old)) (length store.old) (length report.old) text.now)
        output.old second.old store.old report.old result
        output.new second.new store.new report.new }
    ensures holds_tree { (t : Loaded) → load text.now ≡ loaded t
        → illegal fuel (length nodes.old) (length dead.old) (length store.old) (length report.old) ≡ false
        → HoldsTree t nodes.new × FollowsExpansion t fuel output.old second.old store.old report.old result
        output.new second.new store.new report.new }
{
    stage2::run(text, fuel, nodes, dead, output, second, store, report)
}
