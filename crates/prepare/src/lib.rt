// A text made ready for fitting its lines and for its expansion: loaded into the table of its macros, and its templates' tree built.
#![tactic(auto)]

ghost use Rattle.std.specs.Prelude.{◌≤◌, length};
ghost use Rattle.model.specs.Limits.{nodes_most};
ghost use Rattle.prepare.specs.Prepares.{Prepares};

use load::{Loaded, Refused, load};
use macros::Table;
use nodes::Node;
use templates::Ordered;
use tree::build;

// A text that is loaded, with the table of its macros.
// Text and nodes stay beside it, here and in stage2 and run: both are the caller's, whose clauses speak of the row after the call too.
#[derive(Clone, Copy)]
pub struct Prepared {
    pub loaded: Loaded,
    pub table: Table,
}

// Loads a text and builds its tree at the front of a row of nodes; a text that is refused has none.
pub fn prepare(text: &[u8], nodes: &mut [Node]) -> Result<Prepared, Refused>
    requires { nodes_most ≤ length nodes.old }
    ensures { Prepares text.now nodes.new result }
{
    let mut table = Table::default();
    let loaded = load(text, &mut table)?;
    let ordered = Ordered {
        mark: loaded.marks.placeholder,
        text,
        table: &table,
    };
    build(&ordered, nodes);
    Ok(Prepared { loaded, table })
}
