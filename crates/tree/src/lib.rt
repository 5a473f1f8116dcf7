// The builder of the tree of the templates, in which a line's first reading is found. The tree is laid breadth first: a node's templates are
// a run of their order, which the node holds in place of its children until it is given these. Each run of templates that have one key after
// the node's beginning makes a child, so the children of a node stand side by side in the order of their keys.
// How many nodes are made stands beside their row, which is lent: each method of a struct with a `&mut` would have to say that it is the caller's.
#![tactic(auto)]

ghost use Rattle.std.specs.Prelude.{◌≡◌, ◌+◌, ◌-◌, ◌≤◌, ◌<◌, length, get_or, set};
ghost use Rattle.nodes.specs.Rows.{no_node, elem};
ghost use Rattle.templates.specs.Keys.{AllBytes};
ghost use Rattle.templates.specs.Listed.{templates_of, order_of};
ghost use Rattle.tree.specs.Nodes.{Made, Filled, with_kids, below, root_node};
ghost use Rattle.tree.specs.Built.{ReadyToBuild, NodesMade, NextNode, Builds};
ghost use Rattle.model.specs.Limits.{macros_most};
ghost use Rattle.model.specs.Children.{end_key, placeholder_key};

use model::END_KEY;
use nodes::{Node, ROOT_KEY};
use templates::{Ordered, Pick, holes_past};

// How many elements stand up to and with a node.
fn depth_of(n: Node) -> usize
    requires { n.height ≤ 201 }
    ensures { result ≡ 201 - n.height }
{
    201 - usize::from(n.height)
}

// The node for a run of templates, below the node n.
fn make_child(n: Node, r: Pick) -> Node
    requires { (r.key ≤ placeholder_key) × (r.template < macros_most) × (r.from ≤ r.end) × (r.end ≤ macros_most) × (0 < n.height) × (n.holes < 1000) }
    ensures { result ≡ below n r.key r.template r.from r.end }
{
    // `as` in all of this file: the numbers fit, and `u16::try_from` would ask what to do where they do not
    Node {
        element: r.key,
        first: r.from as u16,
        count: (r.end - r.from) as u16,
        template: r.template as u16,
        height: n.height - 1,
        holes: holes_past(n.holes, r.key),
    }
}

// The root: no element of a template, with room for 200 elements and the end. It has all n templates.
fn make_root(n: usize) -> Node
    requires { n ≤ macros_most }
    ensures { result ≡ root_node n }
{
    Node {
        element: ROOT_KEY,
        count: n as u16,
        height: 201,
        ..Node::default()
    }
}

// Appends the children of node i; the answer is how many nodes there are then.
#[tactic(auto, using(macros::proofs::Entries::templates_in_length, crate::proofs::Filling::last_within))]
fn fill_children(ordered: &Ordered, nodes: &mut [Node], i: usize, made: usize) -> usize
    requires { NextNode ordered.now nodes.old i made × (elem nodes.old i ≡ end_key → ⊥) }
    ensures { Filled ordered.now.mark (templates_of ordered.now) (order_of ordered.now) nodes.new i result made }
{
    let parent = nodes[i];
    let d = depth_of(parent);
    let end = parent.end_of_children();
    let mut c = made;
    let mut at = parent.first_child();
    // each turn takes a run of templates, and the look for it says how long it is: no range has these steps
    while at < end {
        let r = ordered.take_run(at, end, d);
        at = r.end;
        nodes[c] = make_child(parent, r);
        c += 1;
    }
    c
}

// Says where the children of node i stand.
fn link_children(nodes: &mut [Node], i: usize, first: usize, c: usize)
    requires { (i < length nodes.old) × (first ≤ c) × (c < 65536) }
    ensures { nodes.new ≡ set nodes.old i (with_kids (get_or nodes.old i no_node) first (c - first)) }
{
    nodes[i] = Node {
        first: first as u16,
        count: (c - first) as u16,
        ..nodes[i]
    };
}

// Gives node i its children; an end has none.
fn add_children(ordered: &Ordered, nodes: &mut [Node], i: usize, made: usize) -> usize
    requires { NextNode ordered.now nodes.old i made }
    ensures { NodesMade ordered.now.mark (templates_of ordered.now) (order_of ordered.now) nodes.new (i + 1) result }
{
    if nodes[i].element == END_KEY {
        link_children(nodes, i, made, made);
        return made;
    }
    let c = fill_children(ordered, nodes, i, made);
    link_children(nodes, i, made, c);
    c
}

// Gives every node its children, from the root on: how many nodes there are then.
fn grow_tree(ordered: &Ordered, nodes: &mut [Node]) -> usize
    requires { ReadyToBuild ordered.now.mark (templates_of ordered.now) nodes.old
        × Made ordered.now.mark (templates_of ordered.now) (order_of ordered.now) nodes.old 0 1 }
    ensures { NodesMade ordered.now.mark (templates_of ordered.now) (order_of ordered.now) nodes.new result result }
{
    let mut c = 1;
    let mut i = 0;
    // the tree grows while it is gone over, so how many turns there are is not known at first: no range
    while i < c {
        c = add_children(ordered, nodes, i, c);
        i += 1;
    }
    c
}

// Nothing is done: a parameter's type says that bytes are below 256, and a field's does not say it.
fn bound_bytes(text: &[u8])
    ensures { AllBytes text.now }
{}

// Makes the tree of the templates at the front of the row: how many nodes it has.
pub fn build(ordered: &Ordered, nodes: &mut [Node]) -> usize
    requires { ReadyToBuild ordered.now.mark (templates_of ordered.now) nodes.old }
    ensures { Builds ordered.now.mark (templates_of ordered.now) nodes.new result }
{
    bound_bytes(ordered.text);
    nodes[0] = make_root(ordered.table.count);
    grow_tree(ordered, nodes)
}
