// The row of nodes that holds the tree of the templates, and the two looks for a child. Node 0 is the root, and nobody's child. The children
// of a node stand side by side, in the order of their keys, so one is found by halving their run, and the placeholder child is the last one.
// Nodes are places of the row and no boxes: the library has no heap, and C lends the row.
// Who looks for a child is asked that the node and its children stand in the row, and that these ascend up to the placeholder's key; nothing
// else is asked.
#![tactic(auto)]

ghost use Rattle.std.specs.Prelude.{◌≡◌, ◌+◌};
ghost use Rattle.model.specs.Children.{placeholder_key};
ghost use Rattle.nodes.specs.Rows.{InRun, ChildFor};

use model::PLACEHOLDER_KEY;

// The root has no element: the first number that is no key. It is no None, since C lends the row and reads the keys as numbers.
pub const ROOT_KEY: u16 = 258;

// A node: the key of its element, its first child and how many children stand from there on, the number of its template, how many
// elements may follow it, and how many placeholders stand up to and with it.
#[repr(C)]
#[derive(Clone, Copy, Default)]
pub struct Node {
    pub element: u16,
    pub first: u16,
    pub count: u16,
    pub template: u16,
    pub height: u16,
    pub holes: u16,
}

impl Node {
    // Where its children begin.
    pub fn first_child(self) -> usize
        ensures { result ≡ self.first }
    {
        usize::from(self.first)
    }

    // Where they end.
    pub fn end_of_children(self) -> usize
        ensures { result ≡ self.first + self.count }
    {
        usize::from(self.first) + usize::from(self.count)
    }
}

// The child of a node for the element with this key, if there is one.
pub fn child(nodes: &[Node], node: usize, key: u16) -> Option<usize>
    requires { InRun nodes.now node }
    ensures { ChildFor nodes.now node key result }
{
    let n = nodes[node];
    let first = n.first_child();
    let end = n.end_of_children();
    nodes[first..end]
        .binary_search_by_key(&key, |n| n.element)
        .ok()
        .map(|i| first + i)
}

// The placeholder child of a node, if there is one: it is the last child.
#[tactic(auto, using(crate::proofs::Looks::no_children, crate::proofs::Looks::last_found, crate::proofs::Looks::last_other))]
pub fn placeholder_child(nodes: &[Node], node: usize) -> Option<usize>
    requires { InRun nodes.now node }
    ensures { ChildFor nodes.now node placeholder_key result }
{
    let n = nodes[node];
    if n.count == 0 {
        return None;
    }
    let last = n.end_of_children() - 1;
    if nodes[last].element == PLACEHOLDER_KEY {
        return Some(last);
    }
    None
}
