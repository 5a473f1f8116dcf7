// The first reading of a line by the templates (document 01, "Fitting a line"): a recursive search over node and position, which takes up
// no place twice (document 02, ticket 3). A dead place, which was found to lead nowhere, is marked by its bit in a lent row.
// first_reading asks that the nodes are a tree, that the line is short enough, and that the lent row has a bit for each place. The five searches
// call one another, and are proved together.
#![tactic(auto)]

ghost use Rattle.std.specs.Prelude.{◌≡◌, ◌+◌, ◌*◌, ◌^◌, ◌<◌, ◌≤◌, length};
ghost use Rattle.model.specs.Limits.{line_most, nodes_most};
ghost use Rattle.model.specs.Children.{element_of};
ghost use Rattle.atom.specs.Atoms.{brackets};
ghost use Rattle.fit.specs.Outcome.{StoresPiece, PassesAtom, EndsTemplate, Counts, element_at, Asks, SearchedIn, TakenUp, ByteSearched, PieceSearched, AtomSearched};
ghost use Rattle.fit.specs.Chosen.{reading_of, choice_of, Fits, Chooses};

use atom::scan_atom;
use model::{END_KEY, Marks, PLACEHOLDER_KEY};
use nodes::{Node, child, placeholder_child};
use places::{clear, is_dead, set_dead};

// A call: the number of its template, and where each piece starts and its length: two rows, as the C interface answers them.
#[derive(Clone, Copy)]
pub struct Reading {
    pub template: usize,
    pub starts: [usize; 9],
    pub lens: [usize; 9],
}

// What a line is: a call, if it has a reading; how many places were taken up to find it; and how many bytes were read.
#[derive(Clone, Copy)]
pub struct Choice {
    pub reading: Option<Reading>,
    pub places: usize,
    pub bytes: usize,
}

// What a search notes: where each piece starts and its length, in two rows as a reading has them, how many places were taken up, how many bytes
// were read where the next atom was looked for, and where something is found the length of what is left of the piece that is open where the
// search starts. So nothing is handed back and added up at every place.
#[derive(Drop)]
struct Notes {
    starts: [usize; 9],
    lens: [usize; 9],
    places: usize,
    bytes: usize,
    rest: usize,
}

impl Notes {
    // Piece k starts at a place: what is left of it is all of it.
    #[tactic(auto, using(crate::proofs::Stored::piece_stored))]
    fn store_piece(&mut self, k: usize, at: usize)
        requires { k < 9 }
        ensures { StoresPiece k at self.old self.new }
    {
        self.starts[k] = at;
        self.lens[k] = self.rest;
        self.rest = 0;
    }

    // The open piece has an atom of n bytes more.
    fn pass_atom(&mut self, n: usize)
        requires { self.old.rest + n < 2 ^ 64 }
        ensures { PassesAtom n self.old self.new }
    {
        self.rest += n;
    }

    // A template ends: its place is taken up, and no piece is open.
    fn end_template(&mut self)
        ensures { EndsTemplate self.old self.new }
    {
        self.count_place();
        self.rest = 0;
    }

    // A place is taken up. That no count comes near 2^64 is known of a whole search alone (Few); here it may wrap.
    fn count_place(&mut self)
        ensures { Counts 1 0 self.old self.new }
    {
        self.places = self.places.wrapping_add(1);
    }

    // So many bytes were read.
    fn count_bytes(&mut self, n: usize)
        ensures { Counts 0 n self.old self.new }
    {
        self.bytes = self.bytes.wrapping_add(n);
    }

    // The call of a template, with the pieces that are noted.
    fn read_pieces(&self, template: usize) -> Reading
        ensures { result ≡ reading_of self.now template }
    {
        // two of five fields: a struct of the two in both would put one more name before each piece
        Reading {
            template,
            starts: self.starts,
            lens: self.lens,
        }
    }

    // A reading or none, with what is counted.
    fn choose(&self, reading: Option<Reading>) -> Choice
        ensures { result ≡ choice_of self.now reading }
    {
        // two of five fields again, which the searches count one by one
        Choice {
            reading,
            places: self.places,
            bytes: self.bytes,
        }
    }
}

// What each search is given and none changes: the two brackets, the row of nodes, the line. Of the marks the brackets alone go along.
#[derive(Clone, Copy)]
struct Task<'a> {
    left: u8,
    right: u8,
    nodes: &'a [Node],
    line: &'a [u8],
}

// The number of a place: so many positions for each node.
#[tactic(auto, using(crate::proofs::Taken::product_fits, crate::proofs::Taken::number_fits))]
fn number_place(end: usize, node: usize, at: usize) -> usize
    requires { (node < nodes_most) × (end ≤ line_most) × (at ≤ end) }
    ensures { result ≡ node * (end + 1) + at }
{
    node * (end + 1) + at
}

// The key of the element that leads on at a place of a line: the byte's, or the template's end. It is a number, as in templates.
// `at` stays beside the line: it is half of a place, and places are numbered by it.
#[tactic(auto, using(crate::proofs::Steps::element_byte, crate::proofs::Steps::element_end))]
fn element_at(line: &[u8], at: usize) -> u16
    ensures { element_of result ≡ element_at line.now at }
{
    match line.get(at) {
        Some(byte) => u16::from(*byte),
        None => END_KEY,
    }
}

// The place of the node and the position `at`: it is taken up unless it is dead, and dead where it leads nowhere. The node's height and what is
// left of the line fall from search to search.
// The five searches have the same parameters: a struct of the two `&mut` would have to say at each call that both are the caller's.
#[cycle(search)]
#[tactic(auto, using(crate::proofs::Steps::asks_number, crate::proofs::Steps::asks_bit, crate::proofs::Taken::place_searched))]
fn search(task: &Task, dead: &mut [u8], notes: &mut Notes, node: usize, at: usize) -> Option<usize>
    requires { Asks task.now.nodes.now dead.old task.now.line.now node at }
    ensures { SearchedIn (brackets task.now.left task.now.right) task.now.nodes.now task.now.line.now node at
        dead.old dead.new notes.old notes.new result }
{
    let place = number_place(task.line.len(), node, at);
    if is_dead(dead, place) {
        return None;
    }
    notes.count_place();
    let found = take_up(task, dead, notes, node, at);
    if found.is_none() {
        set_dead(dead, place);
    }
    found
}

// From a place by the next byte or the line's end, else by a placeholder, else by an atom more.
// Asks, here and in the other four, speaks of the node and the position, which change with each search: it is no fact of the task.
#[cycle(search)]
#[tactic(auto, using(crate::proofs::Steps::asks_again, crate::proofs::Taken::steps_taken))]
fn take_up(task: &Task, dead: &mut [u8], notes: &mut Notes, node: usize, at: usize) -> Option<usize>
    requires { Asks task.now.nodes.now dead.old task.now.line.now node at }
    ensures { TakenUp (brackets task.now.left task.now.right) task.now.nodes.now task.now.line.now node at
        dead.old dead.new notes.old notes.new result }
{
    if let Some(end) = search_byte(task, dead, notes, node, at) {
        return Some(end);
    }
    if let Some(end) = search_piece(task, dead, notes, node, at) {
        return Some(end);
    }
    search_atom(task, dead, notes, node, at)
}

// To the child for the next byte, or for the template's end.
// Parameters and fact as in search and take_up: `at` is a place of the line, and of `dead` each search asks the same.
#[cycle(search)]
#[tactic(auto, using(crate::proofs::Steps::byte_steps))]
fn search_byte(
    task: &Task,
    dead: &mut [u8],
    notes: &mut Notes,
    node: usize,
    at: usize,
) -> Option<usize>
    requires { Asks task.now.nodes.now dead.old task.now.line.now node at }
    ensures { ByteSearched (brackets task.now.left task.now.right) task.now.nodes.now task.now.line.now node at
        dead.old dead.new notes.old notes.new result }
{
    let next = child(task.nodes, node, element_at(task.line, at))?;
    if at == task.line.len() {
        notes.end_template();
        return Some(next);
    }
    search(task, dead, notes, next, at + 1)
}

// To the placeholder's child, where a piece starts.
// Parameters and fact as in search and take_up.
#[cycle(search)]
#[tactic(auto, using(crate::proofs::Steps::piece_steps))]
fn search_piece(
    task: &Task,
    dead: &mut [u8],
    notes: &mut Notes,
    node: usize,
    at: usize,
) -> Option<usize>
    requires { Asks task.now.nodes.now dead.old task.now.line.now node at }
    ensures { PieceSearched (brackets task.now.left task.now.right) task.now.nodes.now task.now.line.now node at
        dead.old dead.new notes.old notes.new result }
{
    let next = placeholder_child(task.nodes, node)?;
    let end = search(task, dead, notes, next, at)?;
    notes.store_piece(usize::from(task.nodes[node].holes), at);
    Some(end)
}

// An atom more in the open piece, if the node is a placeholder's.
// Parameters and fact as in search and take_up.
#[cycle(search)]
#[tactic(auto, using(crate::proofs::Steps::atom_steps))]
fn search_atom(
    task: &Task,
    dead: &mut [u8],
    notes: &mut Notes,
    node: usize,
    at: usize,
) -> Option<usize>
    requires { Asks task.now.nodes.now dead.old task.now.line.now node at }
    ensures { AtomSearched (brackets task.now.left task.now.right) task.now.nodes.now task.now.line.now node at
        dead.old dead.new notes.old notes.new result }
{
    if task.nodes[node].element != PLACEHOLDER_KEY {
        return None;
    }
    let atom = scan_atom(task.line, at, task.left, task.right);
    notes.count_bytes(atom.read);
    let past = atom.end?;
    let end = search(task, dead, notes, node, past)?;
    notes.pass_atom(past - at);
    Some(end)
}

// The first of all readings of a line by the templates of a tree. At first no place of the tree and the line is dead.
#[tactic(auto, using(crate::proofs::Taken::places_fit, crate::proofs::Taken::clear_fits, crate::proofs::Taken::asks_root, crate::proofs::Choose::found_there))]
pub fn first_reading(m: Marks, nodes: &[Node], dead: &mut [u8], line: &[u8]) -> Choice
    requires { Fits nodes.now (length nodes.now) dead.old line.now }
    ensures { Chooses m nodes.now (length nodes.now) line.now result }
{
    clear(dead, nodes.len() * (line.len() + 1));
    // by hand, since Default says of an array what each element is, and the law of the search begins with the rows themselves
    let mut notes = Notes {
        starts: [0; 9],
        lens: [0; 9],
        places: 0,
        bytes: 0,
        rest: 0,
    };
    // of the marks the two brackets alone go along
    let task = Task {
        left: m.left,
        right: m.right,
        nodes,
        line,
    };
    let Some(end) = search(&task, dead, &mut notes, 0, 0) else {
        return notes.choose(None);
    };
    let reading = notes.read_pieces(usize::from(nodes[end].template));
    notes.choose(Some(reading))
}
