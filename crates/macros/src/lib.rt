// The table of a text's macros, with a place for every macro that a text may have.
#![tactic(auto)]

ghost use Rattle.std.specs.Prelude.{◌≡◌, ◌+◌, ◌≤◌, ◌<◌, length};
ghost use Rattle.model.specs.Limits.{macros_most};
ghost use Rattle.macros.specs.Table.{start_in, len_in, line_in, order_in, template_in, PutsMacro};

use model::MACROS_MOST;

// What the table has of a macro: places in the text, since a table borrows none.
#[derive(Clone, Copy, Default)]
pub struct Entry {
    // where its template starts, and how long that is
    pub start: usize,
    pub len: usize,
    // the number of its line
    pub line: usize,
    // where its body starts
    pub body: usize,
}

// So many macros: what is kept of each in the order of the text, and their numbers in the order of their templates' keys.
// Arrays with a count beside them, since the library has no heap; an order of numbers, since readings and the report go by that of the text.
#[derive(Clone, Copy, Default)]
pub struct Table {
    pub entries: [Entry; MACROS_MOST],
    pub order: [usize; MACROS_MOST],
    pub count: usize,
}

// A macro's number is an index of `entries` and what `order` holds: a type of its own would be made of a number, and read as one, at each use.
impl Table {
    // Template k, which lies in the text.
    pub fn template<'a>(&self, text: &'a [u8], k: usize) -> &'a [u8]
        requires { (k < macros_most) × (start_in self.now k + len_in self.now k ≤ length text.now) }
        ensures { result.now ≡ template_in text.now self.now k }
    {
        let entry = self.entries[k];
        &text[entry.start..entry.start + entry.len]
    }

    // The number of macro k's line.
    pub fn line_of(&self, k: usize) -> usize
        requires { k < macros_most }
        ensures { result ≡ line_in self.now k }
    {
        self.entries[k].line
    }

    // The number of the macro at a place of the order.
    pub fn macro_at(&self, place: usize) -> usize
        requires { place < macros_most }
        ensures { result ≡ order_in self.now place }
    {
        self.order[place]
    }

    // Puts the next macro into the table, and its number at a place of the order; those from there on stand one place further.
    pub fn insert(&mut self, entry: Entry, place: usize)
        requires { (self.old.count < macros_most) × (place ≤ self.old.count) }
        ensures { PutsMacro self.old entry place self.new }
    {
        let k = self.count;
        self.entries[k] = entry;
        self.order.copy_within(place..k, place + 1);
        self.order[place] = k;
        self.count += 1;
    }
}
