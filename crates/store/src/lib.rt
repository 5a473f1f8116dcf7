// Stored names and their texts, in memory of 8,704 bytes: 8,192 for names and texts, and two for the lengths of each
// of 256 entries. An entry is a byte with the name's length, one with the text's, the name and the text. Entries stand in
// the order in which their names were first stored, with nothing between them: so they are listed, and a map would want a heap.
// The bytes behind them are 0: so the names and texts alone say what all of the memory is, and a store can be copied.
#![tactic(auto)]

mod names;

ghost use Rattle.std.specs.Prelude.{◌≡◌, [], ◌+◌, ◌-◌, ◌≤◌, ◌<◌, length, get_or, replicate, option_copied};
ghost use Rattle.store.specs.Memory.{held, Kept, Holds};
ghost use Rattle.store.specs.Seek.{EntryAt, IsWithin, YieldsEntry, BeginsEntries, FindsEntry, Locates, SeeksName};
ghost use Rattle.std.specs.Iterator.{at_most};
ghost use Rattle.store.specs.Put.{Puts, StaysClean};
ghost use Rattle.store.specs.List.{part_at, each, Marked, WritesEach, ClosesNames, Lists};
ghost use Rattle.buffer.specs.Pasted.{Pasted};
ghost use Rattle.model.specs.Limits.{store_least};
ghost use Rattle.faults.specs.declared.RunFault.TheVariants.{FullStore};

use faults::RunFault;
use model::{MEMORY_MOST, NAMES_MOST};
pub use names::Store;

// How many entries there are, and how many bytes they take; both stand beside the memory, since the library has no heap.
#[derive(Clone, Copy)]
struct Index {
    pub count: usize,
    pub used: usize,
}

// There is no room for a name or its text.
#[derive(Clone, Copy)]
pub struct Full;

impl From<Full> for RunFault {
    ghost from_gives = { λ _ fault. fault ≡ FullStore };

    fn from(_full: Full) -> RunFault
        ensures { result ≡ RunFault.FullStore }
    {
        RunFault::FullStore
    }
}

// An entry: where it begins, its name and its text.
#[derive(Clone, Copy)]
struct Entry<'a> {
    at: usize,
    name: &'a [u8],
    text: &'a [u8],
}

// The entry that begins at offset at.
// An offset stays beside memory and room, here and below: where one entry ends the next begins, and the clauses speak of all their bytes.
#[tactic(auto, using(crate::proofs::Walk::entry_at))]
fn read_entry(memory: &[u8], at: usize) -> Entry<'_>
    requires { at + 2 + get_or memory.now at 0 + get_or memory.now (at + 1) 0 ≤ length memory.now }
    ensures { EntryAt memory.now at result }
{
    let name = at + 2;
    let text = name + usize::from(memory[at]);
    let next = text + usize::from(memory[at + 1]);
    Entry {
        at,
        name: &memory[name..text],
        text: &memory[text..next],
    }
}

// The entries that are left, the next of which begins at offset at.
#[derive(Drop)]
struct Entries<'a> {
    memory: &'a [u8],
    at: usize,
    left: usize,
}

impl<'a> Iterator for Entries<'a> {
    type Item = Entry<'a>;

    ghost can_next = { IsWithin };

    ghost next_gives = { YieldsEntry };

    ghost remaining = { λ s. at_most s.left };

    #[tactic(auto, using(crate::proofs::Walk::ahead, crate::proofs::Walk::nothing_left))]
    fn next(&mut self) -> Option<Entry<'a>> {
        // self.left.checked_sub(1)? proves too, and takes 7 in 100 more instructions of searches among sixty names
        if self.left == 0 {
            return None;
        }
        let entry = read_entry(self.memory, self.at);
        self.at += 2 + entry.name.len() + entry.text.len();
        self.left -= 1;
        Some(entry)
    }
}

// What is listed of each entry.
// No closure: the clauses say whether names or texts are written, and it would have to promise which, by a ghost value that no call here can pick.
#[derive(Clone, Copy)]
enum Part {
    Name,
    Text,
}

// Nothing is stored yet.
// Memory and index are two values, and below two parameters with Kept as a clause: a Store's value is a list, and these speak of its bytes.
#[tactic(auto, using(crate::proofs::Holding::nothing_yet))]
fn empty(memory: &[u8]) -> Index
    requires { length memory.now ≡ store_least }
    ensures { Holds memory.now result [] }
{
    Index { count: 0, used: 0 }
}

impl<'a> Entries<'a> {
    // All entries, in order.
    fn new(memory: &'a [u8], index: Index) -> Entries<'a>
        requires { Kept memory.now index }
        ensures { BeginsEntries memory.now index result }
    {
        Entries {
            memory,
            at: 0,
            left: index.count,
        }
    }
}

// The entry of a name, if it is stored.
// Entries::new(..).find(..) proves too, and takes 22 in 100 more instructions of searches among sixty names.
// same_bytes is `==` by the name of document 01's `same`: with `==` here, its proof would stand here once more.
#[tactic(auto, using(crate::proofs::Seeking::seek_here, crate::proofs::Seeking::seek_nowhere))]
fn find_entry<'a>(memory: &'a [u8], index: Index, name: &[u8]) -> Option<Entry<'a>>
    requires { Kept memory.now index }
    ensures { FindsEntry memory.now index name.now result }
{
    for entry in Entries::new(memory, index) {
        if buffer::same_bytes(entry.name, name) {
            return Some(entry);
        }
    }
    None
}

// The text that is stored under a name.
fn seek<'a>(memory: &'a [u8], index: Index, name: &[u8]) -> Option<&'a [u8]>
    requires { Kept memory.now index }
    ensures { SeeksName memory.now index name.now (option_copied result) }
{
    find_entry(memory, index, name).map(|entry| entry.text)
}

// The bytes from offset from up to offset to become 0. Where from is not below to, nothing changes.
fn clear(memory: &mut [u8], from: usize, to: usize)
    requires { to ≤ length memory.old }
    ensures { Pasted memory.old from (replicate (to - from) 0) (to - from) memory.new }
{
    if from < to {
        memory[from..to].fill(0);
    }
}

// The text of the name whose entry begins at offset at is replaced. An Entry in its place would lend the memory that is changed.
// name and text are slices of the caller's, here and below: as a type of at most 255 bytes each would be copied before it is stored.
#[tactic(auto, using(crate::proofs::Placed::entry_used, crate::proofs::Placed::used_within))]
fn replace(
    memory: &mut [u8],
    index: Index,
    at: usize,
    name: &[u8],
    text: &[u8],
) -> Result<Index, Full>
    requires kept { Kept memory.old index × Locates memory.old index name.now (Some at) }
    requires text_len_bound { length text.now < 256 }
    ensures puts { Puts memory.old index name.now text.now memory.new result }
    ensures clean { StaysClean memory.old index memory.new result }
{
    let from = at + 2 + name.len();
    let next = from + usize::from(memory[at + 1]);
    let end = from + text.len();
    let tail = index.used - next;
    if MEMORY_MOST + 2 * index.count < end + tail {
        return Err(Full);
    }
    buffer::shift(memory, end, next, tail);
    buffer::copy(memory, from, text);
    // the `requires` says that it is below 256; what u8::try_from would refuse cannot be
    memory[at + 1] = text.len() as u8;
    let used = end + tail;
    // a shorter text leaves bytes behind the new end
    clear(memory, used, index.used);
    Ok(Index { used, ..index })
}

// A new name and its text come last.
fn append_entry(memory: &mut [u8], index: Index, name: &[u8], text: &[u8]) -> Result<Index, Full>
    requires kept { Kept memory.old index × Locates memory.old index name.now None }
    requires name_len_bound { (length name.now < 256) × (length text.now < 256) }
    ensures puts { Puts memory.old index name.now text.now memory.new result }
    ensures clean { StaysClean memory.old index memory.new result }
{
    let Index { count, used } = index;
    if count == NAMES_MOST {
        return Err(Full);
    }
    let from = used + 2;
    let middle = from + name.len();
    let end = middle + text.len();
    if MEMORY_MOST + 2 * (count + 1) < end {
        return Err(Full);
    }
    // the `requires` says that both are below 256; what u8::try_from would refuse cannot be
    memory[used] = name.len() as u8;
    memory[used + 1] = text.len() as u8;
    buffer::copy(memory, from, name);
    buffer::copy(memory, middle, text);
    Ok(Index {
        count: count + 1,
        used: end,
    })
}

// The text is stored under the name, in place of the one before. Where there is no room, nothing changes.
fn put(memory: &mut [u8], index: Index, name: &[u8], text: &[u8]) -> Result<Index, Full>
    requires kept { Kept memory.old index }
    requires name_len_bound { (length name.now < 256) × (length text.now < 256) }
    ensures puts { Puts memory.old index name.now text.now memory.new result }
    ensures clean { StaysClean memory.old index memory.new result }
{
    let Some(Entry { at, .. }) = find_entry(memory, index, name) else {
        return append_entry(memory, index, name, text);
    };
    replace(memory, index, at, name, text)
}

// The name of an entry, or its text.
fn part_of<'a>(entry: Entry<'a>, part: Part) -> &'a [u8]
    ensures { result.now ≡ part_at part (entry.entry.name.now, entry.entry.text.now) }
{
    match part {
        Part::Name => entry.name,
        Part::Text => entry.text,
    }
}

// All of src and a mark after it, to room from offset at; the answer is where they end, at which the next one begins.
fn write_marked(src: &[u8], mark: u8, room: &mut [u8], at: usize) -> usize
    requires { at + length src.now < length room.old }
    ensures { Marked room.old at src.now mark result room.new }
{
    buffer::copy(room, at, src);
    let end = at + src.len();
    room[end] = mark;
    end + 1
}

// A part of each entry, and a mark after it, to room from offset start; the answer is where they end.
#[tactic(auto, using(crate::proofs::Writing::writing_each))]
fn write_each(
    memory: &[u8],
    index: Index,
    part: Part,
    mark: u8,
    room: &mut [u8],
    start: usize,
) -> usize
    requires kept { Kept memory.now index }
    requires memory_in_bounds { start + length (each part mark (held index.count memory.now)) ≤ length room.old }
    ensures { WritesEach memory.now index part mark start room.old result room.new }
{
    let mut w = start;
    for entry in Entries::new(memory, index) {
        w = write_marked(part_of(entry, part), mark, room, w);
    }
    w
}

// The byte 10 that ends the names takes the place of the byte 0 after the last of them, or stands alone.
fn close_names(room: &mut [u8], end: usize) -> usize
    requires { (end ≤ length room.old) × (0 < length room.old) }
    ensures { ClosesNames end room.old result room.new }
{
    if end == 0 {
        room[0] = b'\n';
        return 1;
    }
    room[end - 1] = b'\n';
    end
}

// The listing, to the front of room: the names with a byte 0 between two, a byte 10, and each text with a byte 10 after it.
// The answer is its length.
#[tactic(auto, using(crate::proofs::Listed::names_fit, crate::proofs::Listed::texts_fit))]
fn listing(memory: &[u8], index: Index, room: &mut [u8]) -> usize
    requires kept { Kept memory.now index }
    requires store_least_in_bounds { store_least ≤ length room.old }
    ensures { Lists memory.now index room.old result room.new }
{
    let names = write_each(memory, index, Part::Name, 0, room, 0);
    let end = close_names(room, names);
    write_each(memory, index, Part::Text, b'\n', room, end)
}
