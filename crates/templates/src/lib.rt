// The templates that the table of macros holds, in the order of their keys: where a new one goes and how many beginnings it adds, and
// the runs of those that have one key at a place.
#![tactic(auto)]

ghost use Rattle.std.specs.Prelude.{◌≡◌, ◌+◌, ◌≤◌, ◌<◌, eqb};
ghost use Rattle.model.specs.Children.{placeholder_key};
ghost use Rattle.macros.specs.Table.{templates_in, order_in, Entries};
ghost use Rattle.templates.specs.Count.{common};
ghost use Rattle.templates.specs.Keys.{keys, one, Key};
ghost use Rattle.templates.specs.Order.{InOrder, placed, Compared, FindsPlace, TakesRun};
ghost use Rattle.templates.specs.Unique.{ordered_prop};

use macros::Table;
use model::{END_KEY, PLACEHOLDER_KEY};

// How many elements two templates have in common at their beginnings; the end counts as one.
#[tactic(auto, using(crate::proofs::Matching::match_differ, crate::proofs::Matching::match_more, crate::proofs::Matching::match_all, crate::proofs::Matching::match_one))]
fn match_both(s: &[u8], t: &[u8]) -> usize
    ensures { result ≡ common s.now t.now }
{
    let shorter = s.len().min(t.len());
    // s.iter().zip(t).position(..) proves too, and takes 28 in 100 more instructions
    for x in 0..shorter {
        if s[x] != t[x] {
            return x;
        }
    }
    if s.len() == t.len() {
        return shorter + 1;
    }
    shorter
}

// The key at place x of a template, which may be its end, or lie past it: no slice says that.
// A key is a number and no enum: a node holds it, and C lends the row of nodes.
#[tactic(auto, using(crate::proofs::Keys::key_hole, crate::proofs::Keys::key_byte, crate::proofs::Keys::key_end))]
fn key_at(mark: u8, template: &[u8], x: usize) -> u16
    ensures { Key mark template.now x result }
{
    match template.get(x) {
        Some(&b) if b == mark => PLACEHOLDER_KEY,
        Some(&b) => u16::from(b),
        None => END_KEY,
    }
}

// Whether the template s has the lesser key at place x.
#[tactic(auto, using(crate::proofs::Comparing::compared))]
fn stands_before(mark: u8, s: &[u8], t: &[u8], x: usize) -> bool
    ensures { Compared mark s.now t.now x result }
{
    key_at(mark, s, x) < key_at(mark, t, x)
}

// Where a template goes in the order of others, and how many beginnings it has that none of them has.
#[derive(Clone, Copy)]
pub struct Found {
    pub place: usize,
    pub new: usize,
}

// Templates that stand next to each other in the order and have one key at a place: their key, the first of them in the text, and their
// places in the order.
// Places of the order are numbers, here and below, and no slices of it: a node has such a run as two numbers until it is given its children.
#[derive(Clone, Copy)]
pub struct Pick {
    pub key: u16,
    pub template: usize,
    pub from: usize,
    pub end: usize,
}

// The templates of a table in their order: the placeholder's mark, the text, and the table.
#[derive(Clone, Copy)]
pub struct Ordered<'a> {
    pub mark: u8,
    pub text: &'a [u8],
    pub table: &'a Table,
    pub ghost in_order: { Entries text.now table.now table.now.count × InOrder mark (templates_in text.now table.now table.now.count) (order_in table.now) } by { ordered_prop },
}

impl<'a> Ordered<'a> {
    ghost use Rattle.templates.specs.Listed.{templates_of, order_of};

    // The template at a place of the order.
    #[tactic(auto, using(crate::proofs::Placed::placed_few, crate::proofs::Placed::placed_inside, crate::proofs::Placed::placed_is))]
    fn template_at(&self, place: usize) -> &'a [u8]
        requires { place < self.now.table.now.count }
        ensures { result.now ≡ placed (templates_of self.now) (order_of self.now) place }
    {
        self.table.template(self.text, self.table.macro_at(place))
    }

    // Where a template goes, or nothing where it is one of them. Of all of these, its neighbours there have the most in common with it: the
    // places are halved by hand, since no search of the library says how much that is.
    #[tactic(auto, using(crate::proofs::Finding::seek_all, macros::proofs::Entries::templates_in_length))]
    pub fn find_place(&self, template: &[u8]) -> Option<Found>
        ensures { FindsPlace self.now.mark (templates_of self.now) (order_of self.now) template.now result }
    {
        let mut low = 0;
        let mut high = self.table.count;
        let mut below = 0;
        let mut above = 0;
        while low < high {
            let mid = (low + high) / 2;
            let other = self.template_at(mid);
            let both = match_both(template, other);
            if template.len() < both {
                return None;
            }
            if stands_before(self.mark, template, other, both) {
                high = mid;
                above = both;
            } else {
                low = mid + 1;
                below = both;
            }
        }
        Some(Found {
            place: low,
            new: (template.len() + 1) - below.max(above),
        })
    }

    // The key at place d of the template at a place of the order.
    fn key_in_order(&self, place: usize, d: usize) -> u16
        requires { place < self.now.table.now.count }
        ensures { (result ≡ keys self.now.mark (templates_of self.now) (order_of self.now place) d) × (result ≤ placeholder_key) }
    {
        key_at(self.mark, self.template_at(place), d)
    }

    // The run of those that have the key of the first at place d, from a place of the order on, before another.
    pub fn take_run(&self, from: usize, to: usize, d: usize) -> Pick
        requires { (from < to) × (to ≤ self.now.table.now.count) }
        ensures { (result.from ≡ from) × TakesRun (keys self.now.mark (templates_of self.now)) (order_of self.now) from to d result.key result.template result.end }
    {
        let key = self.key_in_order(from, d);
        let mut template = self.table.macro_at(from);
        for end in from + 1..to {
            if self.key_in_order(end, d) != key {
                return Pick {
                    key,
                    template,
                    from,
                    end,
                };
            }
            template = template.min(self.table.macro_at(end));
        }
        Pick {
            key,
            template,
            from,
            end: to,
        }
    }
}

// How many placeholders stand before and at a key.
pub fn holes_past(o: u16, k: u16) -> u16
    requires { o < 1000 }
    ensures { result ≡ o + one (eqb k placeholder_key) }
{
    if k == PLACEHOLDER_KEY {
        return o + 1;
    }
    o
}
