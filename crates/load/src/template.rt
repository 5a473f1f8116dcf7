// A line at a template's place: its template is tested, and the macro that it begins goes into the table.
ghost use Rattle.std.specs.Prelude.{◌≡◌, ◌==◌, ◌≤◌, length, count_by};
ghost use Rattle.model.specs.Limits.{nodes_most};
ghost use Rattle.macros.specs.Table.{templates_in, order_in};
ghost use Rattle.load.specs.declared.Next.TheVariants.{Template};
ghost use Rattle.load.specs.Lines.{TableSound, LineIn, SeesLine};
ghost use Rattle.load.specs.Template.{Weighs};

use super::{Loader, Next, SectionLine, Seen};
use faults::LoadFault;
use macros::Entry;
use model::{LINE_MOST, MACROS_MOST, NODES_MOST, PLACEHOLDERS_MOST};
use scan::{Marked, find_byte};
use templates::{Found, Ordered};

// How many of the bytes are b.
fn count_byte(s: &[u8], b: u8) -> usize
    ensures { result ≡ count_by (λ x. x == b) s.now }
{
    s.iter().filter(|x| **x == b).count()
}

// A template, after others, whose tree has so many nodes: where it goes in their order, and how many nodes it adds.
#[tactic(auto, using(crate::proofs::Macros::counted_by, crate::proofs::Macros::tabled_length, macros::proofs::Entries::templates_in_length), unfolding(model::specs::Load::template_fault, model::specs::Load::lowest))]
fn weigh_template(ordered: &Ordered, nodes: usize, template: &[u8]) -> Result<Found, LoadFault>
    requires { nodes ≤ nodes_most }
    ensures { Weighs ordered.now.mark (templates_in ordered.now.text.now ordered.now.table.now ordered.now.table.now.count) (order_in ordered.now.table.now) nodes template.now result }
{
    if LINE_MOST < template.len() {
        return Err(LoadFault::LongContent);
    }
    if PLACEHOLDERS_MOST < count_byte(template, ordered.mark) {
        return Err(LoadFault::ManyPlaceholders);
    }
    let place = ordered.find_place(template);
    let found = place.ok_or(LoadFault::MetTemplate)?;
    if MACROS_MOST <= ordered.table.count || NODES_MOST - nodes < found.new {
        return Err(LoadFault::OverLimit);
    }
    Ok(found)
}

impl Loader {
    // A template's line: the macro that it begins, whose body starts at the next line, is the table's next, and goes to its place in the order.
    #[tactic(auto, using(crate::proofs::Laws::content_is, crate::proofs::Macros::tabled, macros::proofs::Entries::templates_in_length), unfolding(model::specs::Load::line_seen, model::specs::Load::template_line, model::specs::Load::unless))]
    pub fn add_macro(&mut self, marked: &Marked, line: &SectionLine) -> Seen
        requires table_sound { TableSound marked.now.marks marked.now.text.now self.old × (self.old.next ≡ Template) }
        requires line_in { LineIn marked.now.text.now line.now.start line.now.bytes.now line.now.next }
        ensures { SeesLine marked.now.marks marked.now.text.now self.old line.now.nth line.now.bytes.now line.now.next self.new result }
    {
        let m = marked.marks;
        let stop = find_byte(line.bytes, 0, m.source);
        let template = &line.bytes[..stop];
        let ordered = Ordered {
            mark: m.placeholder,
            text: marked.text,
            table: &self.table,
        };
        let found = weigh_template(&ordered, self.nodes, template)?;
        let entry = Entry {
            start: line.start,
            len: template.len(),
            line: line.nth,
            body: line.next,
        };
        self.table.insert(entry, found.place);
        self.nodes += found.new;
        self.next = Next::Code(0);
        Ok(None)
    }
}
