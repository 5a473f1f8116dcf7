// The loop over the lines of the section.
ghost use Rattle.std.specs.Prelude.{◌≡◌, drop};
ghost use Rattle.model.specs.Text.{lines};
ghost use Rattle.model.specs.Load.{none_read, load_from};
ghost use Rattle.load.specs.Answer.{Loads};
ghost use Rattle.load.specs.Head.{SectionAt};
ghost use Rattle.load.specs.Lines.{TableSound, LineIn, SeesLine};
ghost use Rattle.load.specs.Section.{RefusesAt};

use super::{Loaded, Loader, Next, Refused, SectionLine, Seen};
use faults::LoadFault;
use macros::Table;
use scan::{Marked, read_line};

impl SectionLine<'_> {
    // A fault of this line: at the text's last line a section that isn't ended comes before a limit that is passed.
    #[tactic(auto, using(scan::proofs::Lines::lines_none, scan::proofs::Lines::lines_at), unfolding(model::specs::Load::lowest_at))]
    fn refuse(&self, text: &[u8], fault: LoadFault) -> Refused
        ensures { RefusesAt text.now self.now.next fault self.now.nth result }
    {
        let lowest = match fault {
            LoadFault::OverLimit if text.len() <= self.next => LoadFault::OpenSection,
            fault => fault,
        };
        Refused {
            fault: lowest,
            line: self.nth,
        }
    }
}

impl Loader {
    // The next line: a template's, or one of a macro's body.
    #[tactic(auto, using(crate::proofs::Laws::stripped), unfolding(model::specs::Load::line_seen))]
    fn see_line(&mut self, marked: &Marked, line: &SectionLine) -> Seen
        requires { TableSound marked.now.marks marked.now.text.now self.old × LineIn marked.now.text.now line.now.start line.now.bytes.now line.now.next }
        ensures { SeesLine marked.now.marks marked.now.text.now self.old line.now.nth line.now.bytes.now line.now.next self.new result }
    {
        let m = marked.marks;
        if let Next::Template = self.next {
            return self.add_macro(marked, line);
        }
        match line.bytes.strip_prefix(&[m.code]) {
            Some(rest) => self.end_macro(m, line, rest),
            None => self.add_code(m, line.bytes),
        }
    }
}

// The macros from the text's second line on, which starts at `first`, up to the section's end.
// The table is copied in and out: each method of a loader that holds a `&mut` would have to say that this is still the caller's.
#[tactic(auto, using(crate::proofs::Laws::none_inside, crate::proofs::Laws::none_in_order, crate::proofs::Laws::line_in, scan::proofs::Lines::lines_none), unfolding(model::specs::Load::load_from, model::specs::Load::load_on, model::specs::Load::none_read, model::specs::Load::nodes, model::specs::Load::nodes_from, macros::specs::Table::macros_in, macros::specs::Table::templates_in))]
pub fn load_section(marked: &Marked, first: usize, table: &mut Table) -> Result<Loaded, Refused>
    requires { SectionAt marked.now.text.now first }
    ensures { Loads (load_from marked.now.marks none_read 1 (lines (drop first marked.now.text.now))) marked.now.text.now table.new result }
{
    let text = marked.text;
    table.count = 0;
    let mut loader = Loader {
        table: *table,
        nodes: 1,
        codes: 0,
        next: Next::Template,
    };
    let mut n = 1;
    // no range: where the next line starts is what read_line says
    let mut at = first;
    while at < text.len() {
        let read = read_line(text, at);
        n += 1;
        let line = SectionLine {
            nth: n,
            start: at,
            bytes: &text[at..read.end],
            next: read.next,
        };
        match loader.see_line(marked, &line) {
            Ok(None) => at = line.next,
            Ok(Some(loaded)) => {
                *table = loader.table;
                return Ok(loaded);
            }
            Err(fault) => return Err(line.refuse(text, fault)),
        }
    }
    Err(Refused {
        fault: LoadFault::OpenSection,
        line: n,
    })
}
