// Loading a text (document 01, "The text"): one pass over its lines, which fills the table of macros or ends at the first fault.
// The head is tested first: the text's size and bytes, and its flag line. Then the section is read line by line: a macro's
// template, its code lines, its end. A fault stands at a line: the head's, a line's own, or
// that of a section that isn't ended.
#![tactic(auto)]

mod body;
mod head;
mod section;
mod template;

ghost use Rattle.model.specs.Load as model-load;
ghost use Rattle.load.specs.Answer.{Loads};

use faults::LoadFault;
use head::read_text_head;
use macros::Table;
use model::Marks;
use scan::Marked;
use section::load_section;

// Lines, templates, bodies and the input go by places of the text, here and below: the table and the state keep them, and borrow nothing.
// What a text that loads comes to.
#[derive(Clone, Copy)]
pub struct Loaded {
    // its section's last line
    pub line: usize,
    pub marks: Marks,
    // its templates' tree has so many nodes
    pub nodes: usize,
    // where the input starts
    pub input: usize,
}

// Why a text is refused, and the line that is at fault.
#[derive(Clone, Copy)]
pub struct Refused {
    pub fault: LoadFault,
    // 0 is the text as a whole: document 01's number, which C reads
    pub line: usize,
}

// What the next line is: a template, a code line, or a layout, with the iterations that are open there.
#[derive(Clone, Copy, PartialEq, Eq)]
enum Next {
    Template,
    Code(usize),
    Layout(usize),
}

// A line of the section. Its places stand beside its bytes, since the table borrows no text: it keeps where a template and a body start.
#[derive(Clone, Copy)]
struct SectionLine<'a> {
    // its number
    nth: usize,
    start: usize,
    bytes: &'a [u8],
    // where the next line starts
    next: usize,
}

// How far the macros are read. Marks and text are no fields of it: each method changes it, and its clause would have to say that they stay.
#[derive(Clone, Copy)]
struct Loader {
    // the macros so far, and the nodes of their tree
    table: Table,
    nodes: usize,
    // the code lines so far
    codes: usize,
    next: Next,
}

// What a line comes to: its fault, or the loaded text where it ends the section.
type Seen = Result<Option<Loaded>, LoadFault>;

// Loads a text into the table of macros.
pub fn load(text: &[u8], table: &mut Table) -> Result<Loaded, Refused>
    ensures { Loads (model-load.load text.now) text.now table.new result }
{
    let head = read_text_head(text)?;
    let marked = Marked {
        marks: head.marks,
        text,
    };
    load_section(&marked, head.first, table)
}
