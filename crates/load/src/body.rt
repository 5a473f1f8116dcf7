// A line of a macro's body: a code line, a layout, or the macro's end.
ghost use Rattle.std.specs.Prelude.{◌≡◌, true};
ghost use Rattle.load.specs.Lines.{in_body};
ghost use Rattle.load.specs.Body.{Nests, Follows, AddsCode, EndsMacro};

use super::{Loaded, Loader, Next, SectionLine, Seen};
use code::read_effect;
use faults::LoadFault;
use model::{CODE_LINES_MOST, Effect, LINE_MOST, Marks, NESTING_MOST};
use scan::find_byte;

// What follows a code line with this effect, where n iterations are open, unless it is malformed or out of place.
#[tactic(auto, unfolding(model::specs::Load::unmatched, model::specs::Load::open_after, model::specs::Load::is_owner))]
fn nest(e: Effect, n: usize) -> Option<Next>
    ensures { Nests e n result }
{
    match e {
        Effect::Malformed => None,
        Effect::Opens if NESTING_MOST <= n => None,
        Effect::Closes if n == 0 => None,
        Effect::Plain => Some(Next::Code(n)),
        Effect::Opens => Some(Next::Code(n + 1)),
        Effect::Closes => Some(Next::Code(n - 1)),
        Effect::Owns => Some(Next::Layout(n)),
    }
}

// What follows a line with this content: after a template comes code, and a layout is no code.
#[tactic(auto, unfolding(model::specs::Load::effect_here, model::specs::Load::unmatched, model::specs::Load::open_after, model::specs::Load::is_owner))]
fn follow(m: Marks, next: Next, content: &[u8]) -> Option<Next>
    ensures { Follows m next content.now result }
{
    match next {
        Next::Template => Some(Next::Code(0)),
        Next::Code(n) => nest(read_effect(m, content), n),
        Next::Layout(n) => Some(Next::Code(n)),
    }
}

impl Loader {
    // A code line or a layout.
    #[tactic(auto, using(crate::proofs::Laws::content_is), unfolding(model::specs::Load::code_line, model::specs::Load::lowest, model::specs::Load::unless))]
    pub fn add_code(&mut self, m: Marks, line: &[u8]) -> Seen
        requires { in_body self.old.next ≡ true }
        ensures { AddsCode m self.old line.now self.new result }
    {
        let content = &line[..find_byte(line, 0, m.code)];
        if LINE_MOST < content.len() {
            return Err(LoadFault::LongContent);
        }
        let next = follow(m, self.next, content).ok_or(LoadFault::BadCode)?;
        if CODE_LINES_MOST <= self.codes {
            return Err(LoadFault::OverLimit);
        }
        self.codes += 1;
        self.next = next;
        Ok(None)
    }

    // A line that begins with mark 3 ends the macro, and with two of them the section; `rest` is what follows the first.
    #[tactic(auto, using(crate::proofs::Laws::begins_as, crate::proofs::Laws::unclear), unfolding(model::specs::Load::after_line))]
    pub fn end_macro(&mut self, m: Marks, line: &SectionLine, rest: &[u8]) -> Seen
        requires { in_body self.old.next ≡ true }
        ensures { EndsMacro m self.old line.now.nth line.now.next rest.now self.new result }
    {
        if self.next != Next::Code(0) {
            return Err(LoadFault::BadCode);
        }
        if rest.starts_with(&[m.code]) {
            // each field by itself: a loader is no loaded text
            return Ok(Some(Loaded {
                line: line.nth,
                marks: m,
                nodes: self.nodes,
                input: line.next,
            }));
        }
        self.next = Next::Template;
        Ok(None)
    }
}
