// The bytes, lines and marks of a text, as places in the lent text.
// Places, and no slices of what is left, here and below: calls and the state keep them, and borrow nothing; so that each lies in the text is asked.
#![tactic(auto)]

ghost use Rattle.std.specs.Prelude.{◌≡◌, ◌∷◌, ◌+◌, ◌≤◌, ◌<◌, length, min};
ghost use Rattle.model.specs.Legal.{operators};
ghost use Rattle.scan.specs.Lines.{FindsByte, Has, LineAt, FindsEnd, ContentAt, BeginsMarked, CodeAt, PlainByte, AllPlain, AllDiffer, LegalMarks, MarksAt};

use model::Marks;

// A line, or its content, which starts at a known place: where it ends, and where the next line starts.
#[derive(Clone, Copy)]
pub struct Line {
    pub end: usize,
    pub next: usize,
}

// The place of the first b in s from `from` on, or the end of s where there is none.
// It is no Option, since every caller goes on at the end. A `for` costs nothing; std's `position` takes 4 to 14 % more in a walk over lines,
// the more the shorter they are. A call for the rest of every code line would cost more than the bytes that it reads.
#[inline(always)]
#[tactic(auto, using(crate::proofs::Places::seeking_goes_on, crate::proofs::Places::found_nowhere))]
pub fn find_byte(s: &[u8], from: usize, b: u8) -> usize
    requires { from ≤ length s.now }
    ensures { FindsByte s.now from (length s.now) b result }
{
    for i in from..s.len() {
        if s[i] == b {
            return i;
        }
    }
    s.len()
}

// Whether b is a byte of s: std's `contains` by the name of document 01's `has`, by which its callers' clauses are said.
pub fn has_byte(s: &[u8], b: u8) -> bool
    ensures { Has s.now b result }
{
    s.contains(&b)
}

// The place after the byte 10 at `stop`, or the end of the text. std's `min` says the same, and takes 2 to 7 % more in a walk over lines.
fn pass_end(text: &[u8], stop: usize) -> usize
    requires { stop ≤ length text.now }
    ensures { result ≡ min (length text.now) (stop + 1) }
{
    if stop < text.len() { stop + 1 } else { stop }
}

// The line at a place: it ends before byte 10, or with the text.
#[tactic(auto, using(crate::proofs::Places::line_found))]
pub fn read_line(text: &[u8], at: usize) -> Line
    requires { at < length text.now }
    ensures { LineAt text.now at result.end result.next }
{
    let end = find_byte(text, at, b'\n');
    Line {
        end,
        next: pass_end(text, end),
    }
}

// Where the content at a place ends: before the first mark or byte 10, or with the text. Both are tested with a branch of their own,
// since one branch on either is slower.
// The index is counted here: a `for` takes 10 % more in a walk over code lines.
fn find_end(text: &[u8], at: usize, mark: u8) -> usize
    requires { at ≤ length text.now }
    ensures { FindsEnd text.now at mark result }
{
    let mut i = at;
    while i < text.len() {
        let b = text[i];
        if b == mark {
            return i;
        }
        if b == b'\n' {
            return i;
        }
        i += 1;
    }
    i
}

// The content of the line at a place: what precedes the mark, or all of it. Each byte is read once, but the one where the content ends.
fn read_content(text: &[u8], mark: u8, at: usize) -> Line
    requires { at < length text.now }
    ensures { ContentAt text.now mark at result.end result.next }
{
    let end = find_end(text, at, mark);
    let stop = find_byte(text, end, b'\n');
    Line {
        end,
        next: pass_end(text, stop),
    }
}

// Whether a line begins with the mark, where b is its first byte, or byte 10.
#[tactic(auto, using(crate::proofs::Places::begins_marked_is))]
fn begins_marked(b: u8, mark: u8) -> bool
    ensures { BeginsMarked b mark result }
{
    (b == mark) & (b != b'\n')
}

// A text with the marks of its flag line.
#[derive(Clone, Copy)]
pub struct Marked<'a> {
    pub marks: Marks,
    pub text: &'a [u8],
}

impl<'a> Marked<'a> {
    // The code line at a place of a body, unless the body ends there.
    #[tactic(auto, using(crate::proofs::Places::code_past, crate::proofs::Places::code_ends, crate::proofs::Places::code_more))]
    pub fn read_code(&self, at: usize) -> Option<Line>
        requires { at ≤ length self.now.text.now }
        ensures { CodeAt self.now.marks self.now.text.now at result }
    {
        if at == self.text.len() {
            return None;
        }
        let mark = self.marks.code;
        if begins_marked(self.text[at], mark) {
            return None;
        }
        Some(read_content(self.text, mark, at))
    }

    // The content of the input line at a place.
    pub fn read_input(&self, at: usize) -> Line
        requires { at < length self.now.text.now }
        ensures { ContentAt self.now.text.now self.now.marks.source at result.end result.next }
    {
        read_content(self.text, self.marks.source, at)
    }
}

// Whether a byte may be a mark: it is no digit, not F and not byte 0.
#[tactic(auto, unfolding(model::specs::Text::plain, model::specs::Text::is_digit))]
fn is_plain(b: u8) -> bool
    ensures { PlainByte b result }
{
    !matches!(b, b'0'..=b'9' | b'F' | 0)
}

// Whether each byte of s may be a mark.
fn all_plain(s: &[u8]) -> bool
    ensures { AllPlain s.now result }
{
    s.iter().all(|&b| is_plain(b))
}

// Whether no byte stands twice in s.
#[tactic(auto, using(crate::proofs::FlagLine::differ_on, crate::proofs::FlagLine::differ_fails, crate::proofs::FlagLine::differ_all))]
fn all_differ(s: &[u8]) -> bool
    ensures { AllDiffer s.now result }
{
    let mut rest = s;
    while let [b, after @ ..] = rest {
        if has_byte(after, *b) {
            return false;
        }
        rest = after;
    }
    true
}

// Whether two marks and marks 6 to 12 all differ. They are listed, as in are_legal.
fn pair_differs(a: u8, b: u8, m: Marks) -> bool
    ensures { AllDiffer (a ∷ b ∷ operators m) result }
{
    let marks = [
        a, b, m.blank, m.left, m.plus, m.minus, m.times, m.divide, m.right,
    ];
    all_differ(&marks)
}

// Whether marks are legal: all plain, and none equal but marks 1 and 3, and 2 and 4. The tests go over a row of bytes, and Marks, which
// has a name for each, is the model's: so they are listed here.
fn are_legal(m: Marks) -> bool
    ensures { LegalMarks m result }
{
    let marks = [
        m.source,
        m.placeholder,
        m.code,
        m.escape,
        m.blank,
        m.left,
        m.plus,
        m.minus,
        m.times,
        m.divide,
        m.right,
    ];
    let sources = pair_differs(m.source, m.placeholder, m);
    let codes = pair_differs(m.code, m.escape, m);
    let crossed = (m.source != m.escape) & (m.placeholder != m.code);
    all_plain(&marks) & (sources & (codes & crossed))
}

// The marks of a flag line, if it is legal.
#[tactic(auto, using(crate::proofs::FlagLine::fault_short, crate::proofs::FlagLine::fault_fifth))]
pub fn read_marks(line: &[u8]) -> Option<Marks>
    ensures { MarksAt line.now result }
{
    let &[
        source,
        placeholder,
        code,
        escape,
        b'0',
        blank,
        left,
        plus,
        minus,
        times,
        divide,
        right,
        ..
    ] = line
    else {
        return None;
    };
    let m = Marks {
        source,
        placeholder,
        code,
        escape,
        blank,
        left,
        plus,
        minus,
        times,
        divide,
        right,
    };
    are_legal(m).then_some(m)
}
