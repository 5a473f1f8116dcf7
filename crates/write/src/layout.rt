// A layout with the parameters in its fields.

ghost use Rattle.std.specs.Prelude.{◌≡◌, ◌≤◌, ◌<◌, length};
ghost use Rattle.write.specs.Layout.{layout_of, NamesField, run_length, FillsField, PutsPart};

use super::Content;
use buffer::copy;
use call::Call;
use model::Marks;

// A layout, and the call whose parameters stand in its fields.
#[derive(Clone, Copy)]
pub struct Layout<'a> {
    pub m: Marks,
    pub text: &'a [u8],
    pub call: &'a Call,
}

impl<'a> Content for Layout<'a> {
    ghost bytes = { λ s. layout_of s.m s.text.now s.call.now };

    #[tactic(auto, using(crate::proofs::Fields::layout_long))]
    fn count(&self) -> usize {
        self.text.len()
    }

    #[tactic(auto, using(crate::proofs::Fields::laying_more))]
    fn fill(&self, out: &mut [u8]) {
        let text = self.text;
        // a turn writes a field or a byte, and says how long it is: no range
        let mut i = 0;
        while i < text.len() {
            i += put_part(self.m, &text[i..], self.call, &mut out[i..]);
        }
    }
}

// The field or the byte that a layout begins with comes to the front of a slice; the answer is how many bytes it has.
// Marks, text and call are no Layout: each turn would make one of the text that is left.
#[tactic(auto, using(crate::proofs::Fields::run_most, crate::proofs::Fields::field_inside, crate::proofs::Fields::part_field, crate::proofs::Fields::part_byte))]
fn put_part(m: Marks, text: &[u8], call: &Call, out: &mut [u8]) -> usize
    requires there { 0 < length text.now }
    requires out_long { length text.now ≤ length out.old }
    ensures { PutsPart m text.now call.now out.old result out.new }
{
    let b = text[0];
    match name_field(b) {
        Some(d) => {
            let n = run_length(text, b);
            fill_field(m.blank, call, d, &mut out[..n]);
            n
        }
        None => {
            out[0] = b;
            1
        }
    }
}

// The parameter that a byte of a layout names.
fn name_field(b: u8) -> Option<usize>
    ensures { NamesField b result }
{
    match b {
        b'1'..=b'9' => Some(usize::from(b - b'0')),
        _ => None,
    }
}

// How many bytes b a layout begins with.
fn run_length(text: &[u8], b: u8) -> usize
    ensures { result ≡ run_length b text.now }
{
    text.iter().position(|&x| x != b).unwrap_or(text.len())
}

// A field becomes parameter d: cut, or filled with blanks. d is a number, as call has it: a type of 1 to 9 would be made of the digit first.
#[tactic(auto, using(crate::proofs::Fields::fills_field))]
fn fill_field(blank: u8, call: &Call, d: usize, out: &mut [u8])
    requires { (1 ≤ d) × (d ≤ 9) }
    ensures { FillsField blank call.now d out.old out.new }
{
    let param = call.param(d);
    let len = param.len().min(out.len());
    copy(out, 0, &param[..len]);
    out[len..].fill(blank);
}
