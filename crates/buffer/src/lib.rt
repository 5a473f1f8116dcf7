// Bytes in lent slices: copied, moved, compared, and numbers written in decimal. Nothing here knows what the bytes mean.
// What is copied or moved has to lie in its slice, at its old place and at the new one, and a number in decimal to have 20 bytes for its digits.
#![tactic(auto)]

ghost use Rattle.std.specs.Prelude.{◌≡◌, ◌+◌, ◌≤◌, length, drop};
ghost use Rattle.model.specs.Text.{same};
ghost use Rattle.buffer.specs.Pasted.{Pasted};
ghost use Rattle.buffer.specs.Decimal.{Decimal};

// All of src goes to dest from offset at, which stays beside dest: as a slice from there on, the rest of dest would be each caller's to keep.
// A loop, since std's copy_from_slice makes the archive for C ask for memmove from outside, beside memcpy and memset.
#[tactic(auto, using(crate::proofs::Pasted::pasted_none, crate::proofs::Pasted::pasted_more))]
pub fn copy(dest: &mut [u8], at: usize, src: &[u8])
    requires { at + length src.now ≤ length dest.old }
    ensures { Pasted dest.old at src.now (length src.now) dest.new }
{
    for i in 0..src.len() {
        dest[at + i] = src[i];
    }
}

// The len bytes from offset from move to offset to: both lie in d, so that three numbers say which.
pub fn shift(d: &mut [u8], to: usize, from: usize, len: usize)
    requires { (to + len ≤ length d.old) × (from + len ≤ length d.old) }
    ensures { Pasted d.old to (drop from d.old) len d.new }
{
    d.copy_within(from..from + len, to);
}

// Whether two slices have the same bytes: `==`, said once as document 01's `same`.
#[tactic(auto, using(crate::proofs::Same::pointwise_same))]
pub fn same_bytes(a: &[u8], b: &[u8]) -> bool
    ensures { result ≡ same a.now b.now }
{
    a == b
}

// Any number in decimal: its digits are `&out[0..r]` for the answer r.
// At the front of what is lent, since there is no heap; the answer is a length, by which the caller cuts what it lent.
#[tactic(auto, using(crate::proofs::Decimal::decimal_copied))]
pub fn write_decimal(n: u64, out: &mut [u8]) -> usize
    requires { 20 ≤ length out.old }
    ensures { Decimal n result out.new }
{
    let mut digits = itoa::Buffer::new();
    let text = digits.format(n).as_bytes();
    copy(out, 0, text);
    text.len()
}
