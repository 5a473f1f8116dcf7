// Bytes and numbers added to a lent slice, one after another. Each function adds bytes from an offset on and answers where they end;
// every other byte of the slice stays as it was. What is added has to have room.
// RoomFor is the fact of no type, since each call asks it of something else.
// No Display and no Formatter: clauses here and above speak of the bytes of a lent slice, before and after.
#![tactic(auto)]

ghost use Rattle.model.specs.Store.{decimal};
ghost use Rattle.rendering.specs.Prints.{RoomFor, Prints};

use buffer::copy;

// Bytes as they are.
// The slice and the offset stay two parameters: as a struct of a `&mut` slice each clause would name what lies behind its field.
pub fn add_bytes(out: &mut [u8], at: usize, bytes: &[u8]) -> usize
    requires { RoomFor out.old at bytes.now }
    ensures { Prints out.old at bytes.now result out.new }
{
    copy(out, at, bytes);
    at + bytes.len()
}

// A number in decimal. Two parameters, as in add_bytes.
#[tactic(auto, using(crate::proofs::Prints::prints_as, buffer::proofs::Decimal::decimal_is, crate::proofs::Prints::room_as))]
pub fn add_decimal(out: &mut [u8], at: usize, n: u64) -> usize
    requires { RoomFor out.old at (decimal n) }
    ensures { Prints out.old at (decimal n) result out.new }
{
    let mut digits = itoa::Buffer::new();
    add_bytes(out, at, digits.format(n).as_bytes())
}
