// The lent row of dead places (document 02, ticket 3): a bit for each place, by the place's number.
// The row has to have the byte of a place that is asked for or set, and the bytes of all places that are cleared.
#![tactic(auto)]

ghost use Rattle.std.specs.Prelude.{◌≡◌, ◌*◌, ◌/◌, ◌≤◌, ◌<◌, length};
ghost use Rattle.places.specs.Bits.{bit, AddsBit, ClearsBits};

// Whether the place with number x is dead.
#[tactic(auto, using(crate::proofs::Bits::bit_read))]
pub fn is_dead(row: &[u8], x: usize) -> bool
    requires { x / 8 < length row.now }
    ensures { result ≡ bit row.now x }
{
    (row[x / 8] >> (x % 8)) & 1 == 1
}

// The place with number x is dead from now on.
pub fn set_dead(row: &mut [u8], x: usize)
    requires { x / 8 < length row.old }
    ensures { AddsBit row.old row.new x }
{
    row[x / 8] |= 1 << (x % 8);
}

// No place with a number below n is dead: the bytes of these places become 0, and no byte more.
// n counts places and not bytes, so that no slice of the row says it.
#[tactic(auto, using(crate::proofs::Bits::clear_front))]
pub fn clear(row: &mut [u8], n: usize)
    requires { n ≤ 8 * length row.old }
    ensures { ClearsBits row.old row.new n }
{
    row[..n.div_ceil(8)].fill(0);
}
