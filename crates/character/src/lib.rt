// The characters of a text in UTF-8 (RFC 3629; document 02, ticket 1): the one at a place, and how many a whole text has. No public function
// has a `requires`.
#![tactic(auto)]

ghost use Rattle.std.specs.Prelude.{◌≡◌, true, ◌-◌, ◌<◌, ◌∷◌};
ghost use Rattle.faults.specs.declared.RunFault.TheVariants.{BadCharacter};
ghost use Rattle.model.specs.Utf8.{is_tail, is_second, character};
ghost use Rattle.character.specs.Decoding.{read_of, ReadsCharacter};
ghost use Rattle.character.specs.Counting.{CountsCharacters};

use faults::RunFault;

// A character of a text: its code point, and its length in bytes.
#[derive(Clone, Copy, PartialEq, Eq)]
pub struct Character {
    pub code: usize,
    pub len: usize,
}

// Bytes that are no character.
#[derive(Clone, Copy, PartialEq, Eq)]
pub struct Malformed;

impl From<Malformed> for RunFault {
    ghost from_gives = { λ _ fault. fault ≡ BadCharacter };

    fn from(_: Malformed) -> RunFault
        ensures { result ≡ BadCharacter }
    {
        RunFault::BadCharacter
    }
}

// The characters of a text: how many there are, and the last one's code point.
#[derive(Clone, Copy, PartialEq, Eq)]
pub struct Counted {
    pub count: usize,
    pub code: Option<usize>,
}

// Whether b is a byte after the first: 80 to BF.
#[tactic(auto, unfolding(model::specs::Utf8::is_tail))]
fn is_tail(b: u8) -> bool
    ensures { result ≡ is_tail b }
{
    matches!(b, 128..=191)
}

// Whether b may follow the first byte a of three or four: nothing overlong, no surrogate, nothing above 10FFFF.
#[tactic(auto, unfolding(model::specs::Utf8::is_second))]
fn is_second(a: u8, b: u8) -> bool
    ensures { result ≡ is_second a b }
{
    match a {
        224 => matches!(b, 160..=191),
        237 => matches!(b, 128..=159),
        240 => matches!(b, 144..=191),
        244 => matches!(b, 128..=143),
        _ => is_tail(b),
    }
}

// The six bits that a byte after the first adds to the code point.
#[tactic(auto, using(model::proofs::Utf8::tail_is))]
fn take_bits(b: u8) -> usize
    requires { is_tail b ≡ true }
    ensures { (result ≡ b - 128) × (result < 64) }
{
    usize::from(b) - 128
}

// The character whose first byte is a, where `rest` follows that.
// By hand, here and below: std's from_utf8 tests all of a text, and a pass takes one character and looks at nothing behind it.
#[tactic(auto, using(crate::proofs::Decoding::second_tail), unfolding(model::specs::Utf8::character, model::specs::Utf8::of_two, model::specs::Utf8::of_three, model::specs::Utf8::of_four))]
fn decode(a: u8, rest: &[u8]) -> Result<Character, Malformed>
    ensures { result ≡ read_of (character (a ∷ rest.now)) }
{
    match (a, rest) {
        (0..=127, _) => Ok(Character {
            code: usize::from(a),
            len: 1,
        }),
        (194..=223, [b, ..]) if is_tail(*b) => Ok(Character {
            code: (usize::from(a) - 192) * 64 + take_bits(*b),
            len: 2,
        }),
        (224..=239, [b, c, ..]) if is_second(a, *b) && is_tail(*c) => Ok(Character {
            code: (usize::from(a) - 224) * 4096 + take_bits(*b) * 64 + take_bits(*c),
            len: 3,
        }),
        (240..=244, [b, c, d, ..]) if is_second(a, *b) && is_tail(*c) && is_tail(*d) => {
            Ok(Character {
                code: (usize::from(a) - 240) * 262144
                    + take_bits(*b) * 4096
                    + take_bits(*c) * 64
                    + take_bits(*d),
                len: 4,
            })
        }
        _ => Err(Malformed),
    }
}

// The character of s from `at` on, or none where nothing is left.
// `at` stays beside s: a pass keeps it as its place in the line, and of the length is promised that it ends in s, from there on.
#[tactic(auto, using(crate::proofs::Decoding::reads_nothing))]
pub fn read_character(s: &[u8], at: usize) -> Result<Option<Character>, Malformed>
    ensures { ReadsCharacter s.now at result }
{
    if s.len() <= at {
        return Ok(None);
    }
    Ok(Some(decode(s[at], &s[at + 1..])?))
}

// The characters of s, from the first to the last.
#[tactic(auto, using(crate::proofs::Counting::counting_goes_on, crate::proofs::Counting::counting_ends))]
pub fn count_characters(s: &[u8]) -> Result<Counted, Malformed>
    ensures { CountsCharacters s.now result }
{
    // where a character ends is found by reading it, so that the places are no range
    let mut at = 0;
    let mut count = 0;
    let mut code = None;
    while let Some(found) = read_character(s, at)? {
        at += found.len;
        count += 1;
        code = Some(found.code);
    }
    Ok(Counted { count, code })
}
