// What a code line says, read token by token: bytes and conversions that build a line, then what is done at its end.
// A place stays beside a code line, here and below: an iteration keeps one as that of its delimiters, and a reader tells the line's start by it.
// Marks and line come one by one: build, body and load have them so, and would make a struct of both for one call.
// A parameter's number is a usize of 1 to 9, as in call: a type of its own would be made of the digit first.
#![tactic(auto)]

ghost use Rattle.std.specs.Prelude.{◌≡◌, ◌≢◌, Bool, true, false, List, ℕ, ◌≤◌, ◌<◌, length, get_or, drop};
ghost use Rattle.model.specs.declared.Marks.{Marks};
ghost use Rattle.model.specs.Code.{effect_of, channel_of, conversion_of, text_test, value_test, function, conversion, form, skip_text, skip_value};
ghost use Rattle.code.specs.Tokens.{ending_of, found, said, Parameter, Says, Forms, ReadsToken, ReadsEnding, Affects};

use model::{Channel, Comparison, Conversion, Effect, Marks};

// What puts bytes into the built line: a byte, e0k, or a conversion of a parameter.
#[derive(Clone, Copy)]
pub enum Part {
    Byte(u8),
    Serial(usize),
    Convert(usize, Conversion),
}

// What is done at the end of a code line. The delimiters of an iteration start at its second number, a place of the code line.
// Malformed is one of document 01's endings, and no Err: the crate load alone refuses a text for it, by its effect.
#[derive(Clone, Copy)]
pub enum Ending {
    Offer,
    Assign(usize),
    Iterate(usize, usize),
    Stop,
    Write(Channel),
    Layout(Channel),
    Copy(Channel),
    Save,
    Skip,
    SkipText(bool),
    SkipValue(Comparison),
    Repeat,
    Again,
    Leave,
    Malformed,
}

// What stands at a place of a code line: its end, or a part and where the rest starts. Both say something, so that it is no Option.
#[derive(Clone, Copy)]
pub enum Token {
    Ends(Ending),
    Has(Part, usize),
}

// ---- what follows an escape; where it says nothing, the line is malformed

// The channel of F1 and F2: the one that 0, 3 or 4 names, and 3 where no digit follows. Channel 0 is one of three, and no None.
#[tactic(auto, unfolding(model::specs::Code::channel_of, model::specs::Text::is_digit))]
fn read_channel(rest: &[u8]) -> Option<Channel>
    ensures { found result ≡ channel_of rest.now }
{
    match rest {
        [b'0', ..] => Some(Channel::Nowhere),
        [b'3', ..] => Some(Channel::First),
        [b'4', ..] => Some(Channel::Second),
        [b'0'..=b'9', ..] => None,
        _ => Some(Channel::First),
    }
}

// The test of F5: 0 for equal texts, 1 for unequal ones. It is a bool, since document 01's ending says whether the texts are to be equal.
#[tactic(auto, unfolding(model::specs::Code::text_test))]
fn read_text_test(rest: &[u8]) -> Option<bool>
    ensures { said skip_text result ≡ text_test rest.now }
{
    match rest {
        [b'0', ..] => Some(true),
        [b'1', ..] => Some(false),
        _ => None,
    }
}

// The test of F6: 0 for equal values, 1 for unequal ones, a minus for less, a plus for greater.
#[tactic(auto, unfolding(model::specs::Code::value_test))]
fn read_value_test(m: Marks, rest: &[u8]) -> Option<Comparison>
    ensures { said skip_value result ≡ value_test m rest.now }
{
    match rest {
        [b'0', ..] => Some(Comparison::Equal),
        [b'1', ..] => Some(Comparison::Unequal),
        [b, ..] if *b == m.minus => Some(Comparison::Less),
        [b, ..] if *b == m.plus => Some(Comparison::Greater),
        _ => None,
    }
}

// The function b at the line's start, where F1 owns a layout. A call would write the marks and the answer to memory at each escape of a line.
#[inline(always)]
#[tactic(auto, unfolding(model::specs::Code::function, model::specs::Code::line_function, model::specs::Code::writing, model::specs::Code::copying))]
fn read_first_function(m: Marks, b: u8, rest: &[u8]) -> Option<Ending>
    ensures { (line : List ℕ) → Says line (function m true b rest.now) result }
{
    Some(match b {
        b'0' => Ending::Stop,
        b'1' => Ending::Layout(read_channel(rest)?),
        b'2' => Ending::Copy(read_channel(rest)?),
        b'3' => Ending::Save,
        b'4' => Ending::Skip,
        b'5' => Ending::SkipText(read_text_test(rest)?),
        b'6' => Ending::SkipValue(read_value_test(m, rest)?),
        b'7' => Ending::Repeat,
        b'8' => Ending::Again,
        b'9' => Ending::Leave,
        _ => return None,
    })
}

// The function b after other code, where F1 and F7 alone may stand.
#[tactic(auto, unfolding(model::specs::Code::function, model::specs::Code::writing))]
fn read_later_function(b: u8, rest: &[u8]) -> Option<Ending>
    ensures { (m : Marks) (line : List ℕ) → Says line (function m false b rest.now) result }
{
    match b {
        b'1' => Some(Ending::Write(read_channel(rest)?)),
        b'7' => Some(Ending::Repeat),
        _ => None,
    }
}

// The conversion that the byte b names.
#[tactic(auto, unfolding(model::specs::Code::conversion_of, model::specs::Code::first_named, model::specs::Code::conversions, model::specs::Code::digit_of))]
fn name_conversion(b: u8) -> Option<Conversion>
    ensures { found result ≡ conversion_of b }
{
    match b {
        b'0' => Some(Conversion::Itself),
        b'1' => Some(Conversion::StoredText),
        b'2' => Some(Conversion::Symbol),
        b'3' => Some(Conversion::LatestDelimiter),
        b'4' => Some(Conversion::ExpressionValue),
        b'5' => Some(Conversion::Length),
        b'8' => Some(Conversion::CodePoint),
        _ => None,
    }
}

// ed and the byte b; what follows them starts at `at`.
#[tactic(auto, unfolding(model::specs::Code::conversion, model::specs::Code::converting))]
fn read_conversion(d: usize, b: u8, at: usize) -> Option<Token>
    requires { Parameter d }
    ensures { (line : List ℕ) → at ≤ length line → Forms line at (conversion d b (drop at line)) result }
{
    Some(match b {
        b'6' => Token::Ends(Ending::Assign(d)),
        b'7' => Token::Ends(Ending::Iterate(d, at)),
        _ => Token::Has(Part::Convert(d, name_conversion(b)?), at),
    })
}

// The two bytes after an escape, of which the first is no F; what follows them starts at `at`.
#[tactic(auto, unfolding(model::specs::Code::form, model::specs::Text::is_digit))]
fn read_form(a: u8, b: u8, at: usize) -> Option<Token>
    ensures { (m : Marks) (first : Bool) (line : List ℕ) → a ≢ 70 → at ≤ length line → Forms line at (form m first a b (drop at line)) result }
{
    match (a, b) {
        (b'0', b'0'..=b'9') => Some(Token::Has(Part::Serial(usize::from(b - b'0')), at)),
        (b'1'..=b'9', _) => read_conversion(usize::from(a - b'0'), b, at),
        _ => None,
    }
}

// What an escape at `at` of a code line begins. With these arms in read_token the compiled loop makes the slice for each byte, a plain one too.
#[inline(always)]
#[tactic(auto, using(crate::proofs::Lines::token_short))]
fn read_escaped(m: Marks, line: &[u8], at: usize, first: bool) -> Token
    requires { (at < length line.now) × (get_or line.now at 0 ≡ m.escape) }
    ensures { ReadsToken m line.now at first result }
{
    match &line[at..] {
        [_, b'F', b, rest @ ..] if first => {
            Token::Ends(read_first_function(m, *b, rest).unwrap_or(Ending::Malformed))
        }
        [_, b'F', b, rest @ ..] => {
            Token::Ends(read_later_function(*b, rest).unwrap_or(Ending::Malformed))
        }
        [_, a, b, ..] => read_form(*a, *b, at + 3).unwrap_or(Token::Ends(Ending::Malformed)),
        _ => Token::Ends(Ending::Malformed),
    }
}

// What stands at `at` of a code line; `first`: it is the line's start. It is compiled where it is called: most tokens are one byte, and a call
// for each costs more than the byte that it reads.
#[inline(always)]
#[tactic(auto, using(crate::proofs::Lines::token_end, crate::proofs::Lines::token_byte))]
pub fn read_token(m: Marks, line: &[u8], at: usize, first: bool) -> Token
    requires { at ≤ length line.now }
    ensures { ReadsToken m line.now at first result }
{
    match &line[at..] {
        [] => Token::Ends(Ending::Offer),
        [x, ..] if *x != m.escape => Token::Has(Part::Byte(*x), at + 1),
        _ => read_escaped(m, line, at, first),
    }
}

// What is done at the end of a code line.
#[tactic(auto, using(crate::proofs::Lines::ahead_ends))]
pub fn read_ending(m: Marks, line: &[u8]) -> Ending
    ensures { ReadsEnding m line.now result }
{
    // where a token ends is found by reading it, so that the places are no range
    let mut at = 0;
    loop {
        match read_token(m, line, at, at == 0) {
            Token::Ends(k) => return k,
            Token::Has(_, e) => at = e,
        }
    }
}

// What an ending does to the iterations around the lines after it. Malformed is one of document 01's five effects, and no None.
#[tactic(auto, unfolding(model::specs::Code::effect_of))]
fn effect_of(k: Ending) -> Effect
    ensures { (line : List ℕ) → result ≡ effect_of (ending_of line k) }
{
    match k {
        Ending::Iterate(_, _) | Ending::Repeat => Effect::Opens,
        Ending::Layout(_) => Effect::Owns,
        Ending::Again => Effect::Closes,
        Ending::Malformed => Effect::Malformed,
        Ending::Offer
        | Ending::Assign(_)
        | Ending::Stop
        | Ending::Write(_)
        | Ending::Copy(_)
        | Ending::Save
        | Ending::Skip
        | Ending::SkipText(_)
        | Ending::SkipValue(_)
        | Ending::Leave => Effect::Plain,
    }
}

// What a code line does to the iterations around the lines after it.
pub fn read_effect(m: Marks, line: &[u8]) -> Effect
    ensures { Affects m line.now result }
{
    effect_of(read_ending(m, line))
}
