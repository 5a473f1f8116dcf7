// Values as numbers. A step's result is a value where it is in range.
#![tactic(auto)]

ghost use Rattle.std.specs.Prelude.{◌≡◌, true, ◌+◌, ◌*◌, ◌-◌, ◌≤◌, length, SomeIff};
ghost use Rattle.model.specs.Text.{is_digit};
ghost use Rattle.model.specs.Value.{number, is_stored_number, stored_number};
ghost use Rattle.model.specs.Machine.{compares};
ghost use Rattle.number.specs.Number.{Gives, WritesValue, step_value};
ghost use Rattle.number.specs.Run.{DigitRun, Numerals, saturated};

use model::{Comparison, DIGITS_MOST, Integer, LARGEST, Marks};

// What joins the next value to the value so far.
// A step is a value and no closure: it is read from the text before the value that it joins, and the clauses say by it what comes of it.
#[derive(Clone, Copy)]
pub enum Step {
    First,
    Negated,
    Plus,
    Minus,
    Times,
    Divide,
}

// What a step makes of the value so far, a, and the next value, b.
#[tactic(auto, using(crate::proofs::Steps::gives_checked, crate::proofs::Steps::gives_quotient, crate::proofs::Signed::told))]
pub fn apply(k: Step, a: Integer, b: Integer) -> Option<Integer>
    ensures { Gives result (step_value k a b) }
{
    match k {
        Step::First => Some(b),
        Step::Negated => b.checked_neg(),
        Step::Plus => a.checked_add(b),
        Step::Minus => a.checked_sub(b),
        Step::Times => a.checked_mul(b),
        Step::Divide => a.checked_div(b),
    }
}

// Whether two values compare as function 6 asks. A code line's ending holds the comparison, so that it is no closure.
#[tactic(auto, using(crate::proofs::Compared::comparing))]
pub fn compare(o: Comparison, a: Integer, b: Integer) -> bool
    ensures { result ≡ compares o a b }
{
    match o {
        Comparison::Equal => a == b,
        Comparison::Unequal => a != b,
        Comparison::Less => a < b,
        Comparison::Greater => b < a,
    }
}

// Whether a byte is a digit: std's test, with the definition's name in its clause.
#[tactic(auto, unfolding(model::specs::Text::is_digit))]
pub fn is_digit(b: u8) -> bool
    ensures { result ≡ is_digit b }
{
    b.is_ascii_digit()
}

// The amount with one more digit.
#[tactic(auto, using(crate::proofs::Digits::digit_bounds))]
fn add_digit(amount: u64, b: u8) -> u64
    requires { is_digit b ≡ true }
    ensures { result ≡ saturated (amount * 10 + (b - 48)) }
{
    amount
        .saturating_mul(10)
        .saturating_add(u64::from(b - b'0'))
}

// Digits: the number that they write, up to the largest that is held, and what is left after them.
// Run, Numeral and value's Parsed and Turn are no one generic struct: the name of the first field says what stands before the rest.
#[derive(Clone, Copy)]
pub struct Run<'a> {
    pub amount: u64,
    pub rest: &'a [u8],
}

// The digits that a text begins with.
// By index: as `while let [b, after @ ..] = rest`, sums of numbers of one digit took 3 % more instructions.
// No parse of std: it takes a str of digits alone, so that where they end would have to be found first, and the bytes be made a str.
fn read_digits(s: &[u8]) -> Run<'_>
    ensures { DigitRun s.now result }
{
    let mut amount = 0;
    for i in 0..s.len() {
        let b = s[i];
        if !is_digit(b) {
            return Run {
                amount,
                rest: &s[i..],
            };
        }
        amount = add_digit(amount, b);
    }
    Run { amount, rest: &[] }
}

// The number that digits write, if it is a value, and what is left after them.
#[derive(Clone, Copy)]
pub struct Numeral<'a> {
    pub value: Option<Integer>,
    pub rest: &'a [u8],
}

// The number that the digits write with which a text begins.
pub fn read_number(s: &[u8]) -> Numeral<'_>
    ensures { Numerals s.now result }
{
    let run = read_digits(s);
    // std's test, here and in the steps, is against the end of the type: it is the largest value
    prove!(LARGEST == Integer::MAX);
    Numeral {
        value: Integer::try_from(run.amount).ok(),
        rest: run.rest,
    }
}

// The amount of 1 to DIGITS_MOST digits.
#[tactic(auto, using(crate::proofs::Digits::amount_read, crate::proofs::Digits::no_amount))]
fn read_amount(digits: &[u8]) -> Option<u64>
    ensures { SomeIff result (is_stored_number digits.now ≡ true) (saturated (number 0 digits.now).0) }
{
    if !(1..=DIGITS_MOST).contains(&digits.len()) {
        return None;
    }
    let run = read_digits(digits);
    run.rest.is_empty().then_some(run.amount)
}

// The value of a stored text: an optional minus and 1 to DIGITS_MOST digits.
#[tactic(auto, using(crate::proofs::Digits::storing))]
pub fn read_stored(m: Marks, s: &[u8]) -> Option<Integer>
    ensures { Gives result (stored_number m s.now) }
{
    let [first, digits @ ..] = s else {
        return None;
    };
    if *first == m.minus {
        return Integer::checked_sub_unsigned(0, read_amount(digits)?);
    }
    Integer::try_from(read_amount(s)?).ok()
}

// A value in decimal: its bytes are `&out[0..r]` for the answer r. No heap, so the digits go to the front of what is lent, and the
// minus is put by hand, since it is the flag line's mark, which `Display` doesn't know.
#[tactic(auto, using(crate::proofs::Writing::writes_plain, crate::proofs::Writing::writes_minus, crate::proofs::Signed::told))]
pub fn write_value(m: Marks, v: Integer, out: &mut [u8]) -> usize
    requires { 21 ≤ length out.old }
    ensures { WritesValue m v result out.new }
{
    let n = v.unsigned_abs();
    if v < 0 {
        let k = buffer::write_decimal(n, &mut out[1..]);
        out[0] = m.minus;
        return k + 1;
    }
    buffer::write_decimal(n, out)
}
