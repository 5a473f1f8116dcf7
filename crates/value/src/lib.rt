// The value of a text as an expression. An expression, a product and an operand are each read through the next, in a cycle
// of calls over the bytes left; sums and products are loops, so only brackets nest calls.
// Nothing is asked of the text.
#![tactic(auto)]

ghost use Rattle.std.specs.Prelude.{◌≡◌, ◌+◌, ◌*◌, length};
ghost use Rattle.model.specs.Store.{find};
ghost use Rattle.model.specs.Value.{is_mark, of_stored, closing, expression, product, operand};
ghost use Rattle.number.specs.Number.{Gives};
ghost use Rattle.value.specs.Turns.{turn_of, start_of, next_of};
ghost use Rattle.value.specs.Reads.{read_of, ReadsAbove, Values, numeral_at, name_at};

use model::{Integer, Marks};
use number::Step;
use store::Store;

// A value and what is left after it.
#[derive(Clone, Copy)]
pub struct Parsed<'a> {
    pub value: Integer,
    pub rest: &'a [u8],
}

// How an expression begins, or a sum or a product goes on: by a step with the value at the front of what is left.
#[derive(Clone, Copy)]
pub struct Turn<'a> {
    pub step: Step,
    pub rest: &'a [u8],
}

// Whether a byte is one of the marks 6 to 12.
#[tactic(auto, using(crate::proofs::Names::marks))]
fn is_mark(m: Marks, b: u8) -> bool
    ensures { result ≡ is_mark m b }
{
    [m.blank, m.left, m.plus, m.minus, m.times, m.divide, m.right].contains(&b)
}

// How a sum or a product goes on with what is left: by `first` after the byte `one`, by `second` after `two`, or not.
// A struct of the two bytes and steps would be made at each call only to be taken apart.
#[tactic(auto, using(crate::proofs::Firsts::nexting))]
fn next(rest: &[u8], one: u8, first: Step, two: u8, second: Step) -> Option<Turn<'_>>
    ensures { turn_of result ≡ next_of rest.now one first two second }
{
    match rest {
        [] => None,
        [b, rest @ ..] if *b == one => Some(Turn { step: first, rest }),
        [b, rest @ ..] if *b == two => Some(Turn { step: second, rest }),
        _ => None,
    }
}

// The digits that what is left begins with.
#[tactic(auto, using(crate::proofs::Operands::numeral_fails, crate::proofs::Operands::numeral_read))]
fn read_numeral(rest: &[u8]) -> Option<Parsed<'_>>
    ensures { read_of result ≡ numeral_at rest.now }
{
    let numeral = number::read_number(rest);
    Some(Parsed {
        value: numeral.value?,
        rest: numeral.rest,
    })
}

// What values are read by: the marks, and the names that are stored.
#[derive(Drop)]
struct Reader<'a> {
    m: Marks,
    store: &'a Store,
}

impl<'a> Reader<'a> {
    // How an expression begins: with a sign or with its first product, unless it is empty.
    #[tactic(auto, using(crate::proofs::Firsts::starting))]
    fn start(&self, rest: &'a [u8]) -> Option<Turn<'a>>
        ensures { turn_of result ≡ start_of self.now.m rest.now }
    {
        match rest {
            [] => None,
            [b, ..] if *b == self.m.right => None,
            [b, rest @ ..] if *b == self.m.minus => Some(Turn {
                step: Step::Negated,
                rest,
            }),
            [b, rest @ ..] if *b == self.m.plus => Some(Turn {
                step: Step::First,
                rest,
            }),
            _ => Some(Turn {
                step: Step::First,
                rest,
            }),
        }
    }

    // The value before the right bracket, and what is left after it.
    #[tactic(auto, using(crate::proofs::Firsts::closing_by))]
    fn close(&self, v: Parsed<'a>) -> Option<Parsed<'a>>
        ensures { read_of result ≡ closing self.now.m v.entry.value v.entry.rest.now }
    {
        match v.rest {
            [] => None,
            [b, rest @ ..] if *b == self.m.right => Some(Parsed { rest, ..v }),
            _ => None,
        }
    }

    // The value of the text stored under a name.
    #[tactic(auto, using(crate::proofs::Names::not_stored, crate::proofs::Names::stored_value))]
    fn find_value(&self, name: &[u8]) -> Option<Integer>
        ensures { Gives result (of_stored self.now.m (find name.now self.now.store.now)) }
    {
        number::read_stored(self.m, self.store.get(name)?)
    }

    // The name that what is left begins with: up to the next mark, or all of it.
    fn read_name(&self, rest: &'a [u8]) -> Option<Parsed<'a>>
        ensures { read_of result ≡ name_at self.now.m self.now.store.now rest.now }
    {
        let end = rest.iter().position(|&b| is_mark(self.m, b));
        let (name, rest) = rest.split_at(end.unwrap_or(rest.len()));
        let value = self.find_value(name)?;
        Some(Parsed { value, rest })
    }

    // The expression at the front of what is left: up to a right bracket that is not its own, a byte that does not go on, or the end.
    #[cycle(expression_operand_product)]
    fn expression(&self, rest: &'a [u8]) -> Option<Parsed<'a>>
        ensures { ReadsAbove (3 * length rest.now + 3) (length rest.now + 1) result
            (λ n. expression n self.now.m self.now.store.now rest.now) }
    {
        let mut sum = Parsed { value: 0, rest };
        let mut turn = self.start(rest);
        while let Some(Turn { step, rest }) = turn {
            let v = self.product(rest)?;
            let value = number::apply(step, sum.value, v.value)?;
            sum = Parsed { value, ..v };
            turn = next(v.rest, self.m.plus, Step::Plus, self.m.minus, Step::Minus);
        }
        Some(sum)
    }

    // The product at the front of what is left. Its loop and that of `expression` stay two functions: as one with the level as an
    // argument, values took 41 % more instructions, and a cycle of calls is not proved where it goes through a const parameter or a closure.
    #[cycle(expression_operand_product)]
    fn product(&self, rest: &'a [u8]) -> Option<Parsed<'a>>
        ensures { ReadsAbove (3 * length rest.now + 2) (length rest.now) result
            (λ n. product n self.now.m self.now.store.now rest.now) }
    {
        // the first operand is read as the others are: as a call of its own, sums took 20 % more instructions
        let mut factors = Parsed { value: 0, rest };
        let mut turn = Some(Turn {
            step: Step::First,
            rest,
        });
        while let Some(Turn { step, rest }) = turn {
            let v = self.operand(rest)?;
            let value = number::apply(step, factors.value, v.value)?;
            factors = Parsed { value, ..v };
            turn = next(
                v.rest,
                self.m.times,
                Step::Times,
                self.m.divide,
                Step::Divide,
            );
        }
        Some(factors)
    }

    // The operand at the front of what is left: digits, a name, or an expression in brackets.
    #[cycle(expression_operand_product)]
    fn operand(&self, rest: &'a [u8]) -> Option<Parsed<'a>>
        ensures { ReadsAbove (3 * length rest.now + 1) (length rest.now) result
            (λ n. operand n self.now.m self.now.store.now rest.now) }
    {
        match rest {
            [] => None,
            [b, ..] if number::is_digit(*b) => read_numeral(rest),
            [b, inside @ ..] if *b == self.m.left => self.close(self.expression(inside)?),
            [b, ..] if is_mark(self.m, *b) => None,
            _ => self.read_name(rest),
        }
    }
}

// The value of `text`, with the names that are stored.
// Marks and store come one by one: convert, skip and finish have them so, and would make a reader for one call.
#[tactic(auto, using(crate::proofs::Levels::no_value))]
pub fn value(m: Marks, store: &Store, text: &[u8]) -> Option<Integer>
    ensures { Values m store.now text.now result }
{
    let reader = Reader { m, store };
    let v = reader.expression(text)?;
    v.rest.is_empty().then_some(v.value)
}
