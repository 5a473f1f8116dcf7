// What ed0 to ed5 and ed8 put at the end of a line that is built (document 01, "A call's code"). The parameter's text is a
// lent slice.
// That a name has below 256 bytes stands where it is asked: a name is a slice of the caller's, of no type of its own.
// `symbols` relates two fields of the state: as the fact of its type each method that changes neither would prove it again.
// line and s are two parameters, as in build: a struct of them would hold two `&mut`s, and each clause would name both behind its fields.
#![tactic(auto)]

ghost use Rattle.std.specs.Prelude.{◌≡◌, [], ◌∷◌, ◌≤◌, ◌<◌, length};
ghost use Rattle.model.specs.Store.{decimal};
ghost use Rattle.model.specs.Value.{written};
ghost use Rattle.pass.specs.Pass.{delimiter_bytes};
ghost use Rattle.call.specs.Line.{Appends};
ghost use Rattle.store.specs.Names.{PutsText};
ghost use Rattle.convert.specs.Converted.{word_of, Missing, AddsSymbol, AddsValue, AddsLength, AddsCodePoint, Converts};

use call::Text;
use character::count_characters;
use faults::RunFault;
use model::{Conversion, Integer, Marks};
use state::State;
use store::{Full, Store};

// One byte.
pub fn add_byte(b: u8, line: &mut Text) -> Result<(), RunFault>
    ensures { Appends line.old (b ∷ []) result line.new }
{
    line.append(&[b])
}

// A number in decimal.
#[tactic(auto, using(buffer::proofs::Decimal::decimal_is, crate::proofs::Appending::appends_as))]
pub fn add_number(v: usize, line: &mut Text) -> Result<(), RunFault>
    ensures { Appends line.old (decimal v) result line.new }
{
    let mut digits = itoa::Buffer::new();
    line.append(digits.format(v).as_bytes())
}

// What brings in a text as it lies there: ed0 and ed1.
// One function answers both: for this place document 01 names the form of a returned part of one of two lent slices, parameter or memory.
#[derive(Clone, Copy)]
enum Word {
    // the parameter
    Itself,
    // what is stored under it, or nothing
    Stored,
}

// The text that is brought in, which lies in the parameter or in the store.
#[tactic(auto, using(crate::proofs::Symbols::stored_or))]
fn bring<'a>(word: Word, param: &'a [u8], store: &'a Store) -> &'a [u8]
    ensures { result.now ≡ word_of word param.now store.now }
{
    match word {
        Word::Itself => param,
        Word::Stored => store.get(param).unwrap_or(&[]),
    }
}

// It comes at the line's end.
fn add_word(word: Word, param: &[u8], store: &Store, line: &mut Text) -> Result<(), RunFault>
    ensures { Appends line.old (word_of word param.now store.now) result line.new }
{
    line.append(bring(word, param, store))
}

// A number is stored in decimal. add_number, rendering's add_decimal and buffer's write_decimal stay twins: each is one call with itoa's digits.
#[tactic(auto, using(buffer::proofs::Decimal::decimal_is, crate::proofs::Symbols::puts_number))]
fn put_number(v: usize, name: &[u8], store: &mut Store) -> Result<(), Full>
    requires { length name.now < 256 }
    ensures { PutsText store.old name.now (decimal v) result store.new }
{
    let mut digits = itoa::Buffer::new();
    store.put(name, digits.format(v).as_bytes())
}

// ed2 of a name that is not stored: the next number is, or 19.
fn add_new_symbol(name: &[u8], line: &mut Text, s: &mut State) -> Result<(), RunFault>
    requires symbols { s.old.symbols ≤ length s.old.store }
    requires missing { Missing s.old.store name.now × (length name.now < 256) }
    ensures { AddsSymbol name.now line.old s.old result line.new s.new }
{
    let next = s.symbols + 1;
    put_number(next, name, &mut s.store)?;
    s.symbols = next;
    add_number(next, line)
}

// ed2: the text that is stored under the name, or its new number.
#[tactic(auto, using(crate::proofs::Symbols::symbol_there))]
fn add_symbol(name: &[u8], line: &mut Text, s: &mut State) -> Result<(), RunFault>
    requires symbols { s.old.symbols ≤ length s.old.store }
    requires name_len_bound { length name.now < 256 }
    ensures { AddsSymbol name.now line.old s.old result line.new s.new }
{
    match s.store.get(name) {
        Some(text) => line.append(text),
        None => add_new_symbol(name, line, s),
    }
}

// ed3: the latest delimiter, if there is one.
#[tactic(auto, using(crate::proofs::Appending::appends_delimiter, crate::proofs::Appending::appends_none))]
fn add_delimiter(delimiter: Option<u8>, line: &mut Text) -> Result<(), RunFault>
    ensures { Appends line.old (delimiter_bytes delimiter) result line.new }
{
    match delimiter {
        Some(b) => add_byte(b, line),
        None => line.append(&[]),
    }
}

// A value in decimal, at the front of an array that is lent: there is no heap.
fn add_signed(m: Marks, v: Integer, line: &mut Text) -> Result<(), RunFault>
    ensures { Appends line.old (written m v) result line.new }
{
    let mut out = [0u8; 21];
    let k = number::write_value(m, v, &mut out);
    line.append(&out[..k])
}

// ed4: the value, or 15.
fn add_value(m: Marks, param: &[u8], store: &Store, line: &mut Text) -> Result<(), RunFault>
    ensures { AddsValue m param.now store.now line.old result line.new }
{
    let v = value::value(m, store, param).ok_or(RunFault::NoValue)?;
    add_signed(m, v, line)
}

// ed5: the number of characters, or 21.
#[tactic(auto, using(crate::proofs::Adding::length_added))]
fn add_length(param: &[u8], line: &mut Text) -> Result<(), RunFault>
    ensures { AddsLength param.now line.old result line.new }
{
    let counted = count_characters(param)?;
    add_number(counted.count, line)
}

// ed8: the code point of exactly one character, or 21 or 16.
fn add_code_point(param: &[u8], line: &mut Text) -> Result<(), RunFault>
    ensures { AddsCodePoint param.now line.old result line.new }
{
    let characters = count_characters(param)?;
    match (characters.count, characters.code) {
        (1, Some(code)) => add_number(code, line),
        _ => Err(RunFault::NoCodePoint),
    }
}

// A conversion of a parameter with its latest delimiter.
#[tactic(auto, using(crate::proofs::Converting::converting))]
pub fn add_converted(
    m: Marks,
    c: Conversion,
    param: &[u8],
    delimiter: Option<u8>,
    line: &mut Text,
    s: &mut State,
) -> Result<(), RunFault>
    requires symbols { s.old.symbols ≤ length s.old.store }
    requires param_len_bound { length param.now < 256 }
    ensures { Converts m c param.now delimiter line.old s.old result line.new s.new }
{
    match c {
        Conversion::Itself => add_word(Word::Itself, param, &s.store, line),
        Conversion::StoredText => add_word(Word::Stored, param, &s.store, line),
        Conversion::Symbol => add_symbol(param, line, s),
        Conversion::LatestDelimiter => add_delimiter(delimiter, line),
        Conversion::ExpressionValue => add_value(m, param, &s.store, line),
        Conversion::Length => add_length(param, line),
        Conversion::CodePoint => add_code_point(param, line),
    }
}
