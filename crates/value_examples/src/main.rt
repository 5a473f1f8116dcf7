// Writes each line of standard input with its value as an expression, or with the number of the fault. A line that holds `=`
// stores what follows it under the name before it. The lines are the documents' examples, the readings of
// them, and the ends of the range for each step and each kind of operand.
#![tactic(auto)]

ghost use Rattle.std.specs.Prelude.{◌≤◌, length};

use model::{Integer, Marks};
use std::io::{Read, Write};
use store::Store;

// The marks of document 01's session.
const SESSION: Marks = Marks {
    source: b'$',
    placeholder: b'!',
    code: b'$',
    escape: b'!',
    blank: b' ',
    left: b'(',
    plus: b'+',
    minus: b'-',
    times: b'*',
    divide: b'/',
    right: b')',
};

// A value in decimal, by the function that conversion 4 writes it with.
// Its bytes stand at the front of an array, with their count, as number writes them for the library, which has no heap.
fn say_number(output: &mut impl Write, z: Integer) {
    let mut out = [0u8; 21];
    let n = number::write_value(SESSION, z, &mut out);
    let _ = output.write_all(&out[0..n]);
}

// The text is stored under the name, unless either is too long or there is no room.
fn keep(store: &mut Store, name: &[u8], text: &[u8]) {
    if name.len() <= 255 && text.len() <= 255 {
        let _ = store.put(name, text);
    }
}

// The text and its value. No write!: a text is bytes, and need be no UTF-8.
fn say(output: &mut impl Write, store: &Store, text: &[u8]) {
    let _ = output.write_all(text);
    let _ = output.write_all(b": ");
    match value::value(SESSION, store, text) {
        Some(z) => {
            say_number(output, z);
        }
        None => {
            let _ = output.write_all(b"fault 15");
        }
    }
    let _ = output.write_all(b"\n");
}

// One line.
fn turn(output: &mut impl Write, store: &mut Store, line: &[u8]) {
    match line.iter().position(|b| *b == b'=') {
        Some(e) => keep(store, &line[..e], &line[e + 1..]),
        None => say(output, store, line),
    }
}

// Each line of the text, in order.
fn run(output: &mut impl Write, text: &[u8]) {
    let mut store = Store::new();
    for line in text.split_inclusive(|b| *b == b'\n') {
        turn(output, &mut store, line.strip_suffix(b"\n").unwrap_or(line));
    }
}

// Reads until buf is full, the input ends or a read fails, and answers how many bytes it put at the start of buf.
// The loop stays: std's read_to_end takes a Vec, and where no heap is to be had it would leave the text empty without a word.
fn read_full(input: &mut impl Read, buf: &mut [u8]) -> usize
    ensures { result ≤ length buf.new }
{
    let mut done = 0;
    while done < buf.len() {
        let n = input.read(&mut buf[done..]).unwrap_or(0);
        if n == 0 {
            break;
        }
        done += n;
    }
    done
}

// The first 4,096 bytes of the input. Where a read fails, the input ends.
fn main(rt: HostRuntime) {
    let mut text = [0u8; 4096];
    let n = read_full(&mut rt.stdin(), &mut text);
    run(&mut rt.stdout(), &text[..n]);
}
