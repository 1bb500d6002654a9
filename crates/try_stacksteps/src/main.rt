// Runs the program stacksteps on many inputs: for each a line with the lengths of the input and of the text that is expected for it,
// then both.
#![tactic(auto)]

use replay::{MARK, at, conclude, marked, read_line};
use std::io;
use std::io::{Input, Read};

// The longest that is read, an input, and a text.
const CASES: usize = 524288;

const INPUT: usize = 65536;

const TEXT: usize = 8192;

// The text for an input is `expected`, and nothing is written past it.
fn text_agrees(input: &[u8], expected: &[u8]) -> bool {
    let mut out = [MARK; TEXT];
    let end = steps::put_text(input, &mut out);
    &out[0..end] == expected && marked(&out[end..])
}

// The input of n bytes from `from` on, and the m bytes behind it. The line before them has two numbers.
fn agrees(text: &[u8], count: usize, from: usize, n: usize, m: usize) -> bool {
    if count != 2 {
        return false;
    }
    if n > INPUT {
        return false;
    }
    if m > TEXT {
        return false;
    }
    if from > CASES {
        return false;
    }
    let middle = from + n;
    let end = middle + m;
    if end > text.len() {
        return false;
    }
    text_agrees(&text[from..middle], &text[middle..end])
}

// Where the next case begins.
fn past(from: usize, n: usize, m: usize) -> usize {
    if from > CASES {
        return from;
    }
    from + n % CASES + m % CASES
}

fn run(rt: &impl Print, text: &[u8]) -> io::Result<()> {
    let mut lengths = [0u64; 2];
    let mut next: usize = 0;
    for cases in 0..1000 {
        if next >= text.len() {
            return conclude(rt, None, cases);
        }
        let found = read_line(text, next, &mut lengths);
        let n = at(&lengths, 0);
        let m = at(&lengths, 1);
        if !agrees(text, found.count, found.next, n, m) {
            // one call alone, printed as 0
            return conclude(rt, Some(0), cases);
        }
        next = past(found.next, n, m);
    }
    Ok(())
}

// Runs on what standard input has, as far as there is room for it.
fn run_from(rt: &(impl Input + Print), room: &mut [u8; CASES]) -> io::Result<()> {
    let n = io::copy(
        &mut rt.reader().take(room.len() as u64),
        &mut room.as_mut_slice(),
    )?;
    run(rt, &room[..n.min(room.len() as u64) as usize])
}

// Read into an array of this program's own size: a function for all would be generic in it and stand in a crate that all five need.
fn main(rt: HostRuntime) -> io::Result<()> {
    let mut text = [0u8; CASES];
    run_from(&rt, &mut text)
}
