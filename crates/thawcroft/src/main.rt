// thawcroft: opens book.txt in the current folder, or the file that its one argument names, and answers every command, a line of standard
// input each.

#![tactic(auto)]

use std::env::{Env, FillError};
use std::rt::Files;

// One byte more than a path may have.
const NAME_ROOM: usize = 4096;

// The longest line and the byte that shows that a line is longer. By `as`: a constant calls no From.
const LINE_ROOM: usize = commands::THAWCROFT_LONGEST as usize + 1;

fn run(rt: &(impl Files + Input + Print), name: &[u8]) {
    // `ringswap` has these lines too: one function, generic in the buffer's size, would be given dialect, size and proof by each program.
    let dialect = commands::thawcroft();
    let mut buffer = [0; LINE_ROOM];
    prove!((dialect.longest as usize) < buffer.len());
    console::run(rt, dialect, name, &mut buffer);
}

// Whether the program has an argument with this number.
fn has_arg(rt: &impl Env, number: usize) -> bool {
    !matches!(rt.arg(number, &mut []), Err(FillError::NotPresent))
}

// An argument that is empty, or longer than a path may be, names no file.
fn main(rt: HostRuntime) {
    if has_arg(&rt, 2) {
        console::say_bad(&rt);
        return;
    }
    let mut name = [0; NAME_ROOM];
    match rt.arg(1, &mut name) {
        Ok(size) => run(&rt, &name[..size]),
        Err(FillError::TooLong) => console::say_bad(&rt),
        Err(FillError::NotPresent) => run(&rt, b"book.txt"),
    }
}
