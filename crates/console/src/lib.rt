// A conversation over standard input and output: a rule text from a file, then the input to its end.
//
// What is printed of a text and of blocks of input is the crate session's, proved there; here is the reading and writing. No contract can
// say what a system call reads or writes, so the exported functions have no `ensures`; that they end is proved. Every answer is written
// before more input is waited for. A read or a write that fails ends the conversation.

#![tactic(auto)]

ghost use Rattle.std.specs.Prelude.{◌≤◌, length, IfOk};

use commands::{ANSWER_SIZE, Dialect};
use session::Session;
use std::fs::File;
use std::io;
use std::io::{ErrorKind, Read};
use std::rt::Files;

// One byte more than a rule text may have is enough to refuse it.
const TEXT_ROOM: usize = limits::TEXT_LIMIT + 1;

// A large read, and all answers to it.
const BLOCK_SIZE: usize = 16384;

const ANSWERS_SIZE: usize = BLOCK_SIZE * ANSWER_SIZE;

// A file's bytes from its start, as far as there is room: how many. The library reads to a file's end only into memory that it allocates.
fn read_text(file: &mut impl Read, text: &mut [u8]) -> io::Result<usize>
    ensures { IfOk result (λ size. size ≤ length text.new) }
{
    let mut size = 0;
    while size < text.len() {
        let count = file.read(&mut text[size..])?;
        // So the library says that the file is at its end.
        if count == 0 {
            break;
        }
        size += count;
    }
    Ok(size)
}

// A name that is not UTF-8 names no file: a path is text.
fn read_book(rt: &impl Files, name: &[u8], text: &mut [u8]) -> io::Result<usize>
    ensures { IfOk result (λ size. size ≤ length text.new) }
{
    let path = str::from_utf8(name).map_err(|_| ErrorKind::InvalidFilename)?;
    let mut file = File::open(rt, path)?;
    read_text(&mut file, text)
}

// For a book that cannot be read, and for more arguments than one.
pub fn say_bad(rt: &impl Print) {
    let mut out = [0; ANSWER_SIZE];
    let count = commands::put_bad(&mut out);
    let _ = rt.write_all(&out[..count]);
}

// The input to its end, then a last line that lacks its LF. The count of reads is what shows that this ends: no measure of what is left to
// read is known.
fn converse(rt: &(impl Input + Print), mut session: Session, buffer: &mut [u8]) -> io::Result<()> {
    let mut block = [0; BLOCK_SIZE];
    let mut out = [0; ANSWERS_SIZE];
    let mut input = rt.reader();
    for _ in 0..u64::MAX {
        // A read that fails is not the input's end: what was read of a line is not the line.
        let count = input.read(&mut block)?;
        if count == 0 {
            break;
        }
        let fed = session::feed(session, buffer, &block[..count], &mut out);
        rt.write_all(&out[..fed.count])?;
        // The buffer lacks its room: no call would take more.
        if fed.taken < count {
            return Err(ErrorKind::InvalidInput.into());
        }
        session = fed.session;
    }
    let mut last = [0; ANSWER_SIZE];
    let count = session::finish(session, buffer, &mut last);
    rt.write_all(&last[..count])
}

// The file of this name opened, then the input answered. In a buffer that is no longer than the dialect's longest line, no line is answered.
pub fn run(rt: &(impl Files + Input + Print), dialect: Dialect, name: &[u8], buffer: &mut [u8]) {
    let mut text = [0; TEXT_ROOM];
    let Ok(size) = read_book(rt, name, &mut text) else {
        say_bad(rt);
        return;
    };
    let mut out = [0; ANSWER_SIZE];
    let begun = session::begin(dialect, &text[..size], &mut out);
    let written = rt.write_all(&out[..begun.count]);
    if written.is_ok() && begun.answer.is_ok() {
        let _ = converse(rt, begun.session, buffer);
    }
}
