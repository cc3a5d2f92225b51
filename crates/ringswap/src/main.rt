// ringswap: opens book.txt in the current folder and answers document 01's commands, a line of standard input each.

#![tactic(auto)]

// The longest line and the byte that shows that a line is longer. By `as`: a constant calls no From.
const LINE_ROOM: usize = commands::RINGSWAP_LONGEST as usize + 1;

fn main(rt: HostRuntime) {
    // `thawcroft` has these lines too: one function, generic in the buffer's size, would be given dialect, size and proof by each program.
    let dialect = commands::ringswap();
    let mut buffer = [0; LINE_ROOM];
    prove!((dialect.longest as usize) < buffer.len());
    console::run(&rt, dialect, b"book.txt", &mut buffer);
}
