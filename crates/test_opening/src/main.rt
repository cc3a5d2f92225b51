// Reads a text at every limit, with each kind of ill-formed line and with cards as they are printed, and prints what each answers; the file
// stdout beside src/ is what it must print.

#![tactic(auto)]

use rulebook::Tables;
use rulebook::layout::{card_count, rule_count};

// More bytes than a rule text may have.
const TEXT_ROOM: usize = 16_400;

// Prints the label, the refusal's number and line, or 0 0 as the file stdout has it, and how many cards and rules there are.
fn show(rt: &impl Print, label: &str, text: &[u8]) {
    let (number, line, tables) = match rulebook::read(text) {
        Ok(tables) => (0, 0, tables),
        Err(refusal) => (u8::from(refusal.reason), refusal.place, Tables::empty()),
    };
    let cards = card_count(&tables.cards);
    let rules = rule_count(&tables.rules);
    // What cannot be written ends nothing: the lines after it are still tried.
    let _ = println!(rt; "{label}: {number} {line}, cards {cards}, rules {rules}");
}

// Each label with its text.
fn show_all(rt: &impl Print, rows: &[(&str, &[u8])]) {
    for (label, text) in rows {
        show(rt, label, text);
    }
}

fn forms(rt: &impl Print) {
    show_all(
        rt,
        &[
            ("empty text", b""),
            ("one card", b"C 700012000019\n"),
            ("group and rule", b"C 700012000019\nG 1 1\nR 1 A a\n"),
            ("group twice", b"C 700012000019\nG 1 1\nG 1 1\n"),
            ("empty line", b"C 700012000019\n\n"),
            ("only LF", b"\n"),
            ("another letter", b"X 1\n"),
            ("lower-case letter", b"c 700012000019\n"),
            ("letter alone", b"C\n"),
            ("letter and space", b"C \n"),
            ("missing last LF", b"C 700012000019"),
            ("missing LF after a rule", b"C 700012000019\nR 1 A a"),
            ("space in front", b" C 700012000019\n"),
            ("space at the end", b"C 700012000019 \n"),
            ("two spaces", b"C  700012000019\n"),
            ("letter in the digits", b"C 70001200001x\n"),
            (
                "wrong check digit before a formless line",
                b"C 700012000018\nX\n",
            ),
            (
                "wrong check digit before a missing LF",
                b"C 700012000018\nC 1",
            ),
        ],
    )
}

fn numbers(rt: &impl Print) {
    show_all(
        rt,
        &[
            ("m of 0", b"C 700012000019\nG 1 0\n"),
            ("m of 00", b"C 700012000019\nG 1 00\n"),
            ("m of 01", b"C 700012000019\nG 1 01\n"),
            ("m of 2", b"C 700012000019\nG 1 2\n"),
            ("m of 33", b"C 700012000019\nG 1 33\n"),
            ("m of 99", b"C 700012000019\nR 99 A a\n"),
            ("m of 100", b"C 700012000019\nR 100 A a\n"),
            ("m missing", b"C 700012000019\nG 1\n"),
            ("group 0", b"C 700012000019\nG 0 1\n"),
            ("group 8", b"C 700012000019\nG 8 1\n"),
            ("group 9", b"C 700012000019\nG 9 1\n"),
            ("group of two digits", b"C 700012000019\nG 11 1\n"),
            ("group line above its card", b"G 1 1\nC 700012000019\n"),
            ("rule line above its card", b"R 1 A a\nC 700012000019\n"),
        ],
    )
}

fn rules(rt: &impl Print) {
    show_all(
        rt,
        &[
            ("kind P", b"C 700012000019\nR 1 P h\n"),
            ("kind Q", b"C 700012000019\nR 1 Q a\n"),
            ("variable i", b"C 700012000019\nR 1 A i\n"),
            ("head a star", b"C 700012000019\nR 1 A *\n"),
            (
                "four prices",
                b"C 700012000019\nR 1 A a < b A * < b A * < b A * < b A *\n",
            ),
            (
                "five prices",
                b"C 700012000019\nR 1 A a < b A * < b A * < b A * < b A * < b A *\n",
            ),
            (
                "four conditions",
                b"C 700012000019\nR 1 A a ? 1 a = a * = * * ? 8 *\n",
            ),
            (
                "five conditions",
                b"C 700012000019\nR 1 A a ? 1 a = a * = * * ? 8 * = a a\n",
            ),
            (
                "price after a condition",
                b"C 700012000019\nR 1 A a ? 1 a < b A *\n",
            ),
            (
                "price with letters alike",
                b"C 700012000019\nR 1 A a < b A b\n",
            ),
            ("price from a star", b"C 700012000019\nR 1 A a < * A b\n"),
            ("condition with group 9", b"C 700012000019\nR 1 A a ? 9 a\n"),
            ("condition with group 0", b"C 700012000019\nR 1 A a ? 0 a\n"),
            ("condition cut short", b"C 700012000019\nR 1 A a = a\n"),
        ],
    )
}

fn bytes(rt: &impl Print) {
    show_all(
        rt,
        &[
            ("NUL", b"C 700012000019\nG 1 1\0\n"),
            ("CR", b"C 700012000019\r\n"),
            ("tab", b"C\t700012000019\n"),
            ("byte 255", b"C 70001200001\xff\n"),
            ("byte 128", b"\x80\n"),
        ],
    )
}

fn cards(rt: &impl Print) {
    show_all(
        rt,
        &[
            ("11 digits", b"C 70001200008\n"),
            ("12 digits", b"C 700012000001\n"),
            ("19 digits", b"C 7000120000000000008\n"),
            ("20 digits", b"C 70001200000000000001\n"),
            ("card twice", b"C 700012000019\nC 700012000019\n"),
            (
                "beginning of a longer card",
                b"C 7000120000000000008\nC 700012000001\n",
            ),
        ],
    )
}

// Cards as they are printed.
fn printed_groups(rt: &impl Print) {
    show_all(
        rt,
        &[
            ("three printed groups", b"C 7000-1200-0019\n"),
            ("one hyphen", b"C 7-00012000019\n"),
            ("one hyphen before the check digit", b"C 70001200001-9\n"),
            ("12 digits, 11 hyphens", b"C 7-0-0-0-1-2-0-0-0-0-1-9\n"),
            (
                "19 digits, 18 hyphens",
                b"C 7-0-0-0-1-2-0-0-0-0-0-0-0-0-0-0-0-0-8\n",
            ),
            ("11 digits in printed groups", b"C 7000-1200-008\n"),
            (
                "20 digits in printed groups",
                b"C 7000-1200-0000-0000-0001\n",
            ),
            (
                "20 digits, the first 19 a card",
                b"C 70001200000000000084\n",
            ),
            (
                "the same in printed groups",
                b"C 7000-1200-0000-0000-0084\n",
            ),
            ("two digits, one hyphen", b"C 1-2\n"),
            ("wrong check digit in printed groups", b"C 7000-1200-0018\n"),
        ],
    )
}

fn printed_twice(rt: &impl Print) {
    show_all(
        rt,
        &[
            (
                "in printed groups after without",
                b"C 700012000019\nC 7000-1200-0019\n",
            ),
            (
                "without after in printed groups",
                b"C 7000-1200-0019\nC 700012000019\n",
            ),
            (
                "in other printed groups",
                b"C 7000-1200-0019\nC 70-0012-000019\n",
            ),
            (
                "two cards in printed groups",
                b"C 7000-1200-0019\nC 7000-1200-0027\n",
            ),
            (
                "wrong check digit before a hyphen alone",
                b"C 7000-1200-0018\nC -\n",
            ),
        ],
    )
}

// Hyphens, and what stands in their place, where the form has none.
fn misplaced_hyphens(rt: &impl Print) {
    show_all(
        rt,
        &[
            ("leading hyphen", b"C -7000-1200-0019\n"),
            ("trailing hyphen", b"C 7000-1200-0019-\n"),
            ("doubled hyphen", b"C 7000--1200-0019\n"),
            ("hyphen alone", b"C -\n"),
            ("two hyphens alone", b"C --\n"),
            ("hyphen before the space", b"C- 7000-1200-0019\n"),
            ("hyphen for the space", b"C-700012000019\n"),
            ("two spaces before printed groups", b"C  7000-1200-0019\n"),
            ("space in place of a hyphen", b"C 7000 1200 0019\n"),
            ("full stop in place of a hyphen", b"C 7000.1200.0019\n"),
            (
                "en dash in place of a hyphen",
                b"C 7000\xe2\x80\x931200-0019\n",
            ),
            ("printed groups without LF", b"C 7000-1200-0019"),
            ("printed groups and CR", b"C 7000-1200-0019\r\n"),
            ("hyphen in a group line", b"C 700012000019\nG 1-1\n"),
            ("hyphen after m", b"C 700012000019\nG 1 1-\n"),
            ("hyphen in a rule line", b"C 700012000019\nR 1-A a\n"),
            ("hyphen after a rule", b"C 700012000019\nR 1 A a-\n"),
            (
                "with a group and a rule",
                b"C 7000-1200-0019\nG 1 1\nR 1 A a ? 1 a\n",
            ),
        ],
    )
}

// A text put together of parts, as far as there is room: more than a text may have. An array, since a String takes memory.
#[derive(Clone, Copy)]
struct Text {
    bytes: [u8; TEXT_ROOM],
    size: usize,
}

impl Text {
    fn new() -> Text {
        Text {
            bytes: [0; TEXT_ROOM],
            size: 0,
        }
    }

    fn put(&mut self, part: &[u8]) {
        let from = self.size.min(TEXT_ROOM);
        let end = from + part.len().min(TEXT_ROOM - from);
        self.bytes[from..end].copy_from_slice(&part[..end - from]);
        self.size = end;
    }

    fn put_times(&mut self, part: &[u8], times: u32) {
        for _ in 0..times {
            self.put(part);
        }
    }

    // The lines of cards with the numbers 0, 1, ..: the digits of a number below 100 are where none is doubled, so that the check digit is what
    // their sum lacks.
    fn put_cards(&mut self, count: u8) {
        for number in 0..count {
            let tens = number / 10 % 10;
            let ones = number % 10;
            let check = (21 - tens - ones) % 10;
            self.put(b"C 7000120");
            self.put(&[b'0' + tens, b'0', b'0' + ones, b'0', b'0' + check, b'\n']);
        }
    }

    fn show(&self, rt: &impl Print, label: &str) {
        show(rt, label, &self.bytes[..self.size.min(TEXT_ROOM)]);
    }
}

// What is first, a piece so many times, and what is last.
fn long_lines(rt: &impl Print) {
    for (label, first, piece, times, last) in [
        ("9,000 digits and hyphens", "C 1", "-2", 4499, "3\n"),
        ("a hyphen after them", "C 1", "-2", 4499, "-\n"),
        ("12,000 digits", "C ", "7000", 3000, "\n"),
        (
            "16,384 bytes with a hyphen",
            "C 700012-000019\n",
            "G 1 1\n",
            2728,
            "",
        ),
        (
            "16,385 bytes by a hyphen",
            "C 7000-12-000019\n",
            "G 1 1\n",
            2728,
            "",
        ),
    ] {
        let mut text = Text::new();
        text.put(first.as_bytes());
        text.put_times(piece.as_bytes(), times);
        text.put(last.as_bytes());
        text.show(rt, label);
    }
}

// So many cards, a line so many times, and what is last.
fn limits(rt: &impl Print) {
    for (label, count, line, times, last) in [
        ("32 cards", 32, "", 0, ""),
        ("33 cards", 32, "C 1\n", 1, ""),
        (
            "33rd card in printed groups",
            32,
            "C 7000-1200-0019\n",
            1,
            "",
        ),
        ("33rd card with a doubled hyphen", 32, "C 1--2\n", 1, ""),
        ("56 rules", 1, "R 1 A a\n", 56, ""),
        ("57 rules", 1, "R 1 A a\n", 57, ""),
        ("57th rule of no card", 1, "R 1 A a\n", 56, "R 2 A a\n"),
        ("16,384 bytes", 2, "G 1 1\n", 2723, "R 1 A a\nR 1 A a\n"),
        ("16,385 bytes", 2, "G 1 1\n", 2723, "R 1 A a\nR 1 A a\n\n"),
    ] {
        let mut text = Text::new();
        text.put_cards(count);
        text.put_times(line.as_bytes(), times);
        text.put(last.as_bytes());
        text.show(rt, label);
    }
}

fn main(rt: HostRuntime) {
    forms(&rt);
    numbers(&rt);
    rules(&rt);
    bytes(&rt);
    cards(&rt);
    printed_groups(&rt);
    printed_twice(&rt);
    misplaced_hyphens(&rt);
    long_lines(&rt);
    limits(&rt);
}
