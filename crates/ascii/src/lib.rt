// Bytes of texts, tables and proof records: the byte at a place, a digit's value, the place of a byte, and a text cut at one.

#![tactic(auto)]

ghost use Rattle.std.specs.Prelude.{◌≡◌, if◌then◌else◌, position, ◌==◌, get_or, T, MatchOption};
ghost use Rattle.model.specs.Lists.{lacks};
ghost use Rattle.model.specs.Reader.{digit_of, is_digit};
ghost use Rattle.ascii.specs.Cut.{CutAt};

// Past the end the byte 0, in no form: a row of a table is read at any number, and what is read of a table is told for every value of it.
pub fn byte(text: &[u8], at: usize) -> u8
    ensures { result ≡ get_or text.now at 0 }
{
    text.get(at).copied().unwrap_or(0)
}

// A decimal digit's value: matched on ranges, the form that document 01 names.
#[tactic(auto, unfolding(model::specs::Reader::digit_of))]
pub fn digit(x: u8) -> Option<u8>
    ensures { result ≡ (if is_digit x then Some (digit_of x) else None) }
{
    match x {
        b'0'..=b'9' => Some(x - b'0'),
        _ => None,
    }
}

// The place of the first wanted byte.
pub fn first(bytes: &[u8], wanted: u8) -> Option<usize>
    ensures { result ≡ position (λ x. x == wanted) bytes.now }
{
    bytes.iter().position(|x| *x == wanted)
}

// The same, eight bytes a turn: one a turn takes 13 % more instructions to read 16 KB; by the kit's `memchr`, which is made for long
// searches, row 8 of bench takes 8.8 % more, since a text's lines are short.
pub fn find(text: &[u8], wanted: u8) -> Option<usize>
    ensures { result ≡ position (λ x. x == wanted) text.now }
{
    let (eights, last) = text.as_chunks::<8>();
    for (i, eight) in eights.iter().enumerate() {
        if let Some(n) = first(eight, wanted) {
            return Some(i * 8 + n);
        }
    }
    Some(eights.len() * 8 + first(last, wanted)?)
}

// What comes before the first wanted byte, and what comes after it.
pub fn cut(text: &[u8], wanted: u8) -> Option<(&[u8], &[u8])>
    ensures { MatchOption result (T (lacks wanted text.now)) (λ parts. CutAt wanted text.now parts.0.now parts.1.now) }
{
    let end = find(text, wanted)?;
    Some((&text[..end], &text[end + 1..]))
}
