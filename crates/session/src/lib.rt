// A conversation with an engine in a dialect: a rule text, then blocks of input in, answers out.
//
// `begin` answers for the text, `feed` for as much of a block as there is room to answer, `finish` for a last line without LF. However an
// input is cut into blocks, what is printed is the same (specs/Theorems.antt); reading and writing are the caller's. So is the buffer for a
// line that has no LF yet: at least one byte more than the dialect's longest line, lent to `feed` and `finish` as the call before left it, so
// that its 40,961 bytes are not copied for each block.

#![tactic(auto)]

mod blocks;
mod replies;

ghost use Rattle.std.specs.Prelude.{◌≡◌};
ghost use Rattle.session.specs.Blocks.{line_room};
ghost use Rattle.session.specs.Contract.{Begins, Feeds, Finishes};

use answers::Answer;
use commands::{ANSWER_SIZE, Dialect};
use engine::{Engine, Opened};

// The dialect, the engine, and how much is kept of the line that has no LF yet.
#[derive(Clone, Copy)]
pub struct Session {
    pub dialect: Dialect,
    pub engine: Engine,
    pub size: usize,
}

// A session, what opening the text answered, and how many bytes were printed. No Result: a refused text has a session too, of an engine without
// cards, and its refusal is printed.
#[derive(Clone, Copy)]
pub struct Begun {
    pub session: Session,
    pub answer: Answer,
    pub count: usize,
}

// The session afterwards, how much of the block was taken, and how many bytes were printed.
#[derive(Clone, Copy)]
pub struct Fed {
    pub session: Session,
    // 0 where the buffer for a line lacks its room, and where `out` has none: an Option would tell the one and not the other.
    pub taken: usize,
    pub count: usize,
}

// One byte over the longest line is enough to know that a line is too long.
fn line_room(dialect: Dialect) -> usize
    ensures { result ≡ line_room dialect }
{
    // `as`: the library has no From of 32 bits for a size.
    dialect.longest as usize + 1
}

// A rule text of any bytes: `book` cards rules, or the refusal and its line.
pub fn begin(dialect: Dialect, text: &[u8], out: &mut [u8; ANSWER_SIZE]) -> Begun
    ensures { Begins dialect text.now out.old out.new result }
{
    let Opened { answer, engine } = engine::open(text);
    let count = replies::put_opening(answer, &engine, out);
    let session = Session {
        dialect,
        engine,
        size: 0,
    };
    Begun {
        session,
        answer,
        count,
    }
}

// As much of a block as there is room to answer, if each byte of it had an answer; nothing where the buffer for a line lacks its room.
pub fn feed(mut session: Session, buffer: &mut [u8], block: &[u8], out: &mut [u8]) -> Fed
    ensures { Feeds session buffer.old block.now out.old buffer.new out.new result }
{
    let room = line_room(session.dialect);
    if buffer.len() < room {
        return Fed {
            session,
            taken: 0,
            count: 0,
        };
    }
    let taken = block.len().min(out.len() / ANSWER_SIZE);
    session.size = session.size.min(room);
    let count = session.answer_block(&mut buffer[..room], &block[..taken], out);
    Fed {
        session,
        taken,
        count,
    }
}

// The answer to a last line that lacks its LF, if there is one.
pub fn finish(mut session: Session, buffer: &[u8], out: &mut [u8; ANSWER_SIZE]) -> usize
    ensures { Finishes session buffer.now out.old out.new result }
{
    let kept = session.size.min(line_room(session.dialect));
    let line = &buffer[..kept.min(buffer.len())];
    if line.is_empty() {
        return 0;
    }
    session.answer(line, out)
}
