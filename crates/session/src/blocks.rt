// The lines of a block: each is answered at its LF, and what is left after the last is kept.
ghost use Rattle.std.specs.Prelude.{◌≡◌, ◌*◌, ◌≤◌, length};
ghost use Rattle.commands.specs.Grammar.{answer_size};
ghost use Rattle.session.specs.Blocks.{line_room};
ghost use Rattle.session.specs.inner.Parts.{PartKept, LineAnswered, BlockAnswered};

use crate::Session;
use commands::ANSWER_SIZE;

impl Session {
    // A part of a line, put into the buffer after what is kept of it, as far as there is room.
    #[tactic(auto, using(crate::proofs::Keeping::part_kept, std::proofs::lemmas::Slice::overwrites))]
    fn keep(&mut self, buffer: &mut [u8], part: &[u8])
        requires { self.old.size ≤ length buffer.old }
        ensures { PartKept self.old buffer.old part.now self.new buffer.new }
    {
        let count = part.len().min(buffer.len() - self.size);
        let end = self.size + count;
        buffer[self.size..end].copy_from_slice(&part[..count]);
        self.size = end;
    }

    // A line's answer at the start of a buffer: how many bytes it is.
    fn answer_line(&mut self, line: &[u8], out: &mut [u8]) -> usize
        requires { answer_size ≤ length out.old }
        ensures { LineAnswered self.old line.now out.old self.new out.new result }
    {
        let reply = out.first_chunk_mut::<ANSWER_SIZE>().unwrap();
        self.answer(line, reply)
    }

    // The first line goes through the buffer, after what was kept of it, and the others are read where they are.
    // A byte of the block prints one answer at most. Lines are cut by `ascii::cut`: one byte a turn, as by `split`, takes 13 % more of a text.
    pub(crate) fn answer_block(&mut self, buffer: &mut [u8], block: &[u8], out: &mut [u8]) -> usize
        requires kept { self.old.size ≤ length buffer.old }
        requires line { length buffer.old ≡ line_room self.old.dialect }
        requires answers { length block.now * answer_size ≤ length out.old }
        ensures { BlockAnswered self.old buffer.old block.now out.old self.new buffer.new out.new result }
    {
        let Some((end, after)) = ascii::cut(block, b'\n') else {
            self.keep(buffer, block);
            return 0;
        };
        self.keep(buffer, end);
        let mut count = self.answer_line(&buffer[..self.size], out);
        let mut rest = after;
        while let Some((line, next)) = ascii::cut(rest, b'\n') {
            count += self.answer_line(line, &mut out[count..]);
            rest = next;
        }
        self.size = 0;
        self.keep(buffer, rest);
        count
    }
}
