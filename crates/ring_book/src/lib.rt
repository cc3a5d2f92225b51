// Document 01's book: the ring of three cards and the swaps over it, for the programs that are tests.

#![tactic(auto)]

pub const BOOK: &[u8] = b"C 700056000016\nC 700012000019\nC 700012000027\nG 1 2\n\
      R 1 A a < b C *\nR 2 B a < b A *\nR 3 C a < b B *\nR 2 B a < a D * = a *\n\
      R 3 D a < b B *\nR 1 B a < a D b ? 1 b\nR 1 A a < b D *\nR 2 D a < a A *\n";
