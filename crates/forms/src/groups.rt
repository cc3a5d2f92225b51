// Group lines: `G g m`.
ghost use Rattle.std.specs.Prelude.{◌≡◌};
ghost use Rattle.forms.specs.Forms.{group_line_in};

// What a group line says: a card is in a group.
#[derive(Clone, Copy)]
pub struct GroupLine {
    pub group: u8,
    pub card: u8,
}

#[tactic(auto, using(crate::proofs::Parts::no_group_line, crate::proofs::Parts::no_number, letters::proofs::NameLaws::absent))]
pub fn group_line(line: &[u8]) -> Option<GroupLine>
    ensures { result ≡ group_line_in line.now }
{
    let [_, b' ', g, b' ', rest @ ..] = line else {
        return None;
    };
    let group = letters::group(*g)?;
    let (card, rest) = letters::number(rest)?;
    rest.is_empty().then_some(GroupLine { group, card })
}
