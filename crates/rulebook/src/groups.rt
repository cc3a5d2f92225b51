// Group lines.
ghost use Rattle.rulebook.specs.inner.Lines.{GroupTaken};

use crate::layout;
use crate::layout::CardTable;
use answers::Reason;

// Questions 2 and 6.
pub(crate) fn take(line: &[u8], cards: &mut CardTable) -> Result<(), Reason>
    ensures { GroupTaken line.now cards.old result cards.new }
{
    let member = forms::group_line(line).ok_or(Reason::NoForm)?;
    if layout::card_count(cards) < member.card {
        return Err(Reason::CardNotAbove);
    }
    layout::add_member(cards, member.group, member.card);
    Ok(())
}
