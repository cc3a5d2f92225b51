// Rule lines.
ghost use Rattle.rulebook.specs.inner.Lines.{RuleTaken};

use crate::layout;
use crate::layout::RuleTable;
use answers::Reason;

// Questions 2, 6 and 7, over so many declared cards.
pub(crate) fn take(line: &[u8], declared: u8, rules: &mut RuleTable) -> Result<(), Reason>
    ensures { RuleTaken line.now declared rules.old result rules.new }
{
    let form = forms::rule_form(line).ok_or(Reason::NoForm)?;
    if declared < form.head.owner {
        return Err(Reason::CardNotAbove);
    }
    if limits::RULE_LIMIT <= layout::rule_count(rules) {
        return Err(Reason::TooManyRules);
    }
    layout::add_rule(rules, &layout::row_of(form));
    Ok(())
}
