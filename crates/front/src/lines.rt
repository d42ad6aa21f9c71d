// The lines of rules, which the program puts where there is room.
ghost use Rattle.rules.specs.Rules.{rule_at, rules_of};
ghost use Rattle.programs.specs.Area.{Room, Puts};
ghost use Rattle.front.specs.Printing.{line_of, rules_text};

use dossier::WIDTH;
use programs::{put_effect, put_number, put_word};
use rules::Reach;

// Puts the line of a rule.
fn put_rule(out: &mut [u8], at: usize, rule: &[u8; WIDTH]) -> usize
    requires { Room out.old at (line_of (rule_at rule.now 0)) }
    ensures { Puts out.old at (line_of (rule_at rule.now 0)) out.new result }
{
    let [low, high, effect, reach, ..] = *rule;
    let after_target = put_number(out, at, dossier::two(low, high));
    let after_effect = put_effect(out, after_target, effect);
    let word: &[u8] = match Reach::from(reach) {
        Reach::Itself => b" self\n",
        Reach::All => b" all\n",
    };
    put_word(out, after_effect, word)
}

// Puts the line of the count and the line of each rule.
pub(crate) fn put_rules(out: &mut [u8], rules: &[u8]) -> usize
    requires { Room out.old 0 (rules_text (rules_of rules.now)) }
    ensures { Puts out.old 0 (rules_text (rules_of rules.now)) out.new result }
{
    let (records, _) = rules.as_chunks::<WIDTH>();
    let named = put_word(out, 0, b"rules ");
    let counted = put_number(out, named, records.len());
    let mut to = put_word(out, counted, b"\n");
    for rule in records {
        to = put_rule(out, to, rule);
    }
    to
}
