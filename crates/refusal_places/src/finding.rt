// Rules by their words.

ghost use Rattle.std.specs.Prelude.{◌≡◌, map};
ghost use Rattle.refusal_places.specs.RuleTable as spec;

use crate::rule::Rule;
use crate::rule_table::rules;

/// The rule with this word, if there is one.
pub fn rule_of(word: &str) -> Option<Rule>
    ensures { spec.row_option result ≡ spec.rule_of word.now }
{
    rule_among(rules(), word)
}

/// The first of these rules with this word.
fn rule_among(rules: &[Rule], word: &str) -> Option<Rule>
    ensures { spec.row_option result ≡ spec.row_in (map spec.row_of rules.now) word.now }
{
    for rule in rules {
        if word == rule.word {
            return Some(*rule);
        }
    }
    None
}
