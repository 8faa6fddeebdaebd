// The printed table of rules.

ghost use Rattle.std.specs.Prelude.{◌≡◌, ◌++◌, map, IfOk, OnOk};
ghost use Rattle.std.specs.List.{flat_map};
ghost use Rattle.refusal_places.specs.RuleTable as spec;

use crate::rule::Rule;
use crate::rule_table::rules;
use session_values::NoMemory;
use std::alloc::Global;

/// The table of rules as a text, a line a rule: its word, what its refusals name, and its sentence.
pub fn rules_text(alloc: Global) -> Result<Vec<u8>, NoMemory>
    ensures { IfOk result (λ text. text.items ≡ spec.rules_text) }
{
    let mut text = Vec::new(alloc);
    push_rules(&mut text, rules())?;
    Ok(text)
}

/// Appends a line for each of these rules.
#[tactic(auto, using(crate::proofs::RuleLines::lines_more, crate::proofs::RuleLines::lines_all))]
fn push_rules(text: &mut Vec<u8>, rules: &[Rule]) -> Result<(), NoMemory>
    ensures { OnOk result (text.new.items
        ≡ text.old.items ++ flat_map spec.row_line (map spec.row_of rules.now)) }
{
    for rule in rules {
        push_rule(text, rule)?;
    }
    Ok(())
}

/// Appends the line of a rule.
fn push_rule(text: &mut Vec<u8>, rule: &Rule) -> Result<(), NoMemory>
    ensures { OnOk result (text.new.items
        ≡ text.old.items ++ spec.row_line (spec.row_of rule.now)) }
{
    text.extend_from_slice(rule.word.as_bytes())?;
    text.push(b' ')?;
    text.extend_from_slice(rule.place.word().as_bytes())?;
    text.push(b' ')?;
    text.extend_from_slice(rule.sentence.as_bytes())?;
    text.push(b'\n')?;
    Ok(())
}
