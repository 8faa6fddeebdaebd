// Words taken by the parts that are still to come.

ghost use Rattle.std.specs.Prelude.{◌≡◌, IfOk};
ghost use Rattle.syntax_grammar.specs.Next as next;
ghost use Rattle.refusal_advice.specs.Parts.{Takes, parts_of};

use crate::part::Part;
use crate::rows::row;
use session_values::NoMemory;
use syntax_grammar::Sort;

/// Takes a word; false where no part may begin with it.
pub(crate) fn take(parts: &mut Vec<Part>, sort: Sort) -> Result<bool, NoMemory>
    ensures { IfOk result (λ taken. Takes (parts_of parts.old.items) sort taken
        (parts_of parts.new.items)) }
{
    'parts: while let Some(part) = parts.pop() {
        match row(part, sort) {
            Some(left) => {
                parts.extend_from_slice(left)?;
                return Ok(true);
            }
            None => {
                if !part.may_be_empty() {
                    return Ok(false);
                }
            }
        }
    }
    Ok(false)
}

/// Whether the text may end where these parts are to come. They are taken off.
pub(crate) fn may_end(parts: &mut Vec<Part>) -> bool
    ensures { result ≡ next.may_end (parts_of parts.old.items) }
{
    'parts: while let Some(part) = parts.pop() {
        if !part.may_be_empty() {
            return false;
        }
    }
    true
}
