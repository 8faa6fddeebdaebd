// What the relation asks of two kinds.

ghost use Rattle.std.specs.Prelude.{◌≡◌, ◌&&◌};
ghost use Rattle.session_values.specs.Kinds.{is_on_map, is_read};
ghost use Rattle.commute_tables.specs.Relation.{same_bool};

use session_values::Kind;

/// Both change nothing.
#[inline(always)]
pub(crate) fn both_read(a: Kind, b: Kind) -> bool
    ensures { result ≡ (is_read a && is_read b) }
{
    a.reads() && b.reads()
}

#[inline(always)]
#[tactic(auto, using(crate::proofs::OnMap::told_on_map))]
fn on_map(kind: Kind) -> bool
    ensures { result ≡ is_on_map kind }
{
    kind.on_map()
}

/// They are of one kind of container.
#[inline(always)]
pub(crate) fn one_home(a: Kind, b: Kind) -> bool
    ensures { result ≡ same_bool (is_on_map a) (is_on_map b) }
{
    on_map(a) == on_map(b)
}
