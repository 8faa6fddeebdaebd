// The values of a hall's turns.

use admission_book::Book;
use session_journal::Tickets;
use shard_tables::Part;
use std::marker::Model;

/// The value of a turn: of turn 0 the book, of every other turn a shard.
#[derive(Drop)]
pub enum Held<S: Tickets + Drop> {
    Register(Book<S>),
    Table(Part),
}

/// What counts of a value. No value of it is made.
pub struct Counted<S: Tickets + Drop> {
    held: Held<S>,
}

impl<S: Tickets + Drop> Model for Counted<S> {
    ghost use Rattle.std.specs.Coded.{codes};
    ghost use Rattle.session_values.specs.Containers.{container_code};
    ghost use Rattle.hall_rule.specs.Contents.{Content};
    ghost use Rattle.hall_rule.specs.Shards.{content_of};

    ghost Value = { Content S };

    ghost coded = { Prim.hlevel (codes, container_code) };

    ghost view = { λ counted. content_of counted.held };
}
