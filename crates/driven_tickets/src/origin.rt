// The tables that a desk was opened over.

ghost use Rattle.std.specs.Prelude.{◌≡◌};
ghost use Rattle.session_values.specs.Tables.{Tables};
ghost use Rattle.plain_tables.specs.Containers.{tables_code};

use crate::desk_tables::DeskTables;
use std::marker::Model;

/// The tables that a desk was opened over. Only proofs read them.
#[derive(Drop)]
pub(crate) struct Origin {
    pub ghost opening: { Tables } by { tables_code },
}

impl Model for Origin {
    ghost use Rattle.std.specs.Borrow.{ftrue};

    ghost also_owns = { λ _. ftrue };
}

// It owns nothing.
unsafe impl Send for Origin {}

impl Origin {
    /// A desk was opened over these tables.
    pub(crate) fn of(_tables: &DeskTables) -> Origin
        ensures { result ≡ record { opening = _tables.now } }
    {
        Origin {}
    }
}
