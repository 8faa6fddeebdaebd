// Kinds of tables and of operations.

ghost use Rattle.std.specs.Prelude.{◌≡◌};
ghost use Rattle.std.specs.Bool.{Decides};
ghost use Rattle.session_values.specs.declared.kind.TableKind.TheVariants.{Map};
ghost use Rattle.session_values.specs.Kinds.{arguments, home, is_adding, is_keyed, is_plain, is_read, word_of};

/// What a table is.
#[derive(Clone, Copy, Debug, PartialEq, Eq)]
pub enum TableKind {
    Map,
    Set,
}

/// What an operation does: the first six work on maps, the last five on sets.
#[derive(Clone, Copy, Debug, PartialEq, Eq, PartialOrd, Ord)]
pub enum Kind {
    /// The value of a key, or nil.
    Get,
    /// Binds a key to a value; nil.
    Put,
    /// Binds a key to a value; what it was bound to before, or nil.
    Swap,
    /// Unbinds a key; nil.
    Del,
    /// The number of bound keys.
    Size,
    /// Adds a number to what a key is bound to; nil.
    Bump,
    /// 1 where the key is a member, else 0.
    Has,
    /// Makes the key a member; 1 where it was none, else 0.
    Add,
    /// Makes the key a member; nil.
    Mark,
    /// Takes the key out; nil.
    Drop,
    /// The number of members.
    Count,
}

impl Kind {
    /// All kinds, in their order.
    pub const ALL: [Kind; 11] = [
        Kind::Get,
        Kind::Put,
        Kind::Swap,
        Kind::Del,
        Kind::Size,
        Kind::Bump,
        Kind::Has,
        Kind::Add,
        Kind::Mark,
        Kind::Drop,
        Kind::Count,
    ];

    /// The reserved word of the handler language.
    pub fn word(self) -> &'static str
        ensures { result.now ≡ word_of self }
    {
        match self {
            Kind::Get => "get",
            Kind::Put => "put",
            Kind::Swap => "swap",
            Kind::Del => "del",
            Kind::Size => "size",
            Kind::Bump => "bump",
            Kind::Has => "has",
            Kind::Add => "add",
            Kind::Mark => "mark",
            Kind::Drop => "drop",
            Kind::Count => "count",
        }
    }

    /// How many arguments stand after the table.
    pub fn arguments(self) -> u32
        ensures { result ≡ arguments self }
    {
        match self {
            Kind::Put | Kind::Swap | Kind::Bump => 2,
            Kind::Get | Kind::Del | Kind::Has | Kind::Add | Kind::Mark | Kind::Drop => 1,
            Kind::Size | Kind::Count => 0,
        }
    }

    /// Whether it works on maps.
    #[inline(always)]
    pub fn on_map(self) -> bool
        ensures { Decides result (home self ≡ Map) }
    {
        match self {
            Kind::Get | Kind::Put | Kind::Swap | Kind::Del | Kind::Size | Kind::Bump => true,
            Kind::Has | Kind::Add | Kind::Mark | Kind::Drop | Kind::Count => false,
        }
    }

    /// Whether it is about one key.
    #[inline(always)]
    pub fn is_keyed(self) -> bool
        ensures { result ≡ is_keyed self }
    {
        match self {
            Kind::Get | Kind::Put | Kind::Swap | Kind::Del | Kind::Bump => true,
            Kind::Has | Kind::Add | Kind::Mark | Kind::Drop => true,
            Kind::Size | Kind::Count => false,
        }
    }

    /// Whether it changes nothing.
    #[inline(always)]
    pub fn reads(self) -> bool
        ensures { result ≡ is_read self }
    {
        match self {
            Kind::Get | Kind::Size | Kind::Has | Kind::Count => true,
            Kind::Put | Kind::Swap | Kind::Del | Kind::Bump => false,
            Kind::Add | Kind::Mark | Kind::Drop => false,
        }
    }

    /// Whether it may add a key.
    pub fn adds(self) -> bool
        ensures { result ≡ is_adding self }
    {
        match self {
            Kind::Put | Kind::Swap | Kind::Bump | Kind::Add | Kind::Mark => true,
            Kind::Get | Kind::Del | Kind::Size => false,
            Kind::Has | Kind::Drop | Kind::Count => false,
        }
    }

    /// Whether it is a plain change: done twice it leaves what it leaves once, and its reply tells
    /// nothing.
    #[inline(always)]
    pub fn is_plain(self) -> bool
        ensures { result ≡ is_plain self }
    {
        match self {
            Kind::Put | Kind::Del | Kind::Mark | Kind::Drop => true,
            Kind::Get | Kind::Swap | Kind::Size | Kind::Bump => false,
            Kind::Has | Kind::Add | Kind::Count => false,
        }
    }
}
