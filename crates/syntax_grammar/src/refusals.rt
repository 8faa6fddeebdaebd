// Why the parser refuses a source.

ghost use Rattle.std.specs.Prelude.{◌≡◌};
ghost use Rattle.syntax_grammar.specs.Refusal as spec;

use crate::{Sort, TokenKind, Word};
use session_values::NoMemory;
use std::alloc::{AllocError, AllocFailed};
use thiserror::Error;

/// The first fault of a source, with the byte place of its token.
#[derive(Debug, Drop, Error)]
pub enum SyntaxRefusal {
    /// A character that begins no token.
    #[error("a character at {at} that begins no token")]
    BadByte { at: u32 },
    /// A token with which no file goes on, or the end of a file that isn't whole.
    #[error("unexpected {found:?} at {at}")]
    Unexpected { at: u32, found: TokenKind },
    #[error("the number at {at} is too large")]
    NumberTooLarge { at: u32 },
    /// A name or a symbol of more than 64 bytes.
    #[error("the name at {at} is too long")]
    NameTooLong { at: u32 },
    /// A block of depth 17, a parenthesis inside 16 open ones, or the 65th operator sign of an
    /// expression.
    #[error("nested too deep at {at}")]
    TooDeep { at: u32 },
    #[error("no memory")]
    NoMemory,
}

impl From<NoMemory> for SyntaxRefusal {
    ghost use Rattle.std.specs.Prelude.{◌≡◌};
    ghost use Rattle.syntax_grammar.specs.declared.refusals.SyntaxRefusal.TheVariants as refusal;

    ghost from_gives = { λ _ e. e ≡ refusal.NoMemory };

    fn from(_: NoMemory) -> Self {
        SyntaxRefusal::NoMemory
    }
}

impl From<AllocError> for SyntaxRefusal {
    ghost use Rattle.std.specs.Prelude.{◌≡◌};
    ghost use Rattle.syntax_grammar.specs.declared.refusals.SyntaxRefusal.TheVariants as refusal;

    ghost from_gives = { λ _ e. e ≡ refusal.NoMemory };

    fn from(_: AllocError) -> Self {
        SyntaxRefusal::NoMemory
    }
}

impl<T: Drop> From<AllocFailed<T>> for SyntaxRefusal {
    ghost use Rattle.std.specs.Prelude.{◌≡◌};
    ghost use Rattle.syntax_grammar.specs.declared.refusals.SyntaxRefusal.TheVariants as refusal;

    ghost from_gives = { λ _ e. e ≡ refusal.NoMemory };

    fn from(_: AllocFailed<T>) -> Self {
        SyntaxRefusal::NoMemory
    }
}

/// Why a word that no rule takes is refused.
pub fn refusal(word: Word) -> SyntaxRefusal
    ensures { result ≡ spec.refusal word }
{
    match word.sort {
        Sort::Bad => SyntaxRefusal::BadByte { at: word.at },
        Sort::Long => SyntaxRefusal::NameTooLong { at: word.at },
        sort => SyntaxRefusal::Unexpected {
            at: word.at,
            found: sort.kind(),
        },
    }
}
