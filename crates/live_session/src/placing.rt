// The numbers of names, for programs that drive tickets.

ghost use Rattle.std.specs.Prelude.{◌≡◌, MatchOption, None, Some, slice_get};

use crate::answers::NameError;
use crate::session::LiveSession;
use text_lines::is_symbol;

impl LiveSession {
    ghost use Rattle.live_session.specs.Naming.{NamedAs};

    /// The number of a symbol's text among the session's names: a value that is this symbol has it.
    /// A text that is new is placed behind the others.
    pub fn name(&mut self, text: &str) -> Result<u32, NameError>
        ensures { NamedAs self.old self.new text.now result }
    {
        if !is_symbol(text) {
            return Err(NameError::NoSymbol);
        }
        if let Some(place) = self.names.find(text) {
            return Ok(place);
        }
        if self.names.len() >= self.most_names {
            return Err(NameError::TooManyNames);
        }
        match self.names.place(text) {
            Ok(place) => {
                self.history = self.history.drove();
                Ok(place)
            }
            Err(_) => Err(NameError::NoMemory),
        }
    }

    /// The text of a name's number, if there is one.
    pub fn text_of(&self, number: u32) -> Option<&str>
        ensures { MatchOption result (slice_get self.now.names number ≡ None)
            (λ text. slice_get self.now.names number ≡ Some text.now) }
    {
        if number < self.names.len() {
            Some(self.names.text(number))
        } else {
            None
        }
    }
}
