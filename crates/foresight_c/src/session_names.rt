// Names of a session, at its desk.

ghost use Rattle.std.specs.Prelude.{◌≡◌};
ghost use Rattle.foresight_c.specs.SessionNames as spec;
ghost use Rattle.foresight_c.specs.SessionNames.{NameAt, NameOn, TextAt, TextOn};

use crate::desk::Desk;
use crate::fronts::put_front;
use crate::session_desk::SessionDesk;
use live_session::NameError;

// The number of why a text has no number.
fn unnamed_number(why: NameError) -> u8
    ensures { result ≡ spec.unnamed_number why }
{
    match why {
        NameError::NoSymbol => 1,
        NameError::TooManyNames => 15,
        NameError::NoMemory => 3,
    }
}

// Tells the number of a symbol's text among the names of a session.
fn name_at(desk: &mut SessionDesk, text: &[u8], number: &mut u32) -> u8
    ensures { NameAt desk.old desk.new text.now number.old number.new result }
{
    match std::str::from_utf8(text) {
        Ok(text) => match desk.session.name(text) {
            Ok(place) => {
                *number = place;
                0
            }
            Err(why) => unnamed_number(why),
        },
        Err(_) => 16,
    }
}

// Puts the text of a name's number at the front of a room, and tells how long it is.
fn text_at(desk: &SessionDesk, number: u32, out: &mut [u8], size: &mut usize) -> u8
    ensures { TextAt desk.now number out.old out.new size.old size.new result }
{
    match desk.session.text_of(number) {
        Some(text) => {
            put_front(out, text.as_bytes());
            *size = text.len();
            0
        }
        None => 10,
    }
}

impl Desk {
    /// Tells the number of a symbol's text among the names of the session.
    pub(crate) fn name(&mut self, text: &[u8], number: &mut u32) -> u8
        ensures { NameOn self.old self.new text.now number.old number.new result }
    {
        match self {
            Desk::Session(desk) => name_at(desk, text, number),
            Desk::Tables(_) => 11,
        }
    }

    /// Puts the text of a name's number at the front of a room, and tells how long it is.
    pub(crate) fn text(&self, number: u32, out: &mut [u8], size: &mut usize) -> u8
        ensures { TextOn self.now number out.old out.new size.old size.new result }
    {
        match self {
            Desk::Session(desk) => text_at(desk, number, out, size),
            Desk::Tables(_) => 11,
        }
    }
}
