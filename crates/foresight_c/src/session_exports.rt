// What C calls over a handle of a session. `embedding/foresight_session.h` declares each by the
// same name.

ghost use Rattle.foresight_c.specs.Handles.{ClosesOn};
ghost use Rattle.foresight_c.specs.SessionCalls.{DumpsOn, OpensOn, ServesOn};

use crate::answer::Answer;
use crate::handle::{Handle, taken};
use crate::served::Served;
use crate::session_messages::{tell_unopened, unopened_number};
use crate::sessions::{opened, tell, wrong};
use std::alloc::Global;

/// A session over a session file without requests: handlers, perhaps a table part, and the dividing
/// line. Searches in its tables begin as the seed has it, and so do those among its names (in no
/// clause); there may be so many names.
#[unsafe(no_mangle)]
pub extern "C" fn foresight_session_open(
    alloc: Global,
    handle: &mut Handle,
    text: &[u8],
    seed: u64,
    most_names: u32,
    message: &mut [u8],
    answer: &mut Answer,
) -> u8
    ensures { OpensOn handle.old.held.value handle.new.held.value text.now seed most_names
        message.old message.new answer.new result }
{
    answer.written = 0;
    answer.needed = 0;
    answer.told = 0;
    if let Some(desk) = taken(handle, alloc) {
        *handle = Handle::of(desk);
        return 11;
    }
    match opened(alloc, text, seed, most_names) {
        Ok(desk) => {
            *handle = Handle::of(desk);
            0
        }
        Err(why) => {
            let number = unopened_number(&why);
            answer.told = tell_unopened(why, message);
            number
        }
    }
}

/// Serves the requests of lines, one after another, up to a line that isn't served or until there
/// may be no room for one more reply.
#[unsafe(no_mangle)]
pub extern "C" fn foresight_session_serve(
    alloc: Global,
    handle: &mut Handle,
    lines: &[u8],
    out: &mut [u8],
    message: &mut [u8],
    served: &mut Served,
) -> u8
    ensures { ServesOn handle.old.held.value handle.new.held.value lines.now out.old out.new
        message.old message.new served.new result }
{
    match taken(handle, alloc) {
        Some(mut desk) => {
            let number = desk.serve(lines, out, message, served);
            *handle = Handle::of(desk);
            number
        }
        None => tell(served, 11, "", message),
    }
}

/// Writes the tables as they are: a table part that a session can open with again.
#[unsafe(no_mangle)]
pub extern "C" fn foresight_session_dump(
    alloc: Global,
    handle: &mut Handle,
    out: &mut [u8],
    message: &mut [u8],
    answer: &mut Answer,
) -> u8
    ensures { DumpsOn handle.old.held.value handle.new.held.value out.old out.new message.old
        message.new answer.new result }
{
    match taken(handle, alloc) {
        Some(desk) => {
            let number = desk.dump(alloc, out, message, answer);
            *handle = Handle::of(desk);
            number
        }
        None => wrong(answer),
    }
}

/// Gives back all memory of the handle.
#[unsafe(no_mangle)]
pub extern "C" fn foresight_session_close(alloc: Global, handle: &mut Handle) -> u8
    ensures { ClosesOn handle.old.held.value handle.new.held.value result }
{
    match taken(handle, alloc) {
        Some(_) => 0,
        None => 11,
    }
}
