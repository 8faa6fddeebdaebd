// Sessions that live, as a handle keeps them.

use byte_ends::WriteBuffer;
use live_session::LiveSession;

/// A session, and the buffer in which its replies wait until they are handed over, which is taken
/// once.
#[derive(Drop)]
pub struct SessionDesk {
    pub session: LiveSession,
    pub replies: WriteBuffer,
}
