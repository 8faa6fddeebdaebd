// Waiting without a lock: a thread is yielded, so many times at most.

use std::sync::atomic::{AtomicU32, Ordering};
use std::thread;

/// Yields the thread until so much is counted, but no more than so many times; says whether it was
/// counted.
pub(crate) fn until(count: &AtomicU32, least: u32, yields: u32) -> bool {
    for _ in 0..yields {
        if count.load(Ordering::SeqCst) >= least {
            return true;
        }
        thread::yield_now();
    }
    count.load(Ordering::SeqCst) >= least
}
