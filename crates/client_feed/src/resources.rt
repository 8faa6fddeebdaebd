// What serving takes beside the requests.

use std::alloc::Global;

/// What runs and waits for threads, where room comes from, and the gate that workers pass.
#[derive(Drop)]
pub struct Resources<'a, R, G> {
    pub rt: &'a R,
    pub alloc: Global,
    pub gate: &'a G,
}
