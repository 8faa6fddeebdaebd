// What C asks over a handle of a session. `embedding/foresight_session.h` declares each by the same
// name.

ghost use Rattle.std.specs.Prelude.{◌≡◌};
ghost use Rattle.foresight_c.specs.Counts.{CountsOn, DeclaredOn, SizeOn};
ghost use Rattle.foresight_c.specs.Handles.{OnStill};

use crate::counts::Counts;
use crate::handle::{Handle, taken};
use crate::values::COperation;
use std::alloc::Global;

/// What the session holds.
#[unsafe(no_mangle)]
pub extern "C" fn foresight_session_counts(
    alloc: Global,
    handle: &mut Handle,
    counts: &mut Counts,
) -> u8
    ensures { OnStill handle.old.held.value handle.new.held.value result (counts.new ≡ counts.old)
        (λ d. CountsOn d counts.old counts.new result) }
{
    match taken(handle, alloc) {
        Some(desk) => {
            let number = desk.counts(counts);
            *handle = Handle::of(desk);
            number
        }
        None => 11,
    }
}

/// How many entries a table has.
#[unsafe(no_mangle)]
pub extern "C" fn foresight_session_size(
    alloc: Global,
    handle: &mut Handle,
    table: u32,
    size: &mut u32,
) -> u8
    ensures { OnStill handle.old.held.value handle.new.held.value result (size.new ≡ size.old)
        (λ d. SizeOn d table size.old size.new result) }
{
    match taken(handle, alloc) {
        Some(desk) => {
            let number = desk.size(table, size);
            *handle = Handle::of(desk);
            number
        }
        None => 11,
    }
}

/// What an open ticket has declared.
#[unsafe(no_mangle)]
pub extern "C" fn foresight_session_declared(
    alloc: Global,
    handle: &mut Handle,
    ticket: u64,
    out: &mut [COperation],
    size: &mut usize,
) -> u8
    ensures { OnStill handle.old.held.value handle.new.held.value result
        ((out.new ≡ out.old) × (size.new ≡ size.old))
        (λ d. DeclaredOn d ticket out.old out.new size.old size.new result) }
{
    match taken(handle, alloc) {
        Some(desk) => {
            let number = desk.declared(ticket, out, size);
            *handle = Handle::of(desk);
            number
        }
        None => 11,
    }
}
