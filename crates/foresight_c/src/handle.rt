// Handles: what C keeps of a desk.

ghost use Rattle.std.specs.Prelude.{◌≡◌, Option, Some, None, true};
ghost use Rattle.std.specs.Coded.{coded_option};
ghost use Rattle.foresight_c.specs.Held.{DeskOf, desk_code, held, is_live, value_in};

use crate::desk::Desk;
use std::alloc::Global;
use std::marker::Model;

/// A pointer to a desk, which it owns, or to nothing. Where it is dropped the desk is lost, so the
/// desk is taken out before.
#[repr(C)]
#[derive(Drop)]
pub struct Held {
    at: *mut u8,
    pub ghost value: { Option DeskOf } by { coded_option desk_code },
}

impl Model for Held {
    ghost also_owns = { λ h. held h.at h.value };
}

// What it owns may go to another thread.
unsafe impl Send for Held {}

impl Held {
    /// A pointer to nothing.
    pub fn none() -> Held
        ensures { result.value ≡ None }
    {
        Held {
            at: std::ptr::null_mut(),
        }
    }

    /// A pointer to this desk.
    pub fn of(desk: Box<Desk, Global>) -> Held
        ensures { result.value ≡ Some desk.value }
    {
        let at = Box::into_raw(desk);
        Held { at: at as *mut u8 }
    }

    /// The desk, where there is one.
    pub fn into_box(self, alloc: Global) -> Box<Desk, Global>
        requires { is_live self.value ≡ true }
        ensures { Some result.value ≡ self.value }
    {
        let Held { at } = self;
        unsafe { Box::from_raw(alloc, at as *mut Desk) }
    }
}

/// What C keeps: whether there is a desk, and the pointer to it. It may go to another thread, and is
/// used by one call at a time.
#[repr(C)]
#[derive(Drop)]
pub struct Handle {
    live: bool,
    pub held: Held,
    ghost state: { live ≡ is_live held.value },
}

impl Handle {
    /// A handle of nothing.
    pub fn none() -> Handle
        ensures { result.held.value ≡ None }
    {
        Handle {
            live: false,
            held: Held::none(),
        }
    }

    /// A handle of this desk.
    pub fn of(desk: Box<Desk, Global>) -> Handle
        ensures { result.held.value ≡ Some desk.value }
    {
        Handle {
            live: true,
            held: Held::of(desk),
        }
    }
}

/// Takes the desk out of a handle, where there is one.
pub fn taken(handle: &mut Handle, alloc: Global) -> Option<Box<Desk, Global>>
    ensures value { value_in result ≡ handle.old.held.value }
    ensures empty { handle.new.held.value ≡ None }
{
    let Handle { live, held } = std::mem::replace(handle, Handle::none());
    if live {
        Some(held.into_box(alloc))
    } else {
        None
    }
}
