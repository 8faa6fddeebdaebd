// The rule of a lane.

ghost use Rattle.std.specs.Prelude.{List, ℕ};
ghost use Rattle.session_values.specs.declared.reply.Reply.{Reply};

use crossbeam_queue::protocol::{Lesson, Outcome, Protocol, Split};
use session_values::Reply;
use std::collections::LinkedList;
use std::marker::{Brand, PhantomData};

/// Names a list of replies and a number of callers. No value of such a type is needed.
pub trait Served {
    ghost replies: { List Reply };

    ghost callers: { ℕ };
}

// They are picked where a call passes the brand.
impl Served for Brand {
    ghost use Rattle.std.specs.Prelude.{[]};

    ghost replies = { [] };

    ghost callers = { 1 };
}

/// A ticket and its reply.
#[derive(Clone, Copy, Debug)]
pub struct Spoken {
    pub ticket: u32,
    pub reply: Reply,
}

/// What an end knows. No value of it is made.
pub struct EndState {
    /// The messages that it put in, in order.
    pub put: LinkedList<Spoken>,
    /// The messages that it took out, in order.
    pub taken: LinkedList<Spoken>,
    /// For how many of the callers it stands; what stands for none does nothing.
    pub share: u64,
    /// How many callers there are.
    pub callers: u64,
    /// The list of replies for which all messages are spoken.
    pub known: LinkedList<Reply>,
}

/// Every message is spoken for one list, and comes out as often as it went in.
pub struct LaneRule;

impl Protocol<Spoken, EndState> for LaneRule {
    ghost use Rattle.std.specs.Prelude.{[]};
    ghost use Rattle.hall_writing.specs.Lanes.{Carries, end_state};

    ghost holds = { Carries };

    ghost first = { end_state [] [] 1 1 [] };
}

/// The first end is told the list and how many callers there are, and stands for them all.
pub struct Reported<K> {
    marker: PhantomData<K>,
}

impl<K: Served> Split<EndState> for Reported<K> {
    ghost use Rattle.std.specs.Prelude.{[]};
    ghost use Rattle.hall_writing.specs.Lanes.{end_state};

    ghost left = { λ v. end_state [] [] K.callers K.callers K.replies };

    ghost right = { λ v. end_state [] [] 0 0 [] };
}

/// A new end stands for one of the callers for whom another one stood.
pub struct Another;

impl Split<EndState> for Another {
    ghost use Rattle.std.specs.Prelude.{◌-◌, []};
    ghost use Rattle.hall_writing.specs.Lanes.{end_state};

    ghost left = { λ v. end_state v.put v.taken (v.share - 1) v.callers v.known };

    ghost right = { λ v. end_state [] [] 1 v.callers v.known };
}

/// A message was put in.
pub struct PutIn;

impl Outcome<Spoken, EndState> for PutIn {
    ghost use Rattle.hall_writing.specs.Lanes.{HasPut};

    ghost then = { HasPut };
}

impl Lesson<Spoken, EndState> for PutIn {
    ghost use Rattle.hall_writing.specs.Lanes.{IsMoment};

    ghost fact = { IsMoment };
}

/// A message was taken out, and it is spoken for the list.
pub struct TookOut;

impl Outcome<Spoken, EndState> for TookOut {
    ghost use Rattle.hall_writing.specs.Lanes.{HasTaken};

    ghost then = { HasTaken };
}

impl Lesson<Spoken, EndState> for TookOut {
    ghost use Rattle.hall_writing.specs.Lanes.{IsMoment};

    ghost fact = { IsMoment };
}
