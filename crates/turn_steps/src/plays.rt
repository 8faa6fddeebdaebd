// What each step tells. These types are for the proofs alone.
ghost use Rattle.std.specs.Prelude.{ℕ, Option, None};
ghost use Rattle.turn_steps.specs.Steps.{asked, reached, laid, returned, booked, left_view, right_view, both_views, spent_view};

use crate::tie_rule::TieRule;
use crate::view::View;
use atomic_table::{Join, Play, Split};
use std::marker::{Brand, PhantomData};

// The turn of a step that a word does not show. A call at `Brand` picks it.
pub(crate) trait Aim {
    ghost turn: { ℕ };
}

impl Aim for Brand {
    ghost turn = { 0 };
}

/// The contents that a giving back of the book leaves to the turns that the seat holds. A call at
/// `Brand` picks it.
pub trait Change<C> {
    ghost new: { ℕ → Option C };
}

impl<C> Change<C> for Brand {
    ghost new = { λ _. None };
}

pub(crate) struct Ask<R> {
    marker: PhantomData<R>,
}

impl<V, R: TieRule<V>> Play<Option<V>, View<R::Content>> for Ask<R> {
    ghost then = { λ s m found n. asked R.holds s.slots s.first m found n };
}

pub(crate) struct Reach<R, K> {
    marker: PhantomData<(R, K)>,
}

impl<V, R: TieRule<V>, K: Aim> Play<Option<V>, View<R::Content>> for Reach<R, K> {
    ghost then = { λ _ m _ n. reached R.content K.turn m n };
}

pub(crate) struct Lay<R> {
    marker: PhantomData<R>,
}

impl<V, R: TieRule<V>> Play<Option<V>, View<R::Content>> for Lay<R> {
    ghost then = { λ _ m _ n. laid R.content m n };
}

pub(crate) struct Return<R> {
    marker: PhantomData<R>,
}

impl<V, R: TieRule<V>> Play<Option<V>, View<R::Content>> for Return<R> {
    ghost then = { λ s m _ n. returned s.slots s.first m n };
}

pub(crate) struct Book<R, K> {
    marker: PhantomData<(R, K)>,
}

impl<V, R: TieRule<V>, K: Change<R::Content>> Play<Option<V>, View<R::Content>> for Book<R, K> {
    ghost then = { λ s m _ n. booked K.new s.slots s.first m n };
}

// A seat's first caller is cut off, or the callers of two seats are put together.
pub(crate) struct Part;

impl<C> Split<View<C>> for Part {
    ghost left = { left_view };

    ghost right = { right_view };
}

impl<C> Join<View<C>> for Part {
    ghost both = { both_views };

    ghost spent = { spent_view };
}
