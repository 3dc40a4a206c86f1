//! The rule of an exchange: whose turn it is, and what lies there.
//!
//! `crossbeam_queue` keeps a rule that its caller chooses, over what a queue holds and what each pass shows, and asks
//! for a proof that each step keeps it. The types below name the steps.

ghost use Rattle.std.specs.Prelude.{◌≡◌, ⊤, None};
ghost use Rattle.errands.specs.Turns.{HasTaken, InTurn, IsOfAsked, side_with};
ghost use Rattle.errands.specs.declared.side.Side.TheVariants.{Asks, Does, Over, Whole};

use crate::errand::Errand;
use crate::message::Message;
use crate::side::Side;
use crossbeam_queue::protocol::{Lesson, Outcome, Protocol, Split};
use std::marker::PhantomData;

/// What was asked lies there, or is being done, or what answers it lies there.
pub struct Turns<E> {
    errand: PhantomData<E>,
}

impl<Q, A, E: Errand<Q, A>> Protocol<Message<Q, A>, Side<Q>> for Turns<E> {
    ghost holds = { InTurn E.answers };

    ghost first = { Whole };
}

/// An exchange has two ends from now on.
pub(crate) struct Opening;

impl<Q> Split<Side<Q>> for Opening {
    ghost left = { λ _. Asks None };

    ghost right = { λ _. Does None };
}

/// Something is asked.
pub(crate) struct Asking;

impl<Q, A> Outcome<Message<Q, A>, Side<Q>> for Asking {
    ghost then = { λ _ message new. new ≡ side_with message };
}

impl<Q, A> Lesson<Message<Q, A>, Side<Q>> for Asking {
    ghost fact = { λ _ _. ⊤ };
}

/// What came of it is collected, or taken back where nobody began.
pub(crate) struct Collecting<E> {
    errand: PhantomData<E>,
}

impl<Q, A, E: Errand<Q, A>> Outcome<Message<Q, A>, Side<Q>> for Collecting<E> {
    ghost then = { λ old message new. (new ≡ Asks None) × IsOfAsked E.answers old message };
}

impl<Q, A, E> Lesson<Message<Q, A>, Side<Q>> for Collecting<E> {
    ghost fact = { λ _ _. ⊤ };
}

/// The doer takes what lies there: what is asked, or its own reply.
pub(crate) struct Beginning<E> {
    errand: PhantomData<E>,
}

impl<Q, A, E: Errand<Q, A>> Outcome<Message<Q, A>, Side<Q>> for Beginning<E> {
    ghost then = { λ _ message new. HasTaken E.answers message new };
}

impl<Q, A, E> Lesson<Message<Q, A>, Side<Q>> for Beginning<E> {
    ghost fact = { λ _ _. ⊤ };
}

/// The doer replies.
pub(crate) struct Replying;

impl<Q, A> Outcome<Message<Q, A>, Side<Q>> for Replying {
    ghost then = { λ _ _ new. new ≡ Does None };
}

impl<Q, A> Lesson<Message<Q, A>, Side<Q>> for Replying {
    ghost fact = { λ _ _. ⊤ };
}
