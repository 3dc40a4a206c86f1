//! The rule of a shared queue: what was pushed with all accounts is what was popped and what the queue holds.
//!
//! `crossbeam_queue` keeps a rule that its caller chooses, over what a queue holds and what each pass shows, and asks
//! for a proof that each step keeps it. The types below name the steps.

ghost use Rattle.std.specs.Prelude.{◌≡◌, ⊤};
ghost use Rattle.shared_queues.specs.Accounts.{AddUp, IsLeft, all_shares, closed_entries, first_entries, joined_entries, new_entries, with_less, with_popped, with_pushed};

use crate::entries::Entries;
use crossbeam_queue::protocol::{Join, Lesson, Outcome, Protocol, Split};

/// What was pushed is what was popped and what the queue holds, each item as often.
pub struct Balance;

impl<T> Protocol<T, Entries<T>> for Balance {
    ghost holds = { AddUp };

    ghost first = { first_entries };
}

/// An account is opened: it gets one share of another one.
pub(crate) struct Opening;

impl<T> Split<Entries<T>> for Opening {
    ghost left = { with_less };

    ghost right = { λ _. new_entries };
}

/// An account is closed: another one gets its shares and what it shows.
pub(crate) struct Closing;

impl<T> Join<Entries<T>> for Closing {
    ghost both = { joined_entries };

    ghost spent = { closed_entries };
}

/// An item is pushed.
pub(crate) struct Pushing;

impl<T> Outcome<T, Entries<T>> for Pushing {
    ghost then = { λ old item new. new ≡ with_pushed old item };
}

impl<T> Lesson<T, Entries<T>> for Pushing {
    ghost fact = { λ _ _. ⊤ };
}

/// An item is popped.
pub(crate) struct Popping;

impl<T> Outcome<T, Entries<T>> for Popping {
    ghost then = { λ old item new. new ≡ with_popped old item };
}

impl<T> Lesson<T, Entries<T>> for Popping {
    ghost fact = { λ _ _. ⊤ };
}

/// Who has all shares learns what is left in the queue.
pub(crate) struct Balancing;

impl<T> Lesson<T, Entries<T>> for Balancing {
    ghost fact = { λ shown items. shown.shares ≡ all_shares → IsLeft shown items };
}
