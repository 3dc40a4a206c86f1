//! Queues that threads share.
//!
//! Each thread has an account of its own with a queue. What is known across threads is one rule: the items that were
//! pushed with all accounts are, each as often, those that were popped and those in the queue. Who has all shares of a
//! queue again, as the thread that joined the others, knows it of its own account alone.
//!
//! A thread that waits for an item tries for a short spell, and then it blocks. It announces the wait before it looks
//! for the last time, and whoever pushes an item looks for waiters after that. All these steps have one order. So
//! either the one who waits finds the item, or the one who pushes finds the waiter, and wakes it. Nothing of that is
//! proved, and no contract says that a waiter wakes: the accounts are the same however long anybody waits.

ghost use Rattle.std.specs.Prelude.{◌≡◌, ◌<◌, ◌++◌, IfOk, List, MatchOption};
ghost use Rattle.shared_queues.specs.Accounts.{IsLeft, all_shares, first_entries, joined_entries, new_entries, with_less, with_popped, with_pushed};
ghost use Rattle.shared_queues.specs.Queues.{IsAccountOf, entries};

use crate::account::Account;
use crate::entries::Entries;
use crate::rule::{Balance, Balancing, Closing, Opening, Popping, Pushing};
use crossbeam_queue::RuledArrayQueue;
use crossbeam_utils::Backoff;
use crossbeam_utils::sync::EventCount;
use std::alloc::{AllocError, Global};
use std::sync::Wait;
use std::thread;

/// How often one who waits for an item tries again before it blocks. That takes about as long as it takes to be woken:
/// a fraction of a millisecond.
const SPELL: u32 = 256;

/// A queue of a fixed number of places, which threads share. The item that was pushed first is popped first.
#[derive(Drop)]
pub struct SharedQueue<T> {
    ruled: RuledArrayQueue<T, Entries<T>, Balance>,
    /// Who waits for an item.
    arrivals: EventCount,
}

impl<T> SharedQueue<T> {
    /// Returns an empty queue of so many places, and an account with it that has all its shares. Out of memory is the
    /// only error.
    pub fn new(alloc: Global, places: usize) -> Result<(SharedQueue<T>, Account<T>), AllocError>
        requires { 0 < places }
        ensures account { IfOk result (λ made. IsAccountOf made.0 made.1) }
        ensures entries { IfOk result (λ made. entries made.1 ≡ first_entries) }
    {
        let (ruled, pass) = RuledArrayQueue::ruled(alloc, places)?;
        let queue = SharedQueue {
            ruled,
            arrivals: EventCount::new(),
        };
        Ok((queue, Account { pass }))
    }

    /// Returns a new account, which shows nothing and has one share. The other one has so many fewer.
    pub fn open(&self, account: &mut Account<T>) -> Account<T>
        requires account { IsAccountOf self.now account.old }
        requires shares { 1 < (entries account.old).shares }
        ensures account { IsAccountOf self.now account.new }
        ensures opened { IsAccountOf self.now result }
        ensures entries { entries account.new ≡ with_less (entries account.old) }
        ensures none { entries result ≡ new_entries }
    {
        Account {
            pass: self.ruled.another::<Opening>(&mut account.pass),
        }
    }

    /// Closes an account, whose shares another one gets, and what it shows.
    pub fn close(&self, account: &mut Account<T>, other: Account<T>)
        requires account { IsAccountOf self.now account.old }
        requires other { IsAccountOf self.now other }
        ensures account { IsAccountOf self.now account.new }
        ensures entries { entries account.new
            ≡ joined_entries (entries account.old) (entries other) }
    {
        let Account { pass } = other;
        self.ruled.absorb::<Closing>(&mut account.pass, pass);
    }

    /// Pushes an item at the back, and wakes one who waits for an item. Where the queue is full, it waits for a place.
    pub fn push<R: Wait>(&self, rt: &R, account: &mut Account<T>, item: T)
        requires account { IsAccountOf self.now account.old }
        requires shares { 0 < (entries account.old).shares }
        ensures account { IsAccountOf self.now account.new }
        ensures entries { entries account.new ≡ with_pushed (entries account.old) item }
    {
        let mut left = item;
        for _ in rt.forever() {
            match self
                .ruled
                .push_as::<Pushing, R>(rt, &mut account.pass, left)
            {
                Ok(()) => {
                    self.arrivals.notify_one();
                    return;
                }
                Err(item) => left = item,
            }
            thread::yield_now();
        }
        unreachable!()
    }

    /// Returns the item at the front, which is popped, if there is one.
    pub fn pop<R: Wait>(&self, rt: &R, account: &mut Account<T>) -> Option<T>
        requires account { IsAccountOf self.now account.old }
        requires shares { 0 < (entries account.old).shares }
        ensures account { IsAccountOf self.now account.new }
        ensures entries { MatchOption result (entries account.new ≡ entries account.old)
            (λ item. entries account.new ≡ with_popped (entries account.old) item) }
    {
        self.ruled.pop_as::<Popping, R>(rt, &mut account.pass)
    }

    /// Returns the item at the front, which is popped. Where there is none, it waits for one.
    pub fn wait<R: Wait>(&self, rt: &R, account: &mut Account<T>) -> T
        requires account { IsAccountOf self.now account.old }
        requires shares { 0 < (entries account.old).shares }
        ensures account { IsAccountOf self.now account.new }
        ensures entries { entries account.new ≡ with_popped (entries account.old) result }
    {
        let spell = Backoff::new();
        let mut turns = 0;
        for _ in rt.forever() {
            if let Some(item) = self.pop(rt, account) {
                return item;
            }
            if turns < SPELL {
                turns += 1;
                spell.snooze();
            } else if let Some(item) = self.pop_or_block(rt, account) {
                return item;
            }
        }
        unreachable!()
    }

    /// Returns the item at the front, if there is one, and else blocks until an item is pushed.
    ///
    /// The contract is that of `pop`.
    fn pop_or_block<R: Wait>(&self, rt: &R, account: &mut Account<T>) -> Option<T>
        requires account { IsAccountOf self.now account.old }
        requires shares { 0 < (entries account.old).shares }
        ensures account { IsAccountOf self.now account.new }
        ensures entries { MatchOption result (entries account.new ≡ entries account.old)
            (λ item. entries account.new ≡ with_popped (entries account.old) item) }
    {
        let announced = self.arrivals.prepare_wait();
        match self.pop(rt, account) {
            Some(item) => {
                drop(announced);
                Some(item)
            }
            None => {
                announced.wait(rt);
                None
            }
        }
    }

    /// Shows to the account that has all shares what is left in the queue: what was pushed and not popped.
    pub fn balance(&self, account: &mut Account<T>)
        requires account { IsAccountOf self.now account.old }
        requires shares { (entries account.old).shares ≡ all_shares }
        ensures account { IsAccountOf self.now account.new }
        ensures entries { entries account.new ≡ entries account.old }
        ensures left { (items : List T) × IsLeft (entries account.old) items }
    {
        self.ruled.learn_as::<Balancing>(&mut account.pass);
    }
}
