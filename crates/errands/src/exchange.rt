//! Exchanges, at which one thread asks another one.
//!
//! What is asked lies at the exchange until the doer takes it, and what came of it until the asker collects it. One
//! rule ties the two: what lies there is what the asker asked last, or answers it. So whoever asks knows of the reply
//! what the errand promises, though any time may have passed. An asker that comes first takes back what it asked, and
//! nobody does it then.
//!
//! Beside that, two bells count what was asked and what was replied. Who waits tries for a short spell whether the bell
//! of the other end was rung again, and then blocks. It announces the wait before it looks for the last time, and the
//! count changes before waiters are woken; all these steps have one order, so no wake-up is lost. Nothing is proved of
//! the bells: a doer that takes its own reply by mistake puts it back.

ghost use Rattle.std.specs.Prelude.{◌≡◌, IfOk, IfSome, None, Option, Some};
ghost use Rattle.errands.specs.Ends.{HasAsked, IsAskerOf, IsDoing};
ghost use Rattle.errands.specs.declared.message.Message.TheVariants.{Reply};

use crate::ends::{Asker, Doer};
use crate::errand::Errand;
use crate::message::Message;
use crate::rule::{Asking, Beginning, Collecting, Opening, Replying, Turns};
use crate::side::Side;
use crossbeam_queue::RuledArrayQueue;
use crossbeam_utils::sync::EventCount;
use std::alloc::{AllocError, Global};
use std::hint::spin_loop;
use std::sync::Wait;
use std::sync::atomic::{AtomicU64, Ordering};
use std::thread;

/// How often one who waits looks again before it blocks.
const SPELL: u32 = 2048;

/// A number that one thread raises, and another one waits for.
#[derive(Drop)]
struct Bell {
    rung: AtomicU64,
    waiting: EventCount,
}

impl Bell {
    /// Returns a bell that was never rung.
    fn new() -> Bell {
        Bell {
            rung: AtomicU64::new(0),
            waiting: EventCount::new(),
        }
    }

    /// Returns how often it was rung.
    fn rung(&self) -> u64 {
        self.rung.load(Ordering::SeqCst)
    }

    /// Rings it, and wakes one who waits.
    fn ring(&self) {
        self.rung.fetch_add(1, Ordering::SeqCst);
        self.waiting.notify_one();
    }

    /// Waits until it was rung another number of times than this, and returns that number.
    fn wait<R: Wait>(&self, rt: &R, seen: u64) -> u64 {
        for _ in 0..SPELL {
            let rung = self.rung();
            if rung != seen {
                return rung;
            }
            spin_loop();
        }
        for _ in rt.forever() {
            let announced = self.waiting.prepare_wait();
            let rung = self.rung();
            if rung != seen {
                drop(announced);
                return rung;
            }
            announced.wait(rt);
        }
        unreachable!()
    }
}

/// The place at which one thread asks another one, by an errand that says what answers what.
#[derive(Drop)]
pub struct Exchange<Q, A, E: Errand<Q, A>> {
    ruled: RuledArrayQueue<Message<Q, A>, Side<Q>, Turns<E>>,
    asked: Bell,
    replied: Bell,
}

impl<Q: Drop, A, E: Errand<Q, A>> Exchange<Q, A, E> {
    /// Returns an exchange and its two ends. Nothing is asked, and nothing is being done. Out of memory is the only
    /// error.
    pub fn new(alloc: Global) -> Result<(Exchange<Q, A, E>, Asker<Q, A>, Doer<Q, A>), AllocError>
        ensures asker { IfOk result (λ made. HasAsked made.0 None made.1) }
        ensures doer { IfOk result (λ made. IsDoing made.0 None made.2) }
    {
        let (ruled, mut pass) = RuledArrayQueue::ruled(alloc, 1)?;
        let other = ruled.another::<Opening>(&mut pass);
        let exchange = Exchange {
            ruled,
            asked: Bell::new(),
            replied: Bell::new(),
        };
        Ok((
            exchange,
            Asker { pass },
            Doer {
                pass: other,
                seen: 0,
            },
        ))
    }

    /// Asks the doer, and wakes it.
    pub fn ask<R: Wait>(&self, rt: &R, asker: &mut Asker<Q, A>, ask: Q)
        requires { HasAsked self.now None asker.old }
        ensures { HasAsked self.now (Some ask) asker.new }
    {
        let mut left = Message::Ask(ask);
        for _ in rt.forever() {
            match self.ruled.push_as::<Asking, R>(rt, &mut asker.pass, left) {
                Ok(()) => {
                    self.asked.ring();
                    return;
                }
                Err(message) => left = message,
            }
            thread::yield_now();
        }
        unreachable!()
    }

    /// Tells the doer that nothing will be asked any more, and wakes it.
    pub fn close<R: Wait>(&self, rt: &R, asker: Asker<Q, A>)
        requires { HasAsked self.now None asker }
    {
        let mut asker = asker;
        let mut left = Message::Stop;
        for _ in rt.forever() {
            match self.ruled.push_as::<Asking, R>(rt, &mut asker.pass, left) {
                Ok(()) => {
                    self.asked.ring();
                    return;
                }
                Err(message) => left = message,
            }
            thread::yield_now();
        }
        unreachable!()
    }

    /// Returns what answers what was asked, for which it waits where the doer has begun. Where it hasn't, what was
    /// asked is taken back, and there is no answer.
    pub fn collect<R: Wait>(&self, rt: &R, asker: &mut Asker<Q, A>) -> Option<A>
        requires { IsAskerOf self.now asker.old }
        ensures asker { HasAsked self.now None asker.new }
        ensures answers { IfSome result (λ reply. (asked : Q)
            → HasAsked self.now (Some asked) asker.old → E.answers asked reply) }
    {
        let mut seen = self.replied.rung();
        for _ in rt.forever() {
            if let Some(message) = self.ruled.pop_as::<Collecting<E>, R>(rt, &mut asker.pass) {
                return reply_in(message);
            }
            seen = self.replied.wait(rt, seen);
        }
        unreachable!()
    }

    /// Waits until something is asked, and returns it: it is being done from then on. There is nothing where nothing
    /// will be asked any more.
    pub fn next<R: Wait>(&self, rt: &R, doer: &mut Doer<Q, A>) -> Option<Q>
        requires { IsDoing self.now None doer.old }
        ensures { IfSome result (λ asked. IsDoing self.now (Some asked) doer.new) }
    {
        for _ in rt.forever() {
            doer.seen = self.asked.wait(rt, doer.seen);
            match self.ruled.pop_as::<Beginning<E>, R>(rt, &mut doer.pass) {
                Some(Message::Ask(asked)) => return Some(asked),
                Some(Message::Reply(reply)) => self.reply(rt, doer, reply),
                Some(Message::Stop) => return None,
                None => {}
            }
        }
        unreachable!()
    }

    /// Leaves what answers what is being done, and wakes the asker.
    pub fn reply<R: Wait>(&self, rt: &R, doer: &mut Doer<Q, A>, reply: A)
        requires { (asked : Q) × IsDoing self.now (Some asked) doer.old × E.answers asked reply }
        ensures { IsDoing self.now None doer.new }
    {
        let mut left = Message::Reply(reply);
        for _ in rt.forever() {
            match self.ruled.push_as::<Replying, R>(rt, &mut doer.pass, left) {
                Ok(()) => {
                    self.replied.ring();
                    return;
                }
                Err(message) => left = message,
            }
            thread::yield_now();
        }
        unreachable!()
    }
}

/// Returns the reply, if the message is one.
fn reply_in<Q: Drop, A>(message: Message<Q, A>) -> Option<A>
    ensures { IfSome result (λ reply. message ≡ Reply reply) }
{
    match message {
        Message::Reply(reply) => Some(reply),
        Message::Ask(_asked) => None,
        Message::Stop => None,
    }
}
