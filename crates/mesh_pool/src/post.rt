//! The two ends between an engine and one helper.

ghost use Rattle.std.specs.Prelude.{◌≡◌, false, IfSome, None, Some};
ghost use Rattle.std.specs.Arc.{arc_value};
ghost use Rattle.errands.specs.Ends.{HasAsked, IsAskerOf, IsDoing};
ghost use Rattle.mesh_jobs.specs.Round.{IsHaulOf, RoundState};

use crate::rounds::{RoundAsker, RoundDoer, RoundExchange};
use mesh_jobs::{Haul, Round};
use std::alloc::Global;
use std::sync::{Arc, Wait};

/// The engine's end: it asks a helper for its share of a round, and collects the haul.
#[derive(Drop)]
pub struct Post {
    pub(crate) exchange: Arc<RoundExchange>,
    pub(crate) asker: RoundAsker,
    /// Whether something was asked and isn't collected.
    pub(crate) is_asked: bool,
    ghost end: { IsAskerOf (arc_value exchange) asker },
    ghost idle: { is_asked ≡ false → HasAsked (arc_value exchange) None asker },
}

/// The helper's end.
#[derive(Drop)]
pub struct Seat {
    pub(crate) exchange: Arc<RoundExchange>,
    pub(crate) doer: RoundDoer,
    ghost idle: { IsDoing (arc_value exchange) None doer },
}

impl Post {
    /// Asks the helper for its share of a round. What was asked before and isn't collected is given up.
    pub(crate) fn ask<R: Wait>(&mut self, rt: &R, round: Arc<Round>)
        ensures asked { HasAsked (arc_value self.new.exchange) (Some round) self.new.asker }
    {
        let _ = self.collect(rt);
        self.exchange.ask(rt, &mut self.asker, round);
        self.is_asked = true;
    }

    /// Returns the haul of the round that was asked for, if the helper has begun with it; it waits for its end then.
    pub(crate) fn collect<R: Wait>(&mut self, rt: &R) -> Option<Haul>
        ensures asked { HasAsked (arc_value self.new.exchange) None self.new.asker }
        ensures haul { IfSome result (λ haul. (round : Arc RoundState Global)
            → HasAsked (arc_value self.old.exchange) (Some round) self.old.asker
            → IsHaulOf (arc_value round) haul) }
    {
        if !self.is_asked {
            return None;
        }
        let haul = self.exchange.collect(rt, &mut self.asker);
        self.is_asked = false;
        haul
    }

    /// Tells the helper that nothing will be asked any more.
    pub(crate) fn close<R: Wait>(self, rt: &R) {
        let mut post = self;
        let _ = post.collect(rt);
        let Post {
            exchange,
            asker,
            is_asked: _,
        } = post;
        exchange.close(rt, asker);
    }
}
