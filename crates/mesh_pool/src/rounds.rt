//! What an engine asks its helpers for.

ghost use Rattle.std.specs.Arc.{arc_value};
ghost use Rattle.mesh_jobs.specs.Round.{IsHaulOf};

use errands::{Asker, Doer, Errand, Exchange};
use mesh_jobs::{Haul, Round};
use std::sync::Arc;

/// To make blocks of a round's leaves: a haul of that round answers it.
pub(crate) struct Rounds;

impl Errand<Arc<Round>, Haul> for Rounds {
    ghost answers = { λ round haul. IsHaulOf (arc_value round) haul };
}

pub(crate) type RoundExchange = Exchange<Arc<Round>, Haul, Rounds>;

pub(crate) type RoundAsker = Asker<Arc<Round>, Haul>;

pub(crate) type RoundDoer = Doer<Arc<Round>, Haul>;
