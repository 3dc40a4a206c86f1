//! The rule of publication: what holds of the published frame and of all that anybody has seen.
//!
//! `left_right` keeps a rule that its caller chooses, over what is published and what each side knows, and asks for a
//! proof that each step keeps it. Here a side knows the series and the frames of it that it has seen, as `Known` has
//! them. The types below name the steps: the first and each later publication, two kinds of entries, and that a
//! publisher passes on what it knows.

ghost use Rattle.std.specs.Prelude.{drop, take};
ghost use Rattle.published_frames.specs.Rule.{IsKept, SeesPublished, known_entered, known_first, known_next, known_passed, nothing_known};

use crate::known::Known;
use crate::shown::Shown;
use atomic_table::{Join, Split};
use crossbeam_utils::rule::{Outcome, Protocol};
use left_right::reader::{Reader, Reading};
use left_right::writer::Writer;
use snapshots::Frame;
use std::sync::Arc;

/// The published frame goes on from all that the publisher and the viewers have seen.
pub struct Publication;

impl Protocol<Shown, Known> for Publication {
    ghost holds = { IsKept };

    ghost first = { nothing_known };
}

/// The first publication, which gives the series its name.
pub(crate) struct Opening;

impl Outcome<Shown, Known> for Opening {
    ghost then = { SeesPublished known_first };
}

/// A later publication. The publisher has seen the frame that it publishes from then on.
pub(crate) struct Publishing;

impl Outcome<Shown, Known> for Publishing {
    ghost then = { SeesPublished known_next };
}

/// An entry by a viewer that has seen the frame which its reader entered last. It keeps that one in mind.
pub(crate) struct Entering;

impl Outcome<Shown, Known> for Entering {
    ghost then = { SeesPublished (known_entered (take 1)) };
}

/// An entry by a viewer that was refused the frame which its reader entered last. It keeps the one before in mind.
pub(crate) struct EnteringAgain;

impl Outcome<Shown, Known> for EnteringAgain {
    ghost then = { SeesPublished (known_entered (drop 1)) };
}

/// The publisher passes on to a viewer what it knows, which the viewer knows too from then on.
pub(crate) struct Passing;

impl Split<Known> for Passing {
    ghost left = { λ known. known };

    ghost right = { λ known. known };
}

impl Join<Known> for Passing {
    ghost both = { known_passed };

    ghost spent = { nothing_known };
}

pub(crate) type FrameWriter = Writer<Shown, Arc<Frame>, Known, Publication>;

pub(crate) type FrameReader = Reader<Shown, Known, Publication>;

pub(crate) type FrameReading = Reading<Shown, Known, Publication>;
