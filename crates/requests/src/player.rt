//! How the lines behind the head of a script are carried out: beside which threads, and with which mesher.
//!
//! Leaves are meshed at each output, by this thread and helpers that stand ready for it (`Pool`). With workers, these
//! mesh in threads of their own beside the lines too (`play_beside_workers`). Behind the lines the helpers are told to
//! stop and the desk is closed, however they end, so that all threads end too, and then the tally of the workers' work
//! is made. The lines are carried out on this thread, and watchers look beside them (`play_beside_watchers`).

ghost use Rattle.std.specs.Prelude.{◌≡◌, ◌<◌, true, IfSome, Some, vec_len};
ghost use Rattle.std.specs.Option.{IsSomeAnd};
ghost use Rattle.lattice.specs.Settings.{IsSettings};
ghost use Rattle.std.specs.Io.KnownBytes.{IsAtEnd};
ghost use Rattle.standing_workers.specs.Desks.{IsDeskOf, IsOpen};
ghost use Rattle.script_play.specs.Engine.{IsFreshEngine};
ghost use Rattle.script_play.specs.Input.{CountsFit};
ghost use Rattle.script_play.specs.Play.{PlaysLines, output_alone};
ghost use Rattle.script_play.specs.Statuses.{status_from};
ghost use Rattle.requests.specs.Texts.{text_of};
ghost use Rattle.arguments.specs.Options.{IsAllowed};

use crate::closing::write_watch_line;
use crate::sharing::Sharing;
use arguments::Options;
use cells::Cases;
use gates::MeshGate;
use lattice::Settings;
use mesh_jobs::Mesher;
use mesh_pool::{Pool, Post, close_posts, help_beside, helpers_for, open_posts};
use published_frames::Viewer;
use script_play::{Engine, Input, Status, play_by_engine};
use standing_workers::{Crew, CrewMesher, Desk, Lanes, work_beside};
use std::alloc::Global;
use std::marker::Brand;
use std::mem::replace;
use std::sync::Wait;
use std::thread::Threads;
use terra_io::{Sink, Source};
use watchers::watch_beside;

/// What carries out the lines behind the head of a script.
#[derive(Drop)]
pub struct Player<'a, R, G> {
    pub rt: &'a R,
    pub alloc: Global,
    /// It is told of each leaf that a worker meshes, and of each look of a watcher.
    pub gate: &'a G,
    pub cases: &'a Cases,
    pub options: Options,
    pub settings: Settings,
}

impl<R: Threads + Wait + Sync, G: MeshGate> Player<'_, R, G> {
    /// Carries out the commands that are left of an input, beside the workers and the watchers that the options ask
    /// for, and then writes the line of the watchers.
    pub fn play<S: Source, K: Sink>(
        &self,
        input: &mut Input,
        source: &mut S,
        sink: &mut K,
    ) -> Result<(), Status>
        requires options { IsAllowed self.now.options }
        requires allowed { IsSettings self.now.settings }
        requires counts { CountsFit input.old }
        requires number { 0 < input.old.number }
        requires end { input.old.is_ended ≡ true → IsAtEnd (S.state source.old).bytes }
        ensures { PlaysLines self.now.settings input.old (text_of self.now.options)
            (S.state source.old) (S.state source.new) (K.state sink.old) (K.state sink.new)
            (status_from result) }
    {
        let helpers = helpers_for(self.rt, self.settings.depth);
        let (posts, seats) = open_posts(self.alloc, helpers)?;
        let player = self;
        let mut place = posts;
        let mut lines = || -> Result<(), Status>
            requires options { IsAllowed player.now.options }
            requires allowed { IsSettings player.now.settings }
            requires counts { CountsFit input.now }
            requires number { 0 < input.now.number }
            requires end { input.now.is_ended ≡ true → IsAtEnd (S.state source.now).bytes }
            ensures { PlaysLines player.entry.now.settings input.entry.now
                (text_of player.entry.now.options) (S.state source.entry.now)
                (S.state source.exit.now) (K.state sink.entry.now) (K.state sink.exit.now)
                (status_from result) }
        {
            player.play_and_close_posts(
                replace(&mut place, Vec::new(player.alloc)),
                input,
                source,
                sink,
            )
        };
        help_beside(self.rt, self.alloc, self.cases, seats, &mut lines)
    }

    /// Does what `play` does, with the helpers of these posts, and tells these to stop, however the lines end.
    fn play_and_close_posts<S: Source, K: Sink>(
        &self,
        posts: Vec<Post>,
        input: &mut Input,
        source: &mut S,
        sink: &mut K,
    ) -> Result<(), Status>
        requires options { IsAllowed self.now.options }
        requires allowed { IsSettings self.now.settings }
        requires counts { CountsFit input.old }
        requires number { 0 < input.old.number }
        requires end { input.old.is_ended ≡ true → IsAtEnd (S.state source.old).bytes }
        ensures { PlaysLines self.now.settings input.old (text_of self.now.options)
            (S.state source.old) (S.state source.new) (K.state sink.old) (K.state sink.new)
            (status_from result) }
    {
        let mut posts = posts;
        let played = self.play_with_posts(&mut posts, input, source, sink);
        close_posts(self.rt, posts);
        played
    }

    /// Does what `play` does, with the helpers of these posts.
    fn play_with_posts<S: Source, K: Sink>(
        &self,
        posts: &mut Vec<Post>,
        input: &mut Input,
        source: &mut S,
        sink: &mut K,
    ) -> Result<(), Status>
        requires options { IsAllowed self.now.options }
        requires allowed { IsSettings self.now.settings }
        requires counts { CountsFit input.old }
        requires number { 0 < input.old.number }
        requires end { input.old.is_ended ≡ true → IsAtEnd (S.state source.old).bytes }
        ensures { PlaysLines self.now.settings input.old (text_of self.now.options)
            (S.state source.old) (S.state source.new) (K.state sink.old) (K.state sink.new)
            (status_from result) }
    {
        if self.options.workers == 0 {
            let pool = Pool::new(self.rt, self.cases, posts);
            self.play_watched(pool, input, source, sink)
        } else {
            self.play_beside_workers(posts, input, source, sink)
        }
    }

    /// Does what `play` does, with standing workers in threads of their own, and makes the tally of their work.
    ///
    /// Where memory runs out as the workers end, there is no tally. The output is the same.
    fn play_beside_workers<S: Source, K: Sink>(
        &self,
        posts: &mut Vec<Post>,
        input: &mut Input,
        source: &mut S,
        sink: &mut K,
    ) -> Result<(), Status>
        requires options { IsAllowed self.now.options }
        requires allowed { IsSettings self.now.settings }
        requires counts { CountsFit input.old }
        requires number { 0 < input.old.number }
        requires end { input.old.is_ended ≡ true → IsAtEnd (S.state source.old).bytes }
        ensures { PlaysLines self.now.settings input.old (text_of self.now.options)
            (S.state source.old) (S.state source.new) (K.state sink.old) (K.state sink.new)
            (status_from result) }
    {
        let (queues, desk, seats) = Lanes::new(self.alloc, self.options.workers)?;
        let lanes = &queues;
        let player = self;
        let mut place = Some(desk);
        let mut lines = || -> (Result<(), Status>, Desk)
            requires options { IsAllowed player.now.options }
            requires allowed { IsSettings player.now.settings }
            requires desk { IsSomeAnd place (λ desk. IsDeskOf lanes.now desk × IsOpen desk) }
            requires counts { CountsFit input.now }
            requires number { 0 < input.now.number }
            requires end { input.now.is_ended ≡ true → IsAtEnd (S.state source.now).bytes }
            ensures lines { PlaysLines player.entry.now.settings input.entry.now
                (text_of player.entry.now.options) (S.state source.entry.now)
                (S.state source.exit.now) (K.state sink.entry.now) (K.state sink.exit.now)
                (status_from result.0) }
            ensures desk { IsDeskOf lanes.entry.now result.1 }
            ensures seats { IfSome place.entry (λ desk. result.1.seats ≡ desk.seats) }
        { player.play_and_close(lanes, place.take().unwrap(), posts, input, source, sink) };
        let (ends, (played, desk)) = work_beside(
            self.rt, self.alloc, self.cases, lanes, seats, self.gate, &mut lines,
        );
        if let Ok(ends) = ends {
            let _ = desk.tally(ends, queues);
        }
        played
    }

    /// Does what `play` does, with the workers at these queues, and closes the desk, which it returns.
    fn play_and_close<S: Source, K: Sink>(
        &self,
        lanes: &Lanes,
        desk: Desk,
        posts: &mut Vec<Post>,
        input: &mut Input,
        source: &mut S,
        sink: &mut K,
    ) -> (Result<(), Status>, Desk)
        requires options { IsAllowed self.now.options }
        requires allowed { IsSettings self.now.settings }
        requires desk { IsDeskOf lanes.now desk }
        requires is_open { IsOpen desk }
        requires counts { CountsFit input.old }
        requires number { 0 < input.old.number }
        requires end { input.old.is_ended ≡ true → IsAtEnd (S.state source.old).bytes }
        ensures lines { PlaysLines self.now.settings input.old (text_of self.now.options)
            (S.state source.old) (S.state source.new) (K.state sink.old) (K.state sink.new)
            (status_from result.0) }
        ensures desk { IsDeskOf lanes.now result.1 }
        ensures seats { result.1.seats ≡ desk.seats }
    {
        self.play_with_crew::<Brand, S, K>(lanes, desk, posts, input, source, sink)
    }

    /// Does what `play_and_close` does, with the crew of this name.
    fn play_with_crew<C: Crew, S: Source, K: Sink>(
        &self,
        lanes: &Lanes,
        desk: Desk,
        posts: &mut Vec<Post>,
        input: &mut Input,
        source: &mut S,
        sink: &mut K,
    ) -> (Result<(), Status>, Desk)
        requires options { IsAllowed self.now.options }
        requires allowed { IsSettings self.now.settings }
        requires lanes { C.lanes ≡ Some lanes.now }
        requires seats { C.seats ≡ desk.seats }
        requires desk { IsDeskOf lanes.now desk }
        requires is_open { IsOpen desk }
        requires counts { CountsFit input.old }
        requires number { 0 < input.old.number }
        requires end { input.old.is_ended ≡ true → IsAtEnd (S.state source.old).bytes }
        ensures lines { PlaysLines self.now.settings input.old (text_of self.now.options)
            (S.state source.old) (S.state source.new) (K.state sink.old) (K.state sink.new)
            (status_from result.0) }
        ensures desk { IsDeskOf lanes.now result.1 }
        ensures seats { result.1.seats ≡ desk.seats }
    {
        let mut crew: CrewMesher<'_, R, C> = CrewMesher::new(self.rt, lanes, self.cases, desk);
        let pool = Pool::new(self.rt, self.cases, posts);
        let played = self.play_watched(Sharing::new(&mut crew, pool), input, source, sink);
        (played, crew.close())
    }

    /// Carries out the commands that are left of an input by this mesher, beside the watchers that the options ask for,
    /// and then writes the line of these.
    fn play_watched<M: Mesher + Drop, S: Source, K: Sink>(
        &self,
        mesher: M,
        input: &mut Input,
        source: &mut S,
        sink: &mut K,
    ) -> Result<(), Status>
        requires options { IsAllowed self.now.options }
        requires allowed { IsSettings self.now.settings }
        requires counts { CountsFit input.old }
        requires number { 0 < input.old.number }
        requires end { input.old.is_ended ≡ true → IsAtEnd (S.state source.old).bytes }
        ensures { PlaysLines self.now.settings input.old (text_of self.now.options)
            (S.state source.old) (S.state source.new) (K.state sink.old) (K.state sink.new)
            (status_from result) }
    {
        play_beside_watchers(
            self.rt,
            self.alloc,
            self.gate,
            self.cases,
            self.options,
            &self.settings,
            mesher,
            input,
            source,
            sink,
        )
    }
}

/// Carries out the commands that are left of an input by a mesher, beside the watchers that the options ask for, and
/// then writes the line of these.
fn play_beside_watchers<
    M: Mesher + Drop,
    S: Source,
    K: Sink,
    G: MeshGate,
    R: Threads + Wait + Sync,
>(
    rt: &R,
    alloc: Global,
    gate: &G,
    cases: &Cases,
    options: Options,
    settings: &Settings,
    mesher: M,
    input: &mut Input,
    source: &mut S,
    sink: &mut K,
) -> Result<(), Status>
    requires options { IsAllowed options }
    requires allowed { IsSettings settings.now }
    requires counts { CountsFit input.old }
    requires number { 0 < input.old.number }
    requires end { input.old.is_ended ≡ true → IsAtEnd (S.state source.old).bytes }
    ensures { PlaysLines settings.now input.old (text_of options) (S.state source.old)
        (S.state source.new) (K.state sink.old) (K.state sink.new) (status_from result) }
{
    let (mut engine, viewers) = Engine::new(rt, alloc, cases, settings, mesher, options.watchers)?;
    let played = watch_engine(
        rt,
        alloc,
        gate,
        options,
        settings,
        viewers,
        &mut engine,
        input,
        source,
        sink,
    );
    engine.close(rt);
    played
}

/// Carries out the commands that are left of an input by an engine before any event, beside these viewers, which watch,
/// and then writes the line of these.
fn watch_engine<M: Mesher + Drop, S: Source, K: Sink, G: MeshGate, R: Threads + Wait + Sync>(
    rt: &R,
    alloc: Global,
    gate: &G,
    options: Options,
    settings: &Settings,
    viewers: Vec<Viewer>,
    engine: &mut Engine<M>,
    input: &mut Input,
    source: &mut S,
    sink: &mut K,
) -> Result<(), Status>
    requires options { IsAllowed options }
    requires allowed { IsSettings settings.now }
    requires viewers { vec_len viewers ≡ options.watchers }
    requires fresh { IsFreshEngine settings.now engine.old }
    requires counts { CountsFit input.old }
    requires number { 0 < input.old.number }
    requires end { input.old.is_ended ≡ true → IsAtEnd (S.state source.old).bytes }
    ensures { PlaysLines settings.now input.old (text_of options) (S.state source.old)
        (S.state source.new) (K.state sink.old) (K.state sink.new) (status_from result) }
{
    let mut work = || -> Result<(), Status>
        requires allowed { IsSettings settings.now }
        requires fresh { IsFreshEngine settings.now engine.now }
        requires counts { CountsFit input.now }
        requires number { 0 < input.now.number }
        requires end { input.now.is_ended ≡ true → IsAtEnd (S.state source.now).bytes }
        ensures { PlaysLines settings.entry.now input.entry.now output_alone
            (S.state source.entry.now) (S.state source.exit.now) (K.state sink.entry.now)
            (K.state sink.exit.now) (status_from result) }
    { play_by_engine(rt, alloc, settings, engine, input, source, sink) };
    let (told, played) = watch_beside(rt, alloc, viewers, options.looks, gate, &mut work);
    match Status::of(played) {
        Status::Done => Ok(write_watch_line(alloc, options, told, engine.shown(), sink, gate)?),
        status => Err(status),
    }
}
