//! The lines of a script, cut as its bytes are read.
//!
//! `Input` hands out one line at a time, when it is asked (`advance`). It reads a piece only where the next line isn't
//! whole in what it has, so a line is carried out before any byte is read that only later lines need, and a run may
//! talk with the program that writes its script. It has a fixed room for a piece and, in its cutter, for a line, and
//! takes no memory. `cut` takes bytes out of the piece, `read` fills it, and `finish` ends the input.
//!
//! At most `INPUT_LIMIT` bytes are read. An input of exactly so many is too long, since its end wasn't seen when the
//! limit was met: one byte more would have to be read to tell.

ghost use Rattle.std.specs.Prelude.{◌≡◌, ◌<◌, ◌≤◌, ◌+◌, ◌-◌, [], List, ℕ, true, false, take, drop, IfOk, OnErr, OnOk};
ghost use Rattle.std.specs.Io.KnownBytes.{IsAtEnd};
ghost use Rattle.terra_io.specs.Stream.{Yields, IsFaultless, Fails};
ghost use Rattle.camera_script.specs.Lines.{Cuts, is_long, unfinished, without_return};

use crate::refusal::{INPUT_LIMIT, PIECE, ReadRefusal};
use camera_script::{Cut, LineCutter, is_blank};
use std::marker::Model;
use terra_io::{Failed, Source};

/// The lines of a script, which are cut one after another; no more bytes are read than they need.
///
/// It takes no memory.
#[derive(Debug, Drop)]
pub struct Input {
    cutter: LineCutter,
    piece: [u8; PIECE],
    /// The bytes of the piece from here to `end` aren't cut yet.
    start: usize,
    end: usize,
    /// How many bytes were read.
    count: usize,
    /// How many lines were cut.
    number: u32,
    /// Whether the end was seen, and no line is left.
    is_ended: bool,
}

impl Model for Input {
    ghost use Rattle.std.specs.Prelude.{◌-◌, drop, take};
    ghost use Rattle.script_play.specs.Input.{InputFits, InputState};

    ghost Value = { InputState };

    ghost view = { λ input. record {
      held = input.cutter;
      left = take (input.end - input.start) (drop input.start input.piece);
      count = input.count;
      number = input.number;
      is_ended = input.is_ended;
    } };

    ghost invariant = { λ input.
        InputFits input.start input.end input.count input.number input.is_ended };
}

impl Input {
    ghost use Rattle.script_play.specs.Input.{AdvancesTo, CountsFit, CutsOne, CutsPiece};
    ghost use Rattle.script_play.specs.Input.{FinishesInput, ReadsPiece, TakesFor, fresh_input};

    /// Returns the input before any byte is read.
    pub fn new() -> Input
        ensures { result ≡ fresh_input }
    {
        Input {
            cutter: LineCutter::new(),
            piece: [0; PIECE],
            start: 0,
            end: 0,
            count: 0,
            number: 0,
            is_ended: false,
        }
    }

    /// Returns the number of the line that was cut last, from 1; 0 before the first line.
    pub fn number(&self) -> u32
        ensures { result ≡ self.now.number }
    {
        self.number
    }

    /// Returns the line that was cut last, without its line feed and one carriage return.
    pub fn line(&self) -> &[u8]
        requires { self.now.held.is_whole ≡ true }
        ensures { result.now ≡ without_return self.now.held.line }
    {
        self.cutter.line()
    }

    /// Returns whether all bytes that were read are in lines that were cut, or in the one that will be cut next: to go
    /// on it has to read.
    pub fn is_spent(&self) -> bool
        ensures { result ≡ true → self.now.left ≡ [] }
    {
        self.start == self.end
    }

    /// Goes on to the next line that isn't blank, and returns whether there is one.
    ///
    /// It is an error where a read fails, where `INPUT_LIMIT` bytes were read and have no further line, and where a
    /// line is too long.
    pub fn advance<S: Source>(&mut self, source: &mut S) -> Result<bool, ReadRefusal>
        ensures goes_on { (more : List ℕ)
            × TakesFor self.old self.new (S.state source.old) (S.state source.new) more
            × AdvancesTo self.old self.new more (S.state source.old) (S.state source.new) result }
        ensures counts { CountsFit self.new }
    {
        while self.next_line(source)? {
            if !is_blank(self.line()) {
                return Ok(true);
            }
        }
        Ok(false)
    }

    /// Cuts the next line, and returns whether there is one.
    fn next_line<S: Source>(&mut self, source: &mut S) -> Result<bool, ReadRefusal>
        ensures cuts { (more : List ℕ)
            × TakesFor self.old self.new (S.state source.old) (S.state source.new) more
            × CutsOne self.old self.new more (S.state source.old) (S.state source.new) result }
        ensures counts { CountsFit self.new }
    {
        while !self.is_ended {
            match self.cut() {
                Cut::Line => return Ok(true),
                Cut::Long => {
                    return Err(ReadRefusal::TooLong {
                        line: self.number + 1,
                    });
                }
                Cut::More => {}
            }
            if !self.read(source)? {
                return Ok(self.finish());
            }
        }
        Ok(false)
    }

    /// Cuts the next line from the bytes that were read; `More` where it isn't whole in them.
    fn cut(&mut self) -> Cut
        requires { self.old.is_ended ≡ false }
        ensures { CutsPiece self.old self.new result }
    {
        let (count, cut) = eat_part(&mut self.cutter, &self.piece, self.start, self.end);
        self.start += count;
        match cut {
            Cut::More => Cut::More,
            Cut::Line => {
                self.number += 1;
                Cut::Line
            }
            Cut::Long => Cut::Long,
        }
    }

    /// Reads the next bytes, where all others are cut, and returns whether there were any: there are none at the end of
    /// the input alone.
    fn read<S: Source>(&mut self, source: &mut S) -> Result<bool, ReadRefusal>
        requires open_end { self.old.is_ended ≡ false }
        requires left { self.old.left ≡ [] }
        ensures read { (more : List ℕ)
            × ReadsPiece self.old self.new more (S.state source.old) (S.state source.new) result }
        ensures within { self.new.count ≤ INPUT_LIMIT }
    {
        if self.count == INPUT_LIMIT {
            return Err(ReadRefusal::InputLimit);
        }
        let mut piece = [0; PIECE];
        let room = PIECE.min(INPUT_LIMIT - self.count);
        let count = read_piece(source, &mut piece, room)?;
        self.piece = piece;
        self.start = 0;
        self.end = count;
        self.count += count;
        Ok(count > 0)
    }

    /// Ends the input, and returns whether there is a last line without a line feed.
    fn finish(&mut self) -> bool
        requires open_end { self.old.is_ended ≡ false }
        requires left { self.old.left ≡ [] }
        requires short { is_long (unfinished self.old.held) ≡ false }
        requires below { self.old.count < INPUT_LIMIT }
        ensures { FinishesInput self.old self.new result }
    {
        self.is_ended = true;
        match self.cutter.finish() {
            Cut::Line => {
                self.number += 1;
                true
            }
            Cut::More | Cut::Long => false,
        }
    }
}

/// Has a cutter eat the bytes of a piece between two places.
fn eat_part(cutter: &mut LineCutter, piece: &[u8; PIECE], start: usize, end: usize) -> (usize, Cut)
    requires ordered { start ≤ end }
    requires inside { end ≤ PIECE }
    ensures taken { result.0 ≤ end - start }
    ensures cut { Cuts cutter.old (take (end - start) (drop start piece.now)) result.0 cutter.new
        result.1 }
{
    cutter.eat(&piece[start..end])
}

/// Reads the next bytes into the front of a piece, at most as many as there is room for, and returns how many; 0 is the
/// end of the input.
fn read_piece<S: Source>(
    source: &mut S,
    piece: &mut [u8; PIECE],
    room: usize,
) -> Result<usize, Failed>
    requires some { 0 < room }
    requires inside { room ≤ PIECE }
    ensures within { IfOk result (λ count. count ≤ room) }
    ensures taken { IfOk result (λ count.
        Yields (S.state source.old) (S.state source.new) (take count piece.new)) }
    ensures faultless { OnOk result (IsFaultless (S.state source.old) (S.state source.new)) }
    ensures end { IfOk result (λ count. count ≡ 0 → IsAtEnd (S.state source.new).bytes) }
    ensures failed { OnErr result (Fails (S.state source.old) (S.state source.new)) }
{
    source.read(&mut piece[..room])
}
