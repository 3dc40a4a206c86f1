//! Pieces of bytes, cut into fields.

ghost use Rattle.std.specs.Prelude.{◌≡◌, ◌+◌, ◌<◌, ◌≤◌, ◌^◌, ◌++◌, length};
ghost use Rattle.replicas.specs.Drafts.{draft_of};
ghost use Rattle.replicas.specs.Readers.{reader_of};
ghost use Rattle.replicas.specs.Replicas.{IsReading, ReadsField, TakesAll, TakesSome, field_size, new_replica};

use crate::draft::Draft;
use crate::fault::WireFault;
use crate::feeding::read_field;
use crate::held::Held;
use arrayvec::ArrayVec;
use std::alloc::Global;

/// How many bytes the head has.
const HEAD: usize = 10;

/// The room for a field that hasn't come whole: no field has more bytes.
const ROOM: usize = 20;

/// What reads a wire that comes in pieces, until a field is refused.
#[derive(Drop)]
pub(crate) struct Reader {
    /// What was read and took effect, once the head is whole.
    pub(crate) held: Option<Held>,
    /// The parts of the patch that isn't whole.
    pub(crate) draft: Draft,
    /// The bytes of the field that isn't whole.
    pub(crate) field: ArrayVec<u8, ROOM>,
    /// How many bytes were taken.
    pub(crate) taken: u64,
}

impl Reader {
    /// Returns the reader before the first byte. It takes no memory.
    pub(crate) fn new(alloc: Global) -> Reader
        ensures { reader_of result ≡ new_replica }
    {
        Reader {
            held: None,
            draft: Draft::new(alloc, 0),
            field: ArrayVec::new(),
            taken: 0,
        }
    }

    /// Takes a piece of the wire, and returns how many patches took effect. The error refuses a field, or is out of
    /// memory.
    pub(crate) fn feed(&mut self, alloc: Global, piece: &[u8]) -> Result<u32, WireFault>
        requires reading { IsReading (reader_of self.old) }
        requires small { length piece.now < 2 ^ 32 }
        requires room { self.old.taken + length piece.now ≤ 2 ^ 63 }
        ensures { TakesAll (reader_of self.old) piece.now (reader_of self.new) result }
    {
        let mut rest = piece;
        let mut patches = 0;
        while !rest.is_empty() {
            let (count, whole) = self.step(alloc, rest)?;
            rest = &rest[count..];
            patches += u32::from(whole);
        }
        Ok(patches)
    }

    /// Takes bytes up to the end of the next field, and reads it; or all of them, where it doesn't end there. Returns
    /// how many it took, and whether a patch took effect.
    #[inline(always)]
    fn step(&mut self, alloc: Global, rest: &[u8]) -> Result<(usize, bool), WireFault>
        requires reading { IsReading (reader_of self.old) }
        requires some { 0 < length rest.now }
        requires room { self.old.taken + length rest.now ≤ 2 ^ 63 }
        ensures { TakesSome (reader_of self.old) rest.now (reader_of self.new) result }
    {
        let wanted = self.size() - self.field.len();
        if rest.len() < wanted {
            self.taken += rest.len() as u64;
            let _fits = self.field.try_extend_from_slice(rest);
            return Ok((rest.len(), false));
        }
        self.taken += wanted as u64;
        let whole = self.read_whole(alloc, &rest[..wanted])?;
        self.field.clear();
        Ok((wanted, whole))
    }

    /// Returns how many bytes the next field has.
    #[inline(always)]
    fn size(&self) -> usize
        ensures value { result ≡ field_size self.now.held self.now.draft.stage }
        ensures most { result ≤ ROOM }
    {
        match self.held {
            None => HEAD,
            Some(_) => self.draft.stage.size(),
        }
    }

    /// Reads the next field, of which these are the last bytes.
    #[inline(always)]
    fn read_whole(&mut self, alloc: Global, last: &[u8]) -> Result<bool, WireFault>
        requires reading { IsReading (reader_of self.old) }
        requires size { length self.old.field.items + length last.now
            ≡ field_size self.old.held self.old.draft.stage }
        ensures reads { ReadsField self.old.held (draft_of self.old.draft)
            (self.old.field.items ++ last.now) self.new.held (draft_of self.new.draft) result }
        ensures taken { self.new.taken ≡ self.old.taken }
    {
        if self.field.is_empty() {
            return read_field(alloc, &mut self.held, &mut self.draft, last);
        }
        let _fits = self.field.try_extend_from_slice(last);
        read_field(alloc, &mut self.held, &mut self.draft, &self.field)
    }
}
