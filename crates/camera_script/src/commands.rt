//! Commands: what a line of a script asks for.

use terrain::Event;

/// What a line of a script asks for: an event, or output.
#[derive(Clone, Copy, Debug, PartialEq, Eq)]
pub enum Command {
    Event(Event),
    /// The mesh of the world as it is, as Wavefront OBJ, and the normals of its vertices if they are asked for.
    Shot { normals: bool },
    /// How many leaves, triangles and keys that mesh has.
    Stats,
    /// How high that mesh is over a place, which is in units of 1/256 fine cell.
    Pick { x: u32, y: u32 },
}
