//! The text of a shot, as Wavefront OBJ.
//!
//! `push_mesh` appends a leaf's group, its vertices and its triangles. Room for many lines is taken at once, and lines
//! are gathered in a fixed room before they are appended together (`lines`). The texts of the vertices' numbers are
//! kept for the triangles (`numerals`).

ghost use Rattle.std.specs.Prelude.{◌≡◌, ◌+◌, ◌*◌, ◌<◌, ◌≤◌, ◌^◌, ◌++◌, [], ◌∷◌, codes, decimal, flat_map, replicate, OnOk, length};
ghost use Rattle.terrain.specs.MeshLists.{lists_of};
ghost use Rattle.mesh_out.specs.Numerals.{AreNumerals};
ghost use Rattle.mesh_out.specs.Text.{face_line, group_line, lists_text, shot_head, vertex_line};
ghost use Rattle.digits.specs.Lines.{Puts};

use crate::lines::{LINE_ROOM, LINES_ROOM, room_for_line};
use crate::numerals::{Numeral, numerals_of, put_number};
use block_mesh::BlockView;
use digits::{push_number, put, put_coordinate};
use lattice::{Node, Pos};
use std::alloc::AllocError;

/// How many bytes the line of a vertex mostly has; room for so many a vertex is taken at once.
const VERTEX_LINE_ROOM: usize = 48;

/// The room that is taken for the text of a shot at its head: a text mostly fits it until its part so far is written,
/// and needn't be moved.
const SHOT_ROOM: usize = 1 << 19;

/// A mesh is written behind at most so many vertices: with its own, fewer than 2^32, they are counted in 64 bits.
pub const MAX_MESH_BASE: u64 = 1 << 63;

/// Writes the head of a shot: its number, from 1, and how many events its mesh holds. Room for more is taken.
///
/// It is an error where memory runs out.
pub fn push_shot_head(out: &mut Vec<u8>, number: u32, events: u64) -> Result<(), AllocError>
    ensures { OnOk result (out.new.items ≡ out.old.items ++ shot_head number events) }
{
    out.reserve(SHOT_ROOM)?;
    out.extend_from_slice(b"o shot_")?;
    push_number(out, u64::from(number))?;
    out.extend_from_slice(b"\n# events ")?;
    push_number(out, events)?;
    out.extend_from_slice(b"\n")
}

/// Writes the mesh of a leaf: its group, its vertices and its triangles, or nothing where it has no triangle.
///
/// `base` counts the vertices that were written before it. After an error `out` may have a part of the text.
pub(crate) fn push_mesh(
    out: &mut Vec<u8>,
    base: u64,
    leaf: Node,
    block: BlockView<'_>,
) -> Result<(), AllocError>
    requires base_fits { base ≤ MAX_MESH_BASE }
    requires keys_fit { length block.keys.now < 2 ^ 32 }
    ensures { OnOk result (out.new.items
        ≡ out.old.items ++ lists_text base leaf (lists_of block.entry)) }
{
    if block.triangles.is_empty() {
        return Ok(());
    }
    out.reserve(block.keys.len() * VERTEX_LINE_ROOM)?;
    push_group(out, leaf)?;
    push_vertices(out, block.positions)?;
    let numerals = numerals_of(*out.allocator(), base, block.keys.len())?;
    push_faces(out, base, &numerals, block.triangles)
}

/// Writes the beginning of a leaf's group: its level, then i, j and k. Out of memory is the only error.
pub fn push_group(out: &mut Vec<u8>, leaf: Node) -> Result<(), AllocError>
    ensures { OnOk result (out.new.items ≡ out.old.items ++ group_line leaf) }
{
    out.extend_from_slice(b"g b")?;
    push_number(out, u64::from(leaf.level))?;
    out.extend_from_slice(b"_")?;
    push_number(out, u64::from(leaf.i))?;
    out.extend_from_slice(b"_")?;
    push_number(out, u64::from(leaf.j))?;
    out.extend_from_slice(b"_")?;
    push_number(out, u64::from(leaf.k))?;
    out.extend_from_slice(b"\n")
}

/// Writes the line of each of these positions. Out of memory is the only error.
pub fn push_vertices(out: &mut Vec<u8>, positions: &[Pos]) -> Result<(), AllocError>
    ensures { OnOk result (out.new.items ≡ out.old.items ++ flat_map vertex_line positions.now) }
{
    let mut lines = [0; LINES_ROOM];
    let mut end = 0;
    for position in positions {
        let from = room_for_line(out, &lines, end)?;
        end = put_vertex(&mut lines, from, *position);
    }
    out.extend_from_slice(&lines[..end])
}

/// Writes the line of a vertex into lines from a place on, and returns the place behind it.
#[inline(always)]
fn put_vertex(lines: &mut [u8], at: usize, position: Pos) -> usize
    requires { at + LINE_ROOM ≤ length lines.old }
    ensures line { Puts lines.old lines.new at result (vertex_line position) }
    ensures near { result ≤ at + LINE_ROOM }
{
    let x = put(lines, at, b"v");
    let y = put_coordinate(lines, x, position.x);
    let z = put_coordinate(lines, y, position.y);
    let last = put_coordinate(lines, z, position.z);
    put(lines, last, b"\n")
}

/// Writes the triangles, each given by the places of its vertices among those of the mesh, from 0.
fn push_faces(
    out: &mut Vec<u8>,
    base: u64,
    numerals: &[Numeral],
    triangles: &[[u32; 3]],
) -> Result<(), AllocError>
    requires base_fits { base ≤ MAX_MESH_BASE }
    requires numerals { AreNumerals base numerals.now }
    ensures { OnOk result (out.new.items
        ≡ out.old.items ++ flat_map (face_line base) triangles.now) }
{
    let mut lines = [0; LINES_ROOM];
    let mut end = 0;
    for places in triangles {
        let from = room_for_line(out, &lines, end)?;
        end = put_face(&mut lines, from, base, numerals, places);
    }
    out.extend_from_slice(&lines[..end])
}

/// Writes the line of a triangle into lines from a place on, and returns the place behind it.
#[inline(always)]
fn put_face(
    lines: &mut [u8],
    at: usize,
    base: u64,
    numerals: &[Numeral],
    places: &[u32; 3],
) -> usize
    requires base_fits { base ≤ MAX_MESH_BASE }
    requires numerals { AreNumerals base numerals.now }
    requires room { at + LINE_ROOM ≤ length lines.old }
    ensures line { Puts lines.old lines.new at result (face_line base places.now) }
    ensures near { result ≤ at + LINE_ROOM }
{
    let [a, b, c] = *places;
    let first = put(lines, at, b"f");
    let second = put_number(lines, first, base, numerals, a);
    let third = put_number(lines, second, base, numerals, b);
    let last = put_number(lines, third, base, numerals, c);
    put(lines, last, b"\n")
}
