//! The lines of a mesh with normals, as Wavefront OBJ.
//!
//! Lines are put together in a fixed room, and appended together where it is full, as those of a mesh without normals
//! are (`mesh_out`).

ghost use Rattle.std.specs.Prelude.{◌≡◌, ◌+◌, ◌*◌, ◌<◌, ◌≤◌, ◌^◌, ◌++◌, All, IfOk, OnOk, codes, decimal, flat_map, length, take};
ghost use Rattle.block_mesh.specs.Mesh.{ShowsMesh};
ghost use Rattle.lattice.specs.Key.{IsKey};
ghost use Rattle.snapshots.specs.Frame.{IsSound};
ghost use Rattle.surface_normals.specs.Inner.{HasLeafSamples};
ghost use Rattle.surface_normals.specs.Normals.{normal_of};
ghost use Rattle.surface_query.specs.Corners.{AreCornerTexts, IsCornerText};
ghost use Rattle.surface_query.specs.NormalText.{corner_text, mesh_with_normals, normal_line};
ghost use Rattle.surface_query.specs.Numbers.{AreCounts};
ghost use Rattle.digits.specs.Lines.{Puts};
ghost use Rattle.terrain.specs.Blocks.{Mesh};
ghost use Rattle.terrain.specs.History.{sample};
ghost use Rattle.terrain.specs.Levels.{IsLeaf, levels};

use crate::bases::Bases;
use crate::normals::normal_beside;
use crate::numbers::{LED_ROOM, put_led, put_signed};
use block_mesh::Block;
use bricks::Brick;
use digits::{NUMBER_ROOM, put, put_spaced};
use lattice::{Key, Node};
use mesh_out::{push_group, push_vertices};
use snapshots::Frame;
use std::alloc::{AllocError, Global};
use surface_normals::Normal;

/// The room for the numbers of a corner of a triangle.
const CORNER_ROOM: usize = NUMBER_ROOM + LED_ROOM;

/// The room for a line: no line of a normal or of a triangle is longer.
const LINE_ROOM: usize = 3 * CORNER_ROOM + 3;

/// The room for the lines that are appended at once.
const LINES_ROOM: usize = 1024;

/// How many bytes the lines of a vertex and of its normal mostly have; room for so many a vertex is taken at once.
const VERTEX_ROOM: usize = 64;

/// Writes the mesh of a leaf with the normals of its vertices: its group, its vertices, their normals and its
/// triangles, or nothing where it has no triangle.
///
/// `bases` counts the vertices and normals that were written before it. After an error `out` may have a part of the
/// text.
pub(crate) fn push_mesh(
    out: &mut Vec<u8>,
    alloc: Global,
    bases: Bases,
    frame: &Frame,
    done: &Block,
) -> Result<(), AllocError>
    requires bases { AreCounts bases }
    requires sound { IsSound frame.now }
    requires leaf { IsLeaf frame.now.settings.depth
        (levels frame.now.settings frame.now.events) done.now.brick.node }
    requires keys { All (IsKey frame.now.settings.depth) done.now.mesh.keys }
    ensures { OnOk result ((m : Mesh) → m.leaf ≡ done.now.brick.node → ShowsMesh done.now.mesh m
        → out.new.items ≡ out.old.items ++ mesh_with_normals (normal_of frame.now.settings.depth
        (sample frame.now.settings frame.now.events)) bases m) }
{
    let block = done.view();
    if block.triangles.is_empty() {
        return Ok(());
    }
    out.reserve(block.keys.len() * VERTEX_ROOM)?;
    let leaf = done.node();
    push_group(out, leaf)?;
    push_vertices(out, block.positions)?;
    push_normals(out, alloc, frame, leaf, block.keys)?;
    let corners = corners_of(alloc, bases, block.keys.len())?;
    push_faces(out, bases, &corners, block.triangles)
}

/// Writes the normals of keys, most of which lie in a leaf of the frame.
fn push_normals(
    out: &mut Vec<u8>,
    alloc: Global,
    frame: &Frame,
    leaf: Node,
    keys: &[Key],
) -> Result<(), AllocError>
    requires sound { IsSound frame.now }
    requires leaf { IsLeaf frame.now.settings.depth
        (levels frame.now.settings frame.now.events) leaf }
    requires keys { All (IsKey frame.now.settings.depth) keys.now }
    ensures { OnOk result (out.new.items ≡ out.old.items ++ flat_map (λ key.
        normal_line (normal_of frame.now.settings.depth
        (sample frame.now.settings frame.now.events) key)) keys.now) }
{
    let brick = frame.brick(alloc, leaf)?;
    push_normals_beside(out, frame, &brick, keys)
}

/// Writes the normals of keys, beside a brick of the frame in whose leaf most of them lie.
fn push_normals_beside(
    out: &mut Vec<u8>,
    frame: &Frame,
    brick: &Brick,
    keys: &[Key],
) -> Result<(), AllocError>
    requires sound { IsSound frame.now }
    requires brick { HasLeafSamples frame.now.settings.depth
        (sample frame.now.settings frame.now.events) brick.now }
    requires keys { All (IsKey frame.now.settings.depth) keys.now }
    ensures { OnOk result (out.new.items ≡ out.old.items ++ flat_map (λ key.
        normal_line (normal_of frame.now.settings.depth
        (sample frame.now.settings frame.now.events) key)) keys.now) }
{
    let lists = brick.lists();
    let mut lines = [0; LINES_ROOM];
    let mut end = 0;
    for key in keys {
        let from = room_for_line(out, &lines, end)?;
        end = put_normal(&mut lines, from, normal_beside(frame, lists.as_ref(), *key));
    }
    out.extend_from_slice(&lines[..end])
}

/// Writes a normal into lines from a place on, and returns the place behind it.
#[inline(always)]
fn put_normal(lines: &mut [u8], at: usize, normal: Normal) -> usize
    requires { at + LINE_ROOM ≤ length lines.old }
    ensures line { Puts lines.old lines.new at result (normal_line normal) }
    ensures near { result ≤ at + LINE_ROOM }
{
    let x = put(lines, at, b"vn");
    let y = put_signed(lines, x, normal.x);
    let z = put_signed(lines, y, normal.y);
    let last = put_signed(lines, z, normal.z);
    put(lines, last, b"\n")
}

/// Writes the triangles, each given by the places of its vertices among those of the mesh, from 0.
fn push_faces(
    out: &mut Vec<u8>,
    bases: Bases,
    corners: &[Corner],
    triangles: &[[u32; 3]],
) -> Result<(), AllocError>
    requires bases { AreCounts bases }
    requires corners { AreCornerTexts bases corners.now }
    ensures { OnOk result (out.new.items ≡ out.old.items ++ flat_map (λ places.
        codes "f" ++ flat_map (corner_text bases) places ++ codes "\n") triangles.now) }
{
    let mut lines = [0; LINES_ROOM];
    let mut end = 0;
    for places in triangles {
        let from = room_for_line(out, &lines, end)?;
        end = put_face(&mut lines, from, bases, corners, places);
    }
    out.extend_from_slice(&lines[..end])
}

/// Writes a triangle into lines from a place on, and returns the place behind it.
#[inline(always)]
fn put_face(
    lines: &mut [u8],
    at: usize,
    bases: Bases,
    corners: &[Corner],
    places: &[u32; 3],
) -> usize
    requires bases { AreCounts bases }
    requires corners { AreCornerTexts bases corners.now }
    requires room { at + LINE_ROOM ≤ length lines.old }
    ensures line { Puts lines.old lines.new at result
        (codes "f" ++ flat_map (corner_text bases) places.now ++ codes "\n") }
    ensures near { result ≤ at + LINE_ROOM }
{
    let [a, b, c] = *places;
    let first = put(lines, at, b"f");
    let second = put_kept_corner(lines, first, bases, corners, a);
    let third = put_kept_corner(lines, second, bases, corners, b);
    let last = put_kept_corner(lines, third, bases, corners, c);
    put(lines, last, b"\n")
}

/// Appends the lines so far where one more might not have room behind them, and returns how many bytes of them are
/// left then.
#[inline(always)]
fn room_for_line(out: &mut Vec<u8>, lines: &[u8], end: usize) -> Result<usize, AllocError>
    requires end { end ≤ length lines.now }
    requires room { LINE_ROOM ≤ length lines.now }
    ensures text { IfOk result (λ left.
        out.new.items ++ take left lines.now ≡ out.old.items ++ take end lines.now) }
    ensures room { IfOk result (λ left. left + LINE_ROOM ≤ length lines.now) }
{
    if end <= lines.len() - LINE_ROOM {
        return Ok(end);
    }
    out.extend_from_slice(&lines[..end])?;
    Ok(0)
}

/// The text of a corner of a triangle, which many triangles have: its first `len` bytes.
#[derive(Clone, Copy)]
pub(crate) struct Corner {
    pub bytes: [u8; CORNER_ROOM],
    pub len: u8,
}

/// Returns the texts of the corners at so many places, from 0.
fn corners_of(alloc: Global, bases: Bases, count: usize) -> Result<Vec<Corner>, AllocError>
    requires bases { AreCounts bases }
    requires few { count < 2 ^ 32 }
    ensures { IfOk result (λ corners. AreCornerTexts bases corners.items) }
{
    let mut corners = Vec::with_capacity(alloc, count)?;
    let mut corner = corner_at(bases, 0);
    for place in 0..count as u32 {
        corners.push(corner)?;
        go_on(&mut corner, bases, place);
    }
    Ok(corners)
}

/// Makes the text of the corner at a place that of the corner at the next. Where both its numbers are the same, which
/// they mostly are, and don't end in 9, this takes a change of their last digits alone.
#[inline(always)]
fn go_on(corner: &mut Corner, bases: Bases, place: u32)
    requires bases { AreCounts bases }
    requires place { place + 1 < 2 ^ 32 }
    requires corner { IsCornerText bases place corner.old }
    ensures { IsCornerText bases (place + 1) corner.new }
{
    let len = usize::from(corner.len);
    let last = corner.bytes[len - 1];
    if bases.vertices == bases.normals && last < b'9' {
        corner.bytes[(len - 3) / 2] = last + 1;
        corner.bytes[len - 1] = last + 1;
    } else {
        *corner = corner_at(bases, place + 1);
    }
}

/// Returns the text of a corner by its place in the mesh.
#[inline(always)]
fn corner_at(bases: Bases, place: u32) -> Corner
    requires { AreCounts bases }
    ensures { IsCornerText bases place result }
{
    let mut bytes = [0; CORNER_ROOM];
    let len = put_new_corner(&mut bytes, bases, place) as u8;
    Corner { bytes, len }
}

/// Writes a corner of a triangle at the beginning of a line, and returns the place behind it.
#[inline(always)]
fn put_new_corner(line: &mut [u8], bases: Bases, place: u32) -> usize
    requires bases { AreCounts bases }
    requires room { CORNER_ROOM ≤ length line.old }
    ensures line { Puts line.old line.new 0 result (corner_text bases place) }
    ensures near { result ≤ CORNER_ROOM }
{
    if bases.vertices == bases.normals {
        put_twice(line, bases.vertices + u64::from(place) + 1)
    } else {
        put_corner(line, 0, bases, place)
    }
}

/// Writes a corner whose vertex and normal have one number, whose digits are put once and copied, at the beginning of a
/// line, and returns the place behind it.
#[inline(always)]
fn put_twice(line: &mut [u8], number: u64) -> usize
    requires room { CORNER_ROOM ≤ length line.old }
    ensures line { Puts line.old line.new 0 result
        (codes " " ++ decimal number ++ codes "//" ++ decimal number) }
    ensures near { result ≤ CORNER_ROOM }
{
    let mut spaced = [0; NUMBER_ROOM];
    let end = put_spaced(&mut spaced, 0, number);
    let _first = put(line, 0, &spaced);
    let behind = put(line, end, b"//");
    let _second = put(line, behind, &spaced[1..]);
    behind + (end - 1)
}

/// Writes a kept text of a corner into a line from a place on, and returns the place behind it. The room of the text is
/// copied whole: so many bytes at once take less time than just those of the text.
#[inline(always)]
fn put_first(line: &mut [u8], at: usize, corner: Corner) -> usize
    requires len { corner.len ≤ CORNER_ROOM }
    requires room { at + CORNER_ROOM ≤ length line.old }
    ensures line { Puts line.old line.new at result (take corner.len corner.bytes) }
    ensures near { result ≤ at + CORNER_ROOM }
{
    let _behind = put(line, at, &corner.bytes);
    at + usize::from(corner.len)
}

/// Writes a corner of a triangle, by its place in the mesh, into a line from a place on, and returns the place behind
/// it: the text that is kept for it, if there is one.
#[inline(always)]
fn put_kept_corner(
    line: &mut [u8],
    at: usize,
    bases: Bases,
    corners: &[Corner],
    place: u32,
) -> usize
    requires bases { AreCounts bases }
    requires corners { AreCornerTexts bases corners.now }
    requires room { at + CORNER_ROOM ≤ length line.old }
    ensures line { Puts line.old line.new at result (corner_text bases place) }
    ensures near { result ≤ at + CORNER_ROOM }
{
    let index = place as usize;
    if index < corners.len() {
        put_first(line, at, corners[index])
    } else {
        put_corner(line, at, bases, place)
    }
}

/// Writes a corner of a triangle, by its place in the mesh, into a line from a place on: a blank, the number of its
/// vertex, two slashes and the number of its normal. It returns the place behind them.
#[inline(always)]
fn put_corner(line: &mut [u8], at: usize, bases: Bases, place: u32) -> usize
    requires bases { AreCounts bases }
    requires room { at + CORNER_ROOM ≤ length line.old }
    ensures line { Puts line.old line.new at result (corner_text bases place) }
    ensures near { result ≤ at + CORNER_ROOM }
{
    let vertex = put_spaced(line, at, bases.vertices + u64::from(place) + 1);
    let number = bases.normals + u64::from(place) + 1;
    put_led(line, vertex, b'/', b'/', number)
}
