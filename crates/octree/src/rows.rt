//! Rows of nodes by words: a bit for each node.

ghost use Rattle.std.specs.Prelude.{◌≡◌, ℕ, ◌+◌, ◌*◌, ◌/◌, ◌<◌, ◌≤◌, ◌^◌, ◌||◌, ◌↔◌, ◌++◌, false, filter, nat_lt, IsTrue, OnOk};
ghost use Rattle.octree.specs.LeafLists.{first_of_row};
ghost use Rattle.octree.specs.RowBits.{row_bit_beside};
ghost use Rattle.octree.specs.SplitBits.{row_bit};
ghost use Rattle.octree.specs.WantedNodes.{IsAmong};

use crate::indices::Indices;
use lattice::Node;
use std::alloc::AllocError;

/// Returns whether the bit of an index is set.
pub(crate) fn row_bit(row: u64, i: u32) -> bool
    requires { i < 64 }
    ensures { result ≡ row_bit row i }
{
    row >> i & 1 == 1
}

/// Returns the bits that are set, and those beside them.
pub(crate) fn widened(row: u64) -> u64
    requires { row < 2 ^ 32 }
    ensures { (i : ℕ) → row_bit result i ≡ row_bit_beside row i }
{
    row << 1 | (row | row >> 1)
}

/// Returns each bit twice: the bits of two children for that of their parent.
pub(crate) fn doubled(row: u64) -> u64
    requires { row < 2 ^ 32 }
    ensures { (i : ℕ) → row_bit result i ≡ row_bit row (i / 2) }
{
    let mut pairs = 0;
    for part in 0..4u32 {
        let rest = row >> (8 * part);
        if rest == 0 {
            return pairs;
        }
        pairs |= doubled_part(rest & 255) << (16 * part);
    }
    pairs
}

/// Returns each of eight bits twice.
fn doubled_part(bits: u64) -> u64
    requires { bits < 2 ^ 8 }
    ensures fits { result < 2 ^ 16 }
    ensures each { (i : ℕ) → row_bit result i ≡ row_bit bits (i / 2) }
{
    let fours = (bits | bits << 4) & 0x0f0f;
    let twos = (fours | fours << 2) & 0x3333;
    let ones = (twos | twos << 1) & 0x5555;
    ones | ones << 1
}

/// Returns a bit for each two of a row, set where one of them is: the bits of the parents of a row's nodes.
pub(crate) fn halved(row: u64) -> u64
    ensures { (i : ℕ) → row_bit result i ≡ (row_bit row (2 * i) || row_bit row (2 * i + 1)) }
{
    let mut halves = 0;
    for part in 0..8u32 {
        let rest = row >> (8 * part);
        if rest == 0 {
            return halves;
        }
        halves |= halved_part(rest & 255) << (4 * part);
    }
    halves
}

/// Returns a bit for each two of eight bits.
fn halved_part(bits: u64) -> u64
    requires { bits < 2 ^ 8 }
    ensures fits { result < 2 ^ 4 }
    ensures each { (i : ℕ) → row_bit result i ≡ (row_bit bits (2 * i) || row_bit bits (2 * i + 1)) }
{
    let ones = (bits | bits >> 1) & 0x55;
    let twos = (ones | ones >> 1) & 0x33;
    (twos | twos >> 2) & 0x0f
}

/// Returns the bits of some indices.
pub(crate) fn bits_among(indices: Indices) -> u64
    requires { indices.end < 64 }
    ensures fits { result < 2 ^ indices.end }
    ensures each { (i : ℕ) → IsTrue (row_bit result i) ↔ IsAmong indices i }
{
    if indices.low >= indices.end {
        return 0;
    }
    first_bits(indices.end) & !first_bits(indices.low)
}

/// Returns the first bits of a row, so many of them.
fn first_bits(count: u32) -> u64
    requires { count < 64 }
    ensures fits { result < 2 ^ count }
    ensures each { (i : ℕ) → row_bit result i ≡ nat_lt i count }
{
    (1 << count) - 1
}

/// Appends the nodes of a row whose bits are set, by i. Out of memory is the only error.
pub(crate) fn push_nodes(
    list: &mut Vec<Node>,
    level: u8,
    k: u32,
    j: u32,
    row: u64,
) -> Result<(), AllocError>
    ensures { (across : ℕ) → ((i : ℕ) → across ≤ i → row_bit row i ≡ false)
        → OnOk result (list.new.items
        ≡ list.old.items ++ filter (λ n. row_bit row n.i) (first_of_row level k j across)) }
{
    let mut rest = row;
    while rest != 0 {
        let i = rest.trailing_zeros();
        list.push(Node { level, k, j, i })?;
        rest &= !(1 << i);
    }
    Ok(())
}
