//! Versions of the field after edits, and which pages they share.

ghost use Rattle.std.specs.Prelude.{◌≡◌, IfOk};
ghost use Rattle.lattice.specs.Region.{IsRegion};
ghost use Rattle.terrain.specs.Samples.{IsSample};

use crate::asserts::{expect, expect_made};
use crate::samples::{expect_corners, expect_even, expect_row, expect_samples};
use field_pages::Version;
use lattice::{Point, Region};
use std::alloc::{AllocError, Global};
use std::process::Abort;

/// The high corner of a world of side 256.
const HIGH_CORNER: Point = Point {
    z: 256,
    y: 256,
    x: 256,
};

/// Returns the samples of a page's row that begins with a sample and goes on past the world's end.
fn row_after(sample: i8) -> [i8; 16] {
    let mut row = [127; 16];
    row[0] = sample;
    row
}

/// Samples of a new version of side 256.
static OPENING: [([u32; 3], i8); 2] = [([0, 0, 0], 127), ([256, 256, 256], 127)];

/// Asserts what such a version has.
fn expect_opening(rt: &impl Abort, version: &Version) {
    expect(rt, "the depth", version.depth(), 4);
    expect_samples(rt, "a new version", version, &OPENING);
    expect_row(rt, version, HIGH_CORNER, &ROW_PAST_THE_END);
}

#[test]
fn a_new_version_holds_127(rt: HostRuntime) {
    let version = expect_made(&rt, Version::new(rt.alloc(), 4));
    expect_opening(&rt, &version);
    drop(version);
}

/// Returns the version in which the samples of a box are one value before x 16, and another from there on. Out of
/// memory is the only error.
fn edit(
    alloc: Global,
    old: &Version,
    region: Region,
    before: i8,
    behind: i8,
) -> Result<Version, AllocError>
    requires region { IsRegion old.now.depth region }
    requires before { IsSample before }
    requires behind { IsSample behind }
    ensures { IfOk result (λ version. version.depth ≡ old.now.depth) }
{
    old.edit(alloc, region, &|p| if p.x < 16 { before } else { behind })
}

/// Returns that version.
fn edited(
    rt: &impl Abort,
    alloc: Global,
    old: &Version,
    region: Region,
    before: i8,
    behind: i8,
) -> Version
    requires region { IsRegion old.now.depth region }
    requires before { IsSample before }
    requires behind { IsSample behind }
    ensures { result.depth ≡ old.now.depth }
{
    expect_made(rt, edit(alloc, old, region, before, behind))
}

/// Returns a box at a corner of eight pages.
fn at_a_corner() -> Region
    ensures { IsRegion 4 result }
{
    Region {
        lo: Point::new(15, 16, 31),
        hi: Point::new(16, 17, 32),
    }
}

/// Samples in the box at a corner of eight pages, and beside it, once it was edited.
static AT_A_CORNER: [([u32; 3], i8); 6] = [
    ([15, 16, 31], -1),
    ([16, 17, 32], 2),
    ([14, 16, 31], 127),
    ([16, 18, 32], 127),
    ([15, 15, 31], 127),
    ([15, 16, 33], 127),
];

/// A row past the world's end.
static ROW_PAST_THE_END: [i8; 16] = [127; 16];

/// A row that ends in that box.
static ROW_BEFORE: [i8; 16] = [
    127, 127, 127, 127, 127, 127, 127, 127, 127, 127, 127, 127, 127, 127, 127, -1,
];

/// Asserts the samples of a version in which that box was edited.
fn expect_at_a_corner(rt: &impl Abort, new: &Version) {
    expect_samples(rt, "the new version", new, &AT_A_CORNER);
    expect_row(rt, new, Point::new(0, 16, 32), &ROW_BEFORE);
    expect_row(rt, new, Point::new(16, 16, 32), &row_after(2));
    expect_corners(rt, new, Point::new(3, 31, 47), &[127, 2, 127]);
}

/// Asserts what an edit of that box changes, and that the old version keeps its samples.
fn expect_corner_edit(rt: &impl Abort, alloc: Global, old: &Version)
    requires { old.now.depth ≡ 4 }
{
    let new = edited(rt, alloc, old, at_a_corner(), -1, 2);
    expect_at_a_corner(rt, &new);
    expect_samples(rt, "the old version", old, &[([15, 16, 31], 127)]);
    drop(new);
}

#[test]
fn an_edit_at_a_corner_of_pages_changes_its_box_alone(rt: HostRuntime) {
    let old = expect_made(&rt, Version::new(rt.alloc(), 4));
    expect_corner_edit(&rt, rt.alloc(), &old);
    drop(old);
}

/// Samples at the far corner of the world, once that is edited.
static AT_THE_FAR_CORNER: [([u32; 3], i8); 2] = [([256, 256, 256], -127), ([255, 256, 256], 127)];

/// Asserts what an edit of the far corner changes, and that the old version keeps its samples.
fn expect_far_edit(rt: &impl Abort, alloc: Global, old: &Version)
    requires { old.now.depth ≡ 4 }
{
    let region = Region {
        lo: HIGH_CORNER,
        hi: HIGH_CORNER,
    };
    let new = edited(rt, alloc, old, region, -127, -127);
    expect_samples(rt, "the new version", &new, &AT_THE_FAR_CORNER);
    expect_row(rt, &new, HIGH_CORNER, &row_after(-127));
    expect_samples(rt, "the old version", old, &[([256, 256, 256], 127)]);
    drop(new);
}

#[test]
fn an_edit_at_the_far_corner_leaves_the_padding(rt: HostRuntime) {
    let old = expect_made(&rt, Version::new(rt.alloc(), 4));
    expect_far_edit(&rt, rt.alloc(), &old);
    drop(old);
}

/// Samples once the whole world was edited.
static EVERYWHERE: [([u32; 3], i8); 3] = [
    ([0, 0, 0], -1),
    ([128, 200, 100], 1),
    ([256, 256, 256], -1),
];

/// Asserts what an edit of the whole world changes.
fn expect_whole_edit(rt: &impl Abort, alloc: Global, old: &Version)
    requires { old.now.depth ≡ 4 }
{
    let world = Region {
        lo: Point::new(0, 0, 0),
        hi: HIGH_CORNER,
    };
    let new = old.edit(alloc, world, &|p| { if p.z < p.y { 1 } else { -1 } });
    let new = expect_made(rt, new);
    expect_samples(rt, "the new version", &new, &EVERYWHERE);
    expect_row(rt, &new, Point::new(256, 256, 0), &row_after(1));
    drop(new);
}

#[test]
fn an_edit_of_the_whole_world_reaches_every_page(rt: HostRuntime) {
    let old = expect_made(&rt, Version::new(rt.alloc(), 4));
    expect_whole_edit(&rt, rt.alloc(), &old);
    drop(old);
}

/// Asserts which pages are even once all of a page is edited.
fn expect_even_page(rt: &impl Abort, alloc: Global, old: &Version)
    requires { old.now.depth ≡ 1 }
{
    let page = Region {
        lo: Point::new(0, 0, 0),
        hi: Point::new(15, 15, 15),
    };
    let new = edited(rt, alloc, old, page, -127, -127);
    expect_even(rt, &new, Point::new(15, 0, 15), true);
    drop(new);
}

/// Asserts which pages are even once most of a page is edited, and a part of the next one.
fn expect_two_pages(rt: &impl Abort, alloc: Global, old: &Version)
    requires { old.now.depth ≡ 1 }
{
    let most = Region {
        lo: Point::new(1, 0, 0),
        hi: Point::new(16, 15, 15),
    };
    let new = edited(rt, alloc, old, most, -127, -127);
    expect_even(rt, &new, Point::new(15, 0, 15), false);
    expect_even(rt, &new, Point::new(16, 0, 0), false);
    expect_even(rt, &new, Point::new(0, 16, 0), true);
    drop(new);
}

/// Asserts which pages are even in a new version of depth 1, and after either edit of it.
fn expect_evens(rt: &impl Abort, alloc: Global, old: &Version)
    requires { old.now.depth ≡ 1 }
{
    expect_even(rt, old, Point::new(32, 32, 32), true);
    expect_even_page(rt, alloc, old);
    expect_two_pages(rt, alloc, old);
}

#[test]
fn a_page_is_even_where_all_its_samples_are_equal(rt: HostRuntime) {
    let old = expect_made(&rt, Version::new(rt.alloc(), 1));
    expect_evens(&rt, rt.alloc(), &old);
    drop(old);
}

/// Asserts how many pages of a version and of one made from it are in no other one.
fn expect_own(rt: &impl Abort, case: &str, new: &Version, old: &Version, own: (usize, usize)) {
    expect(rt, case, (new.own_pages(), old.own_pages()), own);
}

/// Asserts which pages are copied where the samples of some of a version's own pages change.
fn expect_copies(rt: &impl Abort, alloc: Global, first: &Version)
    requires { first.now.depth ≡ 4 }
{
    let second = edited(rt, alloc, first, at_a_corner(), 5, 6);
    expect_own(rt, "the second edit", &second, first, (2, 2));
    drop(second);
}

/// Asserts which pages are copied where samples of a new version change, and then once more.
fn expect_first_copies(rt: &impl Abort, alloc: Global, old: &Version)
    requires { old.now.depth ≡ 4 }
{
    let first = edited(rt, alloc, old, at_a_corner(), 5, 5);
    expect_own(rt, "the first edit", &first, old, (4, 0));
    expect_copies(rt, alloc, &first);
    drop(first);
}

#[test]
fn an_edit_copies_the_pages_in_which_samples_change(rt: HostRuntime) {
    let old = expect_made(&rt, Version::new(rt.alloc(), 4));
    expect_first_copies(&rt, rt.alloc(), &old);
    drop(old);
}

/// Returns most of the smallest world.
fn most_of_it() -> Region
    ensures { IsRegion 0 result }
{
    Region {
        lo: Point::new(1, 1, 1),
        hi: Point::new(16, 16, 16),
    }
}

/// Asserts that nothing is copied where most of the smallest world is filled once more.
fn expect_no_copy(rt: &impl Abort, alloc: Global, old: &Version)
    requires { old.now.depth ≡ 0 }
{
    let new = edited(rt, alloc, old, most_of_it(), 7, 7);
    expect_own(rt, "the same edit again", &new, old, (0, 0));
    drop(new);
}

/// Asserts how many pages are copied where most of the smallest world is filled, and then once more.
fn expect_one_copy(rt: &impl Abort, alloc: Global, empty: &Version)
    requires { empty.now.depth ≡ 0 }
{
    let old = edited(rt, alloc, empty, most_of_it(), 7, 7);
    expect(rt, "the first edit", old.own_pages(), 7);
    expect_no_copy(rt, alloc, &old);
    drop(old);
}

#[test]
fn an_edit_that_changes_no_sample_shares_all_pages(rt: HostRuntime) {
    let empty = expect_made(&rt, Version::new(rt.alloc(), 0));
    expect_one_copy(&rt, rt.alloc(), &empty);
    drop(empty);
}

/// Samples in four pages that an edit makes equal, and off them.
static IN_FOUR_PAGES: [([u32; 3], i8); 3] = [([15, 31, 0], 5), ([31, 0, 7], 5), ([0, 32, 0], 127)];

/// Asserts that an edit that makes four pages equal takes none for them.
fn expect_equal_pages(rt: &impl Abort, alloc: Global, old: &Version)
    requires { old.now.depth ≡ 1 }
{
    let region = Region {
        lo: Point::new(0, 0, 0),
        hi: Point::new(31, 31, 7),
    };
    let new = edited(rt, alloc, old, region, 5, 5);
    expect(rt, "four equal pages", new.own_pages(), 0);
    expect_samples(rt, "four equal pages", &new, &IN_FOUR_PAGES);
    drop(new);
}

#[test]
fn an_edit_shares_the_pages_that_it_makes_equal(rt: HostRuntime) {
    let old = expect_made(&rt, Version::new(rt.alloc(), 1));
    expect_equal_pages(&rt, rt.alloc(), &old);
    drop(old);
}

/// Returns the box of one point in the middle of the smallest world.
fn in_the_middle() -> Region
    ensures { IsRegion 0 result }
{
    Region {
        lo: Point::new(8, 8, 8),
        hi: Point::new(8, 8, 8),
    }
}

/// Asserts that a page takes no samples once the point in the middle has the value of all others again.
fn expect_one_value(rt: &impl Abort, alloc: Global, other: &Version)
    requires { other.now.depth ≡ 0 }
{
    let again = edited(rt, alloc, other, in_the_middle(), 5, 5);
    expect(rt, "one value again", again.own_pages(), 0);
    expect_samples(rt, "one value again", &again, &[([8, 8, 8], 5)]);
    drop(again);
}

/// Asserts that a page of one value takes samples once a point has another one, and none once it has that one again.
fn expect_two_values(rt: &impl Abort, alloc: Global, even: &Version)
    requires { even.now.depth ≡ 0 }
{
    let other = edited(rt, alloc, even, in_the_middle(), -9, -9);
    expect(rt, "another value at a point", other.own_pages(), 1);
    expect_one_value(rt, alloc, &other);
    drop(other);
}

/// A row of a page of one value.
static ROW_OF_FIVES: [i8; 16] = [5; 16];

/// Asserts that a page that an edit makes one value takes no samples, and what becomes of it by edits of a point.
fn expect_even_world(rt: &impl Abort, alloc: Global, old: &Version)
    requires { old.now.depth ≡ 0 }
{
    let world = Region {
        lo: Point::new(0, 0, 0),
        hi: Point::new(16, 16, 16),
    };
    let even = edited(rt, alloc, old, world, 5, 5);
    expect(rt, "one value", even.own_pages(), 0);
    expect_row(rt, &even, Point::new(0, 16, 16), &ROW_OF_FIVES);
    expect_row(rt, &even, Point::new(16, 3, 16), &row_after(5));
    expect_two_values(rt, alloc, &even);
    drop(even);
}

#[test]
fn a_page_of_one_value_takes_no_samples(rt: HostRuntime) {
    let old = expect_made(&rt, Version::new(rt.alloc(), 0));
    expect_even_world(&rt, rt.alloc(), &old);
    drop(old);
}

/// Asserts that an edit of an edited world, refused or not, leaves the world before it as it was.
fn edit_twice(rt: &impl Abort, alloc: Global, first: &Version)
    requires { first.now.depth ≡ 0 }
{
    let second = edit(alloc, first, at_the_end(), -3, -3);
    expect_samples(rt, "the first edit", first, &AT_THE_END);
    let second = expect_made(rt, second);
    expect_samples(rt, "the second edit", &second, &[([16, 16, 16], -3)]);
    drop(second);
}

/// Returns the box of the last point of the smallest world.
fn at_the_end() -> Region
    ensures { IsRegion 0 result }
{
    let at = Point::new(16, 16, 16);
    Region { lo: at, hi: at }
}

/// Samples there, and beside it, after the first edit.
static AT_THE_END: [([u32; 3], i8); 2] = [([16, 16, 16], 3), ([15, 16, 16], 127)];

#[test]
fn a_refused_edit_leaves_the_old_version(rt: HostRuntime) {
    let empty = expect_made(&rt, Version::new(rt.alloc(), 0));
    let first = edited(&rt, rt.alloc(), &empty, at_the_end(), 3, 3);
    edit_twice(&rt, rt.alloc(), &first);
    drop((empty, first));
}
