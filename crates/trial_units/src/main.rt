// The limits of N and of a shape: the largest, one more, and a drive of one sector that is bad; groups that are right, and each way to get them wrong.
#![tactic(auto)]

ghost use Rattle.std.specs.Prelude.{◌<◌};
ghost use Rattle.paper.specs.Limits.{units_most};

use shape::Shape;
use skip::Cursor;
use std::fmt::Write;
use telling::Output;
use telling::answers::{Block, Location, Told};
use telling::shapes::Numbers;

// The last block and the last sector of a drive with a list, and one more of each.
fn try_end(out: &mut Output, n: u32, list: &[u32], block: u32)
    requires n_nonzero { 0 < n }
    requires block_lt_units_most { block < units_most }
{
    telling::asking::space(out, n, list);
    telling::asking::block(out, n, list, block);
    telling::asking::block(out, n, list, block + 1);
    telling::asking::sector(out, n, list, n - 1);
    telling::asking::sector(out, n, list, n);
}

// What stands at the start of a drive, and a cursor.
fn try_start(out: &mut Output, n: u32, list: &[u32], block: u32, skipped: u32) {
    let cursor = Cursor { block, skipped };
    telling::asking::space(out, n, list);
    telling::asking::block(out, n, list, 0);
    telling::asking::sector(out, n, list, 0);
    telling::asking::start(out, n, list, 0);
    telling::asking::check(out, n, list, cursor);
    telling::asking::step(out, n, list, cursor);
}

// Writes a shape.
fn name_shape(out: &mut Output, shape: Shape) {
    let _ = writeln!(out, "shape {}", Numbers(shape));
}

// Asks for the sector of an address.
fn try_address(out: &mut Output, shape: Shape, cylinder: u32, head: u32, sector: u32) {
    let answer = Told("sector", shape::sector_of(shape, cylinder, head, sector));
    let _ = writeln!(
        out,
        "  cylinder {cylinder}, head {head}, sector {sector}: {answer}"
    );
}

// Asks for the address of a sector.
fn try_sector(out: &mut Output, shape: Shape, sector: u32) {
    let answer = Location(shape::address_of(shape, sector));
    let _ = writeln!(out, "  sector {sector}: {answer}");
}

// Asks for the address of a block where sector 0 is bad.
fn try_block(out: &mut Output, shape: Shape, block: u32) {
    let answer = Location(skipped::address_of(shape, &[0], block));
    let _ = writeln!(out, "  sector 0 bad, block {block}: {answer}");
}

// Asks for the block at an address where sector 0 is bad.
fn try_block_at(out: &mut Output, shape: Shape, cylinder: u32, head: u32, sector: u32) {
    let answer = Block(skipped::block_at(shape, &[0], cylinder, head, sector));
    let _ = writeln!(
        out,
        "  sector 0 bad, cylinder {cylinder}, head {head}, sector {sector}: {answer}"
    );
}

// The last sector and the last block of the largest shape, both ways, and one more of each number.
fn try_largest(out: &mut Output, shape: Shape) {
    name_shape(out, shape);
    try_address(out, shape, 4_095, 63, 63);
    try_address(out, shape, 4_096, 63, 63);
    try_address(out, shape, 4_095, 64, 63);
    try_address(out, shape, 4_095, 63, 64);
    try_sector(out, shape, 16_777_215);
    try_sector(out, shape, 16_777_216);
    try_block(out, shape, 16_777_214);
    try_block(out, shape, 16_777_215);
    try_block_at(out, shape, 4_095, 63, 63);
    try_block_at(out, shape, 0, 0, 0);
}

// The first sector of a shape.
fn try_shape(out: &mut Output, shape: Shape) {
    name_shape(out, shape);
    try_address(out, shape, 0, 0, 0);
    try_sector(out, shape, 0);
}

// Two cylinders of four heads and five sectors, in groups.
fn grouped(groups: u32, tracks: u32, offset: u32) -> Shape {
    Shape {
        cylinders: 2,
        heads: 4,
        sectors: 5,
        groups,
        tracks,
        offset,
    }
}

// The angles along two groups of two tracks, the second three sectors after the first.
fn try_angles(out: &mut Output) {
    let shape = grouped(2, 2, 3);
    name_shape(out, shape);
    try_sector(out, shape, 0);
    try_sector(out, shape, 9);
    try_sector(out, shape, 10);
    try_sector(out, shape, 13);
    try_sector(out, shape, 19);
    try_sector(out, shape, 20);
    try_sector(out, shape, 39);
    try_sector(out, shape, 40);
    try_block(out, shape, 12);
}

// Each call by a shape, and each with what would be refused after the groups: a number that is not on the drive, and a list that does not rise.
fn try_groups(out: &mut Output, groups: u32, tracks: u32, offset: u32) {
    let shape = grouped(groups, tracks, offset);
    name_shape(out, shape);
    try_address(out, shape, 0, 2, 0);
    try_address(out, shape, 2, 4, 5);
    try_sector(out, shape, 10);
    try_sector(out, shape, 40);
    try_block(out, shape, 9);
    try_block_at(out, shape, 0, 2, 0);
    let location = Location(skipped::address_of(shape, &[7, 7], 9));
    let _ = writeln!(out, "  sectors 7, 7 bad, block 9: {location}");
    let block = Block(skipped::block_at(shape, &[7, 7], 0, 2, 0));
    let _ = writeln!(
        out,
        "  sectors 7, 7 bad, cylinder 0, head 2, sector 0: {block}"
    );
}

fn main() {
    let mut out = Output;
    try_end(&mut out, 16_777_216, &[], 16_777_215);
    try_end(&mut out, 16_777_216, &[0, 16_777_215], 16_777_213);
    try_start(&mut out, 16_777_217, &[], 2, 1);
    try_start(&mut out, 1, &[0], 0, 0);
    try_start(&mut out, 1, &[0], 1, 0);
    try_start(&mut out, 0, &[], 2, 1);
    try_largest(
        &mut out,
        Shape {
            cylinders: 4_096,
            heads: 64,
            sectors: 64,
            groups: 64,
            tracks: 1,
            offset: 63,
        },
    );
    try_shape(&mut out, telling::shapes::ungrouped(4_097, 64, 64));
    try_shape(
        &mut out,
        Shape {
            cylinders: 4_096,
            heads: 65,
            sectors: 64,
            groups: 5,
            tracks: 13,
            offset: 0,
        },
    );
    try_shape(&mut out, telling::shapes::ungrouped(4_096, 64, 65));
    try_shape(&mut out, telling::shapes::ungrouped(1, 1, 2));
    try_shape(&mut out, telling::shapes::ungrouped(1, 1, 1));
    try_shape(&mut out, telling::shapes::ungrouped(1, 0, 2));
    try_shape(&mut out, telling::shapes::ungrouped(0, 1, 2));
    try_angles(&mut out);
    try_groups(&mut out, 1, 4, 4);
    try_groups(&mut out, 2, 2, 4);
    try_groups(&mut out, 2, 2, 5);
    try_groups(&mut out, 2, 2, 4_294_967_295);
    try_groups(&mut out, 0, 4, 0);
    try_groups(&mut out, 4, 0, 0);
    try_groups(&mut out, 2, 3, 0);
    try_groups(&mut out, 4, 2, 0);
    try_groups(&mut out, 65_536, 65_536, 0);
    try_groups(&mut out, 1_073_741_825, 4, 0);
}
