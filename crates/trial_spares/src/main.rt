// The limit of spares: 65,536 and the next that a drive can have, in several shapes, with the table's length, the census of the first table and what is left of its scratch; lengths that are no table's; and groups that are wrong.
#![tactic(auto)]

use shape::Shape;
use std::fmt::Write;
use telling::Output;
use telling::answers::{Block, Counts, Location, Told};
use telling::shapes::Numbers;

// Writes the census of a table, and how many numbers of a scratch that was full of ones changed.
fn try_census(out: &mut Output, shape: Shape, r: u32, table: &[u32]) {
    let mut scratch = [1u32; 65_539];
    let counts = Counts(spares::census(shape, r, table, &mut scratch));
    let changed = comparing::changed(&scratch, 1);
    let _ = writeln!(out, "  census: {counts}");
    let _ = writeln!(out, "    numbers of the scratch changed: {changed}");
}

// Writes a drive, and its first table with no bad sector: the length, how many places of the room it changed, and its census.
fn try_drive(out: &mut Output, shape: Shape, r: u32) {
    let _ = writeln!(out, "shape {}, spares of a track {r}", Numbers(shape));
    let mut room = [7u32; 65_664];
    let answer = spares::first_table(shape, r, &[], &mut room);
    let changed = comparing::changed(&room, 7);
    let _ = writeln!(out, "  first table: {}", Told("length", answer));
    let _ = writeln!(out, "  places changed: {changed}");
    try_census(out, shape, r, comparing::first(&room, answer.unwrap_or(0)));
}

// Writes the census of so many free descriptors, for 65,536 spares.
fn try_free(out: &mut Output, shape: Shape, table: &[u32]) {
    let _ = writeln!(out, "  a table of free descriptors: {}", table.len());
    try_census(out, shape, 1, table);
}

// A room one place too short, and tables one descriptor too short and too long.
fn try_lengths(out: &mut Output) {
    let shape = telling::shapes::ungrouped(4_096, 16, 2);
    let mut room = [7u32; 65_535];
    let length = Told("length", spares::first_table(shape, 1, &[], &mut room));
    let changed = comparing::changed(&room, 7);
    let _ = writeln!(out, "the first shape again");
    let _ = writeln!(out, "  first table in 65535 places: {length}");
    let _ = writeln!(out, "  places changed: {changed}");
    let free = [0u32; 65_537];
    try_free(out, shape, comparing::first(&free, 65_535));
    try_free(out, shape, comparing::first(&free, 65_536));
    try_free(out, shape, &free);
}

// A table of eight spares with none in use.
fn eight_free() -> [u32; 128] {
    let mut table = [0u32; 128];
    let _ = spares::first_table(telling::shapes::ungrouped(2, 4, 5), 1, &[], &mut table);
    table
}

// Asks a revectored drive of eight spares where block 8 lies.
fn try_block(out: &mut Output, shape: Shape, table: &[u32]) {
    let sector = Told(
        "sector",
        spares::sector_of(shape, 1, table, &mut [1u32; 8], 8),
    );
    let _ = writeln!(out, "  block 8: {sector}");
    let location = Location(spares::address_of(shape, 1, table, &mut [1u32; 8], 8));
    let _ = writeln!(out, "  block 8: {location}");
    let shift = Told("shift", spares::shift(shape, 1, table, &mut [1u32; 8], 8));
    let _ = writeln!(out, "  block 8: {shift}");
}

// Asks it what lies on a sector, by its number and by its address.
fn try_sector(out: &mut Output, shape: Shape, table: &[u32]) {
    let block = Block(spares::block_on(shape, 1, table, &mut [1u32; 8], 10));
    let _ = writeln!(out, "  sector 10: {block}");
    let block = Block(spares::block_at(shape, 1, table, &mut [1u32; 8], 0, 2, 0));
    let _ = writeln!(out, "  cylinder 0, head 2, sector 0: {block}");
}

// Replaces block 8, and says how many descriptors that alters.
fn try_replace(out: &mut Output, shape: Shape, table: &mut [u32]) {
    let place = Told("place", spares::replace(shape, 1, table, &mut [1u32; 8], 8));
    let differing = comparing::differing(table, &eight_free());
    let _ = writeln!(out, "  replace block 8: {place}");
    let _ = writeln!(out, "    descriptors that differ: {differing}");
}

// The calls of a revectored drive of eight spares in groups, and a census of no table.
fn try_groups(out: &mut Output, groups: u32, tracks: u32, offset: u32) {
    let shape = Shape {
        cylinders: 2,
        heads: 4,
        sectors: 5,
        groups,
        tracks,
        offset,
    };
    try_drive(out, shape, 1);
    let mut table = eight_free();
    try_block(out, shape, &table);
    try_sector(out, shape, &table);
    try_replace(out, shape, &mut table);
    try_block(out, shape, &table);
    try_census(out, shape, 1, &table);
    try_census(out, shape, 1, &[]);
}

fn main() {
    let mut out = Output;
    try_drive(&mut out, telling::shapes::ungrouped(4_096, 16, 2), 1);
    try_drive(&mut out, telling::shapes::ungrouped(1_986, 33, 2), 1);
    try_drive(&mut out, telling::shapes::ungrouped(4_096, 1, 17), 16);
    try_drive(&mut out, telling::shapes::ungrouped(1_025, 1, 2), 1);
    try_drive(&mut out, telling::shapes::ungrouped(8, 4, 64), 32);
    try_drive(&mut out, telling::shapes::ungrouped(4_096, 64, 64), 63);
    try_drive(&mut out, telling::shapes::ungrouped(129, 1, 2), 1);
    try_drive(&mut out, telling::shapes::ungrouped(128, 1, 2), 1);
    try_drive(&mut out, telling::shapes::ungrouped(1, 1, 2), 1);
    try_drive(&mut out, telling::shapes::ungrouped(1, 1, 2), 0);
    try_drive(&mut out, telling::shapes::ungrouped(1, 1, 2), 2);
    try_lengths(&mut out);
    try_groups(&mut out, 2, 2, 3);
    try_groups(&mut out, 2, 2, 5);
    try_groups(&mut out, 2, 3, 0);
    try_groups(&mut out, 65_536, 65_536, 0);
}
