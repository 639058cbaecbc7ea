// Every spare used, and one replacement more: 1,024 spares in eight table blocks, two home sectors and one spare to a track.
#![tactic(auto)]

use shape::Shape;
use std::fmt::Write;
use telling::Output;
use telling::answers::{Block, Counts, Told};

// 1,024 tracks, each a cylinder.
fn drive() -> Shape {
    telling::shapes::ungrouped(1_024, 1, 3)
}

// Writes the census of a table.
fn try_census(out: &mut Output, table: &[u32]) {
    let counts = Counts(spares::census(drive(), 1, table, &mut [0u32; 1_024]));
    let _ = writeln!(out, "  census: {counts}");
}

// Asks for the block on a sector.
fn try_sector(out: &mut Output, table: &[u32], sector: u32) {
    let mut scratch = [0u32; 1_024];
    let block = Block(spares::block_on(drive(), 1, table, &mut scratch, sector));
    let _ = writeln!(out, "  sector {sector}: {block}");
}

// Replaces a block, and says how many descriptors differ after it; hands back the table.
fn try_replace(out: &mut Output, table: [u32; 1_024], block: u32) -> [u32; 1_024] {
    let mut after = table;
    let mut scratch = [0u32; 1_024];
    let place = Told(
        "place",
        spares::replace(drive(), 1, &mut after, &mut scratch, block),
    );
    let differing = comparing::differing(&after, &table);
    let _ = writeln!(out, "  replace block {block}: {place}");
    let _ = writeln!(out, "    descriptors that differ: {differing}");
    after
}

// Asks where a block lies and how far it was moved.
fn try_block(out: &mut Output, table: &[u32], block: u32) {
    let mut scratch = [0u32; 1_024];
    let sector = Told(
        "sector",
        spares::sector_of(drive(), 1, table, &mut scratch, block),
    );
    let _ = writeln!(out, "  block {block}: {sector}");
    let shift = Told(
        "shift",
        spares::shift(drive(), 1, table, &mut scratch, block),
    );
    let _ = writeln!(out, "  block {block}: {shift}");
}

// The first table of a list.
fn try_first(out: &mut Output, list: &[u32], table: &mut [u32]) {
    let bad = list.len();
    let length = Told("length", spares::first_table(drive(), 1, list, table));
    let _ = writeln!(out, "first table of {bad} bad sectors: {length}");
}

// The first sector of each of 1,022 tracks is bad and has its primary; the spare of the next track is bad. The one spare left lies in the last table block, and block 1 starts its search in the first.
fn try_outward(out: &mut Output) {
    let mut list = [0u32; 1_023];
    comparing::spread(&mut list, 0, 3);
    list[1_022] = 3_068;
    let mut table = [0u32; 1_024];
    try_first(out, &list, &mut table);
    try_census(out, &table);
    let full = try_replace(out, table, 1);
    let _ = writeln!(out, "    descriptor 1023: {:08x}", full[1_023]);
    try_block(out, &full, 1);
    try_census(out, &full);
    let same = try_replace(out, full, 3);
    let same = try_replace(out, same, 1);
    let same = try_replace(out, same, 0);
    let same = try_replace(out, same, 2_048);
    try_census(out, &same);
    try_sector(out, &same, 1);
    try_sector(out, &same, 3_068);
    try_sector(out, &same, 3_071);
    try_sector(out, &same, 3_072);
}

// The first sector of every track but the first is bad. The one spare left is the first, and the last block starts its search in the last table block.
fn try_inward(out: &mut Output) {
    let mut list = [0u32; 1_023];
    comparing::spread(&mut list, 3, 3);
    let mut table = [0u32; 1_024];
    try_first(out, &list, &mut table);
    try_census(out, &table);
    let full = try_replace(out, table, 2_047);
    let _ = writeln!(out, "    descriptor 0: {:08x}", full[0]);
    try_block(out, &full, 2_047);
    let same = try_replace(out, full, 1);
    try_census(out, &same);
}

// One bad home sector more than there are good spares.
fn try_short(out: &mut Output) {
    let mut list = [0u32; 1_025];
    comparing::spread(&mut list, 0, 3);
    list[1_024] = 3_071;
    let mut room = [7u32; 1_024];
    try_first(out, &list, &mut room);
    let changed = comparing::changed(&room, 7);
    let _ = writeln!(out, "  places changed: {changed}");
    try_first(out, comparing::first(&list, 1_024), &mut room);
    try_census(out, &room);
}

fn main() {
    let mut out = Output;
    try_outward(&mut out);
    try_inward(&mut out);
    try_short(&mut out);
}
