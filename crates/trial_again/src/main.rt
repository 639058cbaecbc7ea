// Blocks that are replaced again, on a drive of eight spares: C 2, H 2, S 5, with three home sectors and two spares to a track.
#![tactic(auto)]

use shape::Shape;
use std::fmt::Write;
use telling::Output;
use telling::answers::{Block, Counts, Told};

// Each head is a group, and the second starts two sectors after the first.
fn drive() -> Shape {
    Shape {
        cylinders: 2,
        heads: 2,
        sectors: 5,
        groups: 2,
        tracks: 1,
        offset: 2,
    }
}

// The table with every spare free.
fn none_replaced() -> [u32; 128] {
    let mut table = [0u32; 128];
    let _ = spares::first_table(drive(), 2, &[], &mut table);
    table
}

// Asks for a replacement with a number of spares, and says how many descriptors differ after it; hands back the table.
fn try_with(out: &mut Output, r: u32, table: [u32; 128], block: u32) -> [u32; 128] {
    let mut after = table;
    let place = Told(
        "place",
        spares::replace(drive(), r, &mut after, &mut [0u32; 8], block),
    );
    let differing = comparing::differing(&after, &table);
    let _ = writeln!(out, "  replace block {block}: {place}");
    let _ = writeln!(out, "    descriptors that differ: {differing}");
    after
}

// Asks for a replacement on the drive.
fn try_replace(out: &mut Output, table: [u32; 128], block: u32) -> [u32; 128] {
    try_with(out, 2, table, block)
}

// Writes the words of the eight spares.
fn try_words(out: &mut Output, table: [u32; 128]) {
    for (place, word) in table.iter().take(8).enumerate() {
        let _ = writeln!(out, "  descriptor {place}: {word:08x}");
    }
}

// Writes the census of a table.
fn try_census(out: &mut Output, table: &[u32]) {
    let counts = Counts(spares::census(drive(), 2, table, &mut [0u32; 8]));
    let _ = writeln!(out, "  census: {counts}");
}

// Asks where a block lies and how far it was moved.
fn try_block(out: &mut Output, table: &[u32], block: u32) {
    let sector = Told(
        "sector",
        spares::sector_of(drive(), 2, table, &mut [0u32; 8], block),
    );
    let _ = writeln!(out, "  block {block}: {sector}");
    let shift = Told(
        "shift",
        spares::shift(drive(), 2, table, &mut [0u32; 8], block),
    );
    let _ = writeln!(out, "  block {block}: {shift}");
}

// Asks for the block on a sector.
fn try_sector(out: &mut Output, table: &[u32], sector: u32) {
    let block = Block(spares::block_on(drive(), 2, table, &mut [0u32; 8], sector));
    let _ = writeln!(out, "  sector {sector}: {block}");
}

// Block 7 is replaced until no spare is left, and then no block is, whether it lies on a spare or at home.
fn try_life(out: &mut Output) {
    let _ = writeln!(out, "blocks 7, 7, 8, 7, 6, 7, 0, 7");
    let table = try_replace(out, none_replaced(), 7);
    let table = try_replace(out, table, 7);
    let table = try_replace(out, table, 8);
    let table = try_replace(out, table, 7);
    let table = try_replace(out, table, 6);
    let table = try_replace(out, table, 7);
    let table = try_replace(out, table, 0);
    let table = try_replace(out, table, 7);
    try_words(out, table);
    try_census(out, &table);
    try_block(out, &table, 7);
    try_sector(out, &table, 4);
    try_sector(out, &table, 13);
    let same = try_replace(out, table, 7);
    let same = try_replace(out, same, 0);
    let same = try_replace(out, same, 1);
    let same = try_replace(out, same, 11);
    let same = try_replace(out, same, 12);
    try_census(out, &same);
}

// Block 6 moves from place 3 to place 6.
fn try_second(out: &mut Output) {
    let _ = writeln!(out, "blocks 7, 8, 6, 6");
    let table = try_replace(out, none_replaced(), 7);
    let table = try_replace(out, table, 8);
    let table = try_replace(out, table, 6);
    try_block(out, &table, 6);
    let table = try_replace(out, table, 6);
    try_words(out, table);
    try_block(out, &table, 6);
    try_census(out, &table);
}

// A block on a spare beside its primary, which is unusable.
fn try_primary(out: &mut Output) {
    let _ = writeln!(out, "block 7 on place 5, place 4 unusable");
    let mut table = none_replaced();
    table[4] = 0x4000_0000;
    table[5] = 0x3000_0007;
    let after = try_replace(out, table, 7);
    try_words(out, after);
}

// A block on the one spare that is not unusable.
fn try_last(out: &mut Output) {
    let _ = writeln!(out, "block 0 on place 0, the others unusable");
    let mut table = none_replaced();
    table[0] = 0x2000_0000;
    table[1..8].fill(0x4000_0000);
    let same = try_replace(out, table, 0);
    try_words(out, same);
    try_block(out, &same, 0);
}

// Spares, table and block at fault, one after another, with a block that lies on a spare.
fn try_faults(out: &mut Output) {
    let _ = writeln!(out, "block 7 on place 4");
    let table = try_replace(out, none_replaced(), 7);
    let _ = writeln!(out, "five spares to a track of five sectors");
    try_with(out, 5, table, 7);
    let _ = writeln!(out, "block 7 named twice");
    let mut twice = table;
    twice[5] = 0x3000_0007;
    try_replace(out, twice, 7);
    let _ = writeln!(out, "an unusable descriptor that carries a number");
    let mut carried = table;
    carried[5] = 0x4000_0007;
    try_replace(out, carried, 7);
    let _ = writeln!(out, "block 12 of 12");
    try_replace(out, table, 12);
}

fn main() {
    let mut out = Output;
    try_life(&mut out);
    try_second(&mut out);
    try_primary(&mut out);
    try_last(&mut out);
    try_faults(&mut out);
}
