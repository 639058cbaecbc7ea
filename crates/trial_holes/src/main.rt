// Free places before a block: on a drive of eight spares, C 2, H 2, S 5 with two to a track, and on one of 260 in three table blocks, C 260, H 1, S 3 with one to a track.
#![tactic(auto)]

use shape::Shape;
use std::fmt::Write;
use telling::Output;
use telling::answers::Told;

fn small() -> Shape {
    telling::shapes::ungrouped(2, 2, 5)
}

fn tall() -> Shape {
    telling::shapes::ungrouped(260, 1, 3)
}

// The table of the small drive with words at places 3, 4 and 5, and the others free.
fn holding(third: u32, fourth: u32, fifth: u32) -> [u32; 128] {
    let mut table = [7u32; 128];
    let _ = spares::first_table(small(), 2, &[], &mut table);
    table[3] = third;
    table[4] = fourth;
    table[5] = fifth;
    table
}

// Asks where a block of the small drive lies, and says how many numbers of the scratch are not 0 after it.
fn try_small(out: &mut Output, table: [u32; 128], block: u32) {
    let mut scratch = [1u32; 8];
    let sector = Told(
        "sector",
        spares::sector_of(small(), 2, &table, &mut scratch, block),
    );
    let changed = comparing::changed(&scratch, 0);
    let _ = writeln!(
        out,
        "  {:08x}, {:08x}, {:08x} at places 3, 4, 5; block {block}: {sector}",
        table[3], table[4], table[5]
    );
    let _ = writeln!(out, "    numbers of the scratch that are not 0: {changed}");
}

// The same with scratch that is one number too short.
fn try_short(out: &mut Output, table: [u32; 128], block: u32) {
    let mut scratch = [1u32; 7];
    let sector = Told(
        "sector",
        spares::sector_of(small(), 2, &table, &mut scratch, block),
    );
    let changed = comparing::changed(&scratch, 1);
    let _ = writeln!(out, "  scratch of seven numbers; block {block}: {sector}");
    let _ = writeln!(out, "    numbers of the scratch that are not 1: {changed}");
}

// On either side of the primary, which is place 4 for blocks 6, 7 and 8.
fn try_sides(out: &mut Output) {
    let _ = writeln!(out, "eight spares");
    try_small(out, holding(0, 0, 0x3000_0007), 7);
    try_short(out, holding(0, 0, 0x3000_0007), 7);
    try_small(out, holding(0, 0x4000_0000, 0x3000_0007), 7);
    try_small(out, holding(0x3000_0008, 0x2000_0007, 0), 8);
    try_small(out, holding(0x3000_0008, 0x2000_0007, 0x4000_0000), 8);
    try_small(out, holding(0x3000_0006, 0x2000_0007, 0x3000_0008), 6);
    let _ = writeln!(out, "a block named twice, and a free place");
    try_small(out, holding(0x3000_0007, 0x2000_0007, 0), 7);
}

// The table of the tall drive with every spare unusable.
fn unusable() -> [u32; 384] {
    let mut list = [0u32; 260];
    comparing::spread(&mut list, 2, 3);
    let mut table = [7u32; 384];
    let _ = spares::first_table(tall(), 1, &list, &mut table);
    table
}

// Asks where a block of the tall drive lies.
fn try_tall(out: &mut Output, words: &str, table: [u32; 384], block: u32) {
    let mut scratch = [1u32; 260];
    let sector = Told(
        "sector",
        spares::sector_of(tall(), 1, &table, &mut scratch, block),
    );
    let changed = comparing::changed(&scratch, 0);
    let _ = writeln!(out, "  {words}; block {block}: {sector}");
    let _ = writeln!(out, "    numbers of the scratch that are not 0: {changed}");
}

// A place of a later table block.
fn try_later(out: &mut Output) {
    let _ = writeln!(out, "260 spares, block 0 on place 256, all others unusable");
    let mut table = unusable();
    table[256] = 0x3000_0000;
    try_tall(out, "none free", table, 0);
    table[257] = 0;
    try_tall(out, "place 257 free", table, 0);
    table[200] = 0;
    try_tall(out, "places 200 and 257 free", table, 0);
}

// A place of an earlier table block; place 259 is the last before null.
fn try_earlier(out: &mut Output) {
    let _ = writeln!(
        out,
        "block 400, of primary 200, on place 5, all others unusable"
    );
    let mut table = unusable();
    table[5] = 0x3000_0190;
    try_tall(out, "none free", table, 400);
    table[6] = 0;
    try_tall(out, "place 6 free", table, 400);
    let mut last = table;
    last[259] = 0;
    try_tall(out, "places 6 and 259 free", last, 400);
    table[4] = 0;
    try_tall(out, "places 4 and 6 free", table, 400);
}

// The longest way inside a table block, to either side.
fn try_farthest(out: &mut Output) {
    let _ = writeln!(out, "block 0 on place 127, all others unusable");
    let mut table = unusable();
    table[127] = 0x3000_0000;
    table[128] = 0;
    try_tall(out, "place 128 free", table, 0);
    table[126] = 0;
    try_tall(out, "places 126 and 128 free", table, 0);
    let _ = writeln!(
        out,
        "block 254, of primary 127, on place 0, all others unusable"
    );
    let mut table = unusable();
    table[0] = 0x3000_00FE;
    table[128] = 0;
    try_tall(out, "place 128 free", table, 254);
    table[1] = 0;
    try_tall(out, "places 1 and 128 free", table, 254);
}

fn main() {
    let mut out = Output;
    try_sides(&mut out);
    try_later(&mut out);
    try_earlier(&mut out);
    try_farthest(&mut out);
}
