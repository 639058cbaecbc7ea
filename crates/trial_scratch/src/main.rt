// Bigger drives and their scratch: the customer's drive of 14,080 spares until none is left, two blocks with one mark in two windows, and scratch that is too short, full of ones, and longer than it must be; and reads, also at a size that no sector has.
#![tactic(auto)]

use shape::Shape;
use std::fmt::Write;
use telling::Output;
use telling::answers::{Counts, Told, Verdict};
use telling::rows::Entries;
use telling::shapes::Numbers;

// The customer's drive, with one spare to a track.
fn customer() -> Shape {
    telling::shapes::ungrouped(880, 16, 53)
}

// Writes the first table of a list, and its census.
fn try_first(out: &mut Output, shape: Shape, list: &[u32], table: &mut [u32], scratch: &mut [u32]) {
    let bad = list.len();
    let length = Told("length", spares::first_table(shape, 1, list, table));
    let _ = writeln!(out, "  first table of {bad} bad sectors: {length}");
    let counts = Counts(spares::census(shape, 1, table, scratch));
    let _ = writeln!(out, "  census: {counts}");
}

// Replaces a block.
fn try_replace(out: &mut Output, shape: Shape, table: &mut [u32], scratch: &mut [u32], block: u32) {
    let place = Told("place", spares::replace(shape, 1, table, scratch, block));
    let _ = writeln!(out, "  replace block {block}: {place}");
}

// Asks where a block lies.
fn try_block(out: &mut Output, shape: Shape, table: &[u32], scratch: &mut [u32], block: u32) {
    let sector = Told("sector", spares::sector_of(shape, 1, table, scratch, block));
    let _ = writeln!(out, "  block {block}: {sector}");
}

// Three blocks one after another.
fn try_three(
    out: &mut Output,
    table: &mut [u32],
    scratch: &mut [u32],
    first: u32,
    second: u32,
    third: u32,
) {
    try_replace(out, customer(), table, scratch, first);
    try_replace(out, customer(), table, scratch, second);
    try_replace(out, customer(), table, scratch, third);
}

// The customer's drive with no bad sector: blocks of the last track, blocks of the track with which the second table block begins, and blocks of the track before it; and with a bad sector on every track, so that no spare is left.
fn try_customer(out: &mut Output) {
    let mut table = [7u32; 14_080];
    let mut scratch = [1u32; 14_080];
    let _ = writeln!(out, "shape {}", Numbers(customer()));
    try_first(out, customer(), &[], &mut table, &mut scratch);
    try_three(out, &mut table, &mut scratch, 732_159, 732_158, 732_157);
    try_three(out, &mut table, &mut scratch, 6_656, 6_657, 6_658);
    try_three(out, &mut table, &mut scratch, 6_604, 6_605, 732_160);
    let _ = writeln!(out, "  descriptor 14079: {:08x}", table[14_079]);
    let mut list = [0u32; 14_080];
    comparing::spread(&mut list, 0, 53);
    try_first(out, customer(), &list, &mut table, &mut scratch);
    try_replace(out, customer(), &mut table, &mut scratch, 1);
    let changed = comparing::changed(&scratch, 0);
    let _ = writeln!(out, "  numbers of the scratch that are not 0: {changed}");
}

// The largest drive with one spare to a track.
fn largest() -> Shape {
    telling::shapes::ungrouped(4_096, 16, 64)
}

// Blocks 5 and 2,097,157 have bit 5 of the first number, each in a window of its own. The last block is named twice.
fn try_windows(out: &mut Output) {
    let mut table = [7u32; 65_536];
    let mut scratch = [1u32; 65_536];
    let _ = writeln!(out, "shape {}", Numbers(largest()));
    try_first(out, largest(), &[], &mut table, &mut scratch);
    try_replace(out, largest(), &mut table, &mut scratch, 5);
    try_replace(out, largest(), &mut table, &mut scratch, 2_097_157);
    try_replace(out, largest(), &mut table, &mut scratch, 4_128_767);
    try_block(out, largest(), &table, &mut scratch, 5);
    try_block(out, largest(), &table, &mut scratch, 2_097_157);
    table[1] = 0x303E_FFFF;
    let _ = writeln!(out, "  the last block is named twice");
    try_block(out, largest(), &table, &mut scratch, 5);
    let changed = comparing::changed(&scratch, 0);
    let _ = writeln!(out, "  numbers of the scratch that are not 0: {changed}");
}

// Eight spares.
fn small() -> Shape {
    telling::shapes::ungrouped(2, 4, 5)
}

// The first table of a list, for eight spares.
fn table_of(list: &[u32]) -> [u32; 128] {
    let mut table = [0u32; 128];
    let _ = spares::first_table(small(), 1, list, &mut table);
    table
}

// A table that names block 0 twice.
fn twice() -> [u32; 128] {
    let mut table = table_of(&[0]);
    table[1] = 0x3000_0000;
    table
}

// Asks where a block lies with scratch that holds ones, and writes what it holds then.
fn try_ones(out: &mut Output, table: &[u32], scratch: &mut [u32], block: u32) {
    let sector = Told(
        "sector",
        spares::sector_of(small(), 1, table, scratch, block),
    );
    let _ = writeln!(
        out,
        "  scratch of {}, block {block}: {sector}",
        scratch.len()
    );
    let _ = writeln!(out, "    {}", Entries(scratch));
}

// A good table and a broken one, and a block that the drive has and one that it has not.
fn try_seven(out: &mut Output) {
    let _ = writeln!(out, "scratch that is one number too short");
    try_ones(out, &table_of(&[0]), &mut [1u32; 7], 0);
    try_ones(out, &twice(), &mut [1u32; 7], 0);
    try_ones(out, &table_of(&[0]), &mut [1u32; 7], 32);
}

// The same with a number for each spare.
fn try_eight(out: &mut Output) {
    let _ = writeln!(out, "a number for each spare");
    try_ones(out, &table_of(&[0]), &mut [1u32; 8], 0);
    try_ones(out, &twice(), &mut [1u32; 8], 0);
    try_ones(out, &table_of(&[0]), &mut [1u32; 8], 32);
}

// And with three more.
fn try_eleven(out: &mut Output) {
    let _ = writeln!(out, "three numbers more");
    try_ones(out, &table_of(&[0]), &mut [1u32; 11], 0);
    try_ones(out, &twice(), &mut [1u32; 11], 0);
}

// No spare is left: every track has a bad home sector.
fn try_full(out: &mut Output) {
    let mut list = [0u32; 8];
    comparing::spread(&mut list, 0, 5);
    let mut table = table_of(&list);
    let mut scratch = [1u32; 8];
    let _ = writeln!(out, "no spare is left");
    try_replace(out, small(), &mut table, &mut scratch, 1);
    let _ = writeln!(out, "    {}", Entries(&scratch));
}

// Reads from track images without a byte at a size.
fn try_read(out: &mut Output, size: u32, scratch: &mut [u32]) {
    let table = table_of(&[0]);
    let verdict = Verdict(reading::judge(size, small(), 1, &table, scratch, 0, &[], &[]));
    let _ = writeln!(
        out,
        "  size {size}, scratch of {}, block 0: {verdict}",
        scratch.len()
    );
    let _ = writeln!(out, "    {}", Entries(scratch));
}

// The images are refused for their length, and the scratch is used for that; a size that no sector has is refused before, and the scratch is as it was.
fn try_images(out: &mut Output) {
    let _ = writeln!(out, "images of the wrong length");
    try_read(out, 512, &mut [1u32; 8]);
    try_read(out, 576, &mut [1u32; 8]);
    try_read(out, 575, &mut [1u32; 8]);
    try_read(out, 575, &mut [1u32; 7]);
}

// More spares than a drive may have, and no scratch at all.
fn try_none(out: &mut Output) {
    let _ = writeln!(out, "65538 spares and no scratch");
    let shape = telling::shapes::ungrouped(1_986, 33, 2);
    let counts = Counts(spares::census(shape, 1, &[], &mut []));
    let _ = writeln!(out, "  census: {counts}");
}

fn main() {
    let mut out = Output;
    try_customer(&mut out);
    try_windows(&mut out);
    try_seven(&mut out);
    try_eight(&mut out);
    try_eleven(&mut out);
    try_full(&mut out);
    try_images(&mut out);
    try_none(&mut out);
}
