// The smallest page and one byte less, the paper's page byte by byte, each of its fields damaged in turn, and pages that are not written.
#![tactic(auto)]

ghost use Rattle.std.specs.Prelude.{◌<◌};

use std::fmt::Write;
use telling::Output;
use telling::answers::{Paged, Told};
use telling::rows::{Bytes, Entries};

// A page without entries, written into a room that is a byte too short and into one that is a byte longer, and read at several lengths.
fn try_smallest(out: &mut Output) {
    let mut short = [170u8; 13];
    let _ = writeln!(out, "page of 0 entries");
    let length = Told("length", page::write(1, 1, &[], &mut short));
    let _ = writeln!(out, "  written into 13 bytes: {length}");
    let _ = writeln!(out, "  the room:{}", Bytes(&short));
    let mut page = [170u8; 15];
    let length = Told("length", page::write(1, 1, &[], &mut page));
    let _ = writeln!(out, "  written into 15 bytes: {length}");
    let _ = writeln!(out, "  the room:{}", Bytes(&page));
    try_read(out, comparing::first(&page, 14));
    try_read(out, comparing::first(&page, 13));
    try_read(out, &page);
    try_read(out, &[]);
}

// Reads a page into a room of four places, and says how many of them changed.
fn try_read(out: &mut Output, page: &[u8]) {
    let mut room = [99u32; 4];
    let bytes = page.len();
    let paged = Paged(page::read(page, &mut room));
    let changed = comparing::changed(&room, 99);
    let _ = writeln!(out, "  read of {bytes} bytes: {paged}");
    let _ = writeln!(out, "    places changed: {changed}");
}

// The page of the paper.
fn paper_page() -> [u8; 22] {
    let mut page = [0u8; 22];
    let _ = page::write(20, 0, &[3, 7], &mut page);
    page
}

// The page of the paper there and back, and a room for it that is one place too short.
fn try_paper(out: &mut Output) {
    let page = paper_page();
    let _ = writeln!(out, "the paper's page:{}", Bytes(&page));
    let mut short = [9u32; 1];
    let paged = Paged(page::read(&page, &mut short));
    let _ = writeln!(out, "  read into 1 place: {paged}");
    let _ = writeln!(out, "    the room: {}", Entries(&short));
    let mut room = [9u32; 3];
    let paged = Paged(page::read(&page, &mut room));
    let _ = writeln!(out, "  read into 3 places: {paged}");
    let _ = writeln!(out, "    the room: {}", Entries(&room));
}

// The page of the paper with one byte damaged.
fn try_damaged(out: &mut Output, place: usize, byte: u8)
    requires { place < 22 }
{
    let mut page = paper_page();
    page[place] = byte;
    let _ = writeln!(out, " byte {place} set to {byte}");
    try_read(out, &page);
}

// A page of 23 bytes that says so and ends in all ones.
fn try_uneven(out: &mut Output) {
    let mut page = [255u8; 23];
    let _ = page::write(20, 0, &[3, 7], &mut page);
    page[3] = 23;
    let _ = writeln!(out, "a byte more:{}", Bytes(&page));
    try_read(out, &page);
}

// Writes a page into a room of 32 bytes, and says how many of them changed.
fn try_write(out: &mut Output, n: u32, kind: u32, list: &[u32]) {
    let mut room = [170u8; 32];
    let length = Told("length", page::write(n, kind, list, &mut room));
    let changed = comparing::changed(&room, 170);
    let _ = writeln!(out, "write N {n}, kind {kind}, list {}", Entries(list));
    let _ = writeln!(out, "  {length}");
    let _ = writeln!(out, "    bytes changed: {changed}");
}

// Each field damaged in turn.
fn try_fields(out: &mut Output) {
    let _ = writeln!(out, "length");
    try_damaged(out, 3, 23);
    try_damaged(out, 0, 1);
    let _ = writeln!(out, "version");
    try_damaged(out, 4, 0);
    try_damaged(out, 4, 2);
    let _ = writeln!(out, "kind");
    try_damaged(out, 5, 1);
    try_damaged(out, 5, 2);
    let _ = writeln!(out, "N");
    try_damaged(out, 9, 0);
    try_damaged(out, 9, 7);
    try_damaged(out, 9, 8);
    try_damaged(out, 6, 1);
    let _ = writeln!(out, "entries");
    try_damaged(out, 13, 20);
    try_damaged(out, 17, 3);
    try_damaged(out, 17, 20);
    let _ = writeln!(out, "last word");
    try_damaged(out, 18, 0);
    try_damaged(out, 21, 254);
}

fn main() {
    let mut out = Output;
    try_smallest(&mut out);
    try_paper(&mut out);
    try_fields(&mut out);
    try_uneven(&mut out);
    try_write(&mut out, 0, 2, &[3, 7]);
    try_write(&mut out, 16_777_217, 0, &[3, 7]);
    try_write(&mut out, 20, 2, &[7, 3]);
    try_write(&mut out, 20, 256, &[3, 7]);
    try_write(&mut out, 20, 0, &[7, 3]);
    try_write(&mut out, 20, 0, &[3, 20]);
    try_write(&mut out, 20, 0, &[3, 7]);
}
