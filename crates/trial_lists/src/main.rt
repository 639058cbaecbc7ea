// The limit of a list: 65,536 entries and one more, asked of the translation, of a job and of a page.
#![tactic(auto)]

ghost use Rattle.std.specs.Prelude.{◌<◌};

use skip::Cursor;
use std::fmt::Write;
use telling::Output;
use telling::answers::{Paged, Told};
use telling::rows::Bytes;

// The cursor of a block and a skipped count.
fn cursor(block: u32, skipped: u32) -> Cursor {
    Cursor { block, skipped }
}

// The first and the last block and sector, and one more of each.
fn try_ends(out: &mut Output, n: u32, list: &[u32], blocks: u32)
    requires lt_n { 1 < n }
    requires blocks_nonzero { 0 < blocks }
{
    telling::asking::space(out, n, list);
    telling::asking::block(out, n, list, 0);
    telling::asking::block(out, n, list, blocks - 1);
    telling::asking::block(out, n, list, blocks);
    telling::asking::sector(out, n, list, 0);
    telling::asking::sector(out, n, list, n - 2);
    telling::asking::sector(out, n, list, n - 1);
    telling::asking::sector(out, n, list, n);
}

// A job that opens two blocks before the end and steps past it.
fn try_job(out: &mut Output, n: u32, list: &[u32], blocks: u32)
    requires { 1 < blocks }
{
    let first = telling::asking::start(out, n, list, blocks - 2);
    let second = telling::asking::step(out, n, list, first);
    let end = telling::asking::step(out, n, list, second);
    let still = telling::asking::step(out, n, list, end);
    telling::asking::check(out, n, list, still);
    telling::asking::start(out, n, list, blocks);
}

// Every second sector is bad, up to the last but one.
fn try_seconds(out: &mut Output, list: &[u32]) {
    try_ends(out, 131_072, list, 65_536);
    try_job(out, 131_072, list, 65_536);
    telling::asking::check(out, 131_072, list, cursor(65_536, 65_535));
    telling::asking::check(out, 131_072, list, cursor(65_537, 65_536));
}

// All bad sectors stand before the four blocks: one step passes them all.
fn try_run_before(out: &mut Output) {
    let mut list = [0u32; 65_536];
    comparing::spread(&mut list, 0, 1);
    try_ends(out, 65_540, &list, 4);
    let first = telling::asking::start(out, 65_540, &list, 0);
    telling::asking::step(out, 65_540, &list, first);
    try_job(out, 65_540, &list, 4);
}

// All bad sectors stand after the four blocks: the cursor at the end has passed none.
fn try_run_after(out: &mut Output) {
    let mut list = [0u32; 65_536];
    comparing::spread(&mut list, 4, 1);
    try_ends(out, 65_540, &list, 4);
    try_job(out, 65_540, &list, 4);
    telling::asking::check(out, 65_540, &list, cursor(4, 65_536));
}

// A list that every call refuses.
fn try_refused(out: &mut Output, n: u32, list: &[u32]) {
    telling::asking::space(out, n, list);
    telling::asking::block(out, n, list, 0);
    telling::asking::sector(out, n, list, 0);
    telling::asking::start(out, n, list, 0);
    telling::asking::check(out, n, list, cursor(0, 0));
    telling::asking::step(out, n, list, cursor(1, 1));
}

// The last entry is the one before it again, or one that the drive does not have.
fn try_last_place(out: &mut Output, list: [u32; 65_536]) {
    let mut other = list;
    other[65_535] = 131_068;
    let _ = writeln!(out, "the last entry falls");
    try_refused(out, 131_072, &other);
    other[65_535] = 131_072;
    let _ = writeln!(out, "the last entry strays");
    try_refused(out, 131_072, &other);
}

// Writes a page of a list, and says how many bytes of the room, which was full of ones, changed.
fn try_write(out: &mut Output, n: u32, list: &[u32], room: &mut [u8]) {
    let entries = list.len();
    let bytes = room.len();
    let length = Told("length", page::write(n, 1, list, room));
    let changed = comparing::changed(room, 255);
    let _ = writeln!(
        out,
        "page of {entries} entries written into {bytes} bytes: {length}"
    );
    let _ = writeln!(out, "  bytes changed: {changed}");
}

// Reads a page, and says how many places of the room, which held no entry, changed.
fn try_read(out: &mut Output, page: &[u8], room: &mut [u32]) {
    let bytes = page.len();
    let places = room.len();
    let paged = Paged(page::read(page, room));
    let changed = comparing::changed(room, 999_999);
    let _ = writeln!(
        out,
        "page of {bytes} bytes read into {places} places: {paged}"
    );
    let _ = writeln!(out, "  places changed: {changed}");
}

// The longest page there and back, and rooms for it that are one byte and one entry too short.
fn try_page(out: &mut Output, list: &[u32]) {
    let mut page = [255u8; 262_158];
    try_write(out, 131_072, list, &mut [255u8; 262_157]);
    try_write(out, 131_072, list, &mut page);
    let mut back = [999_999u32; 65_537];
    try_read(out, &page, &mut [999_999u32; 65_535]);
    try_read(out, &page, &mut back);
    let differing = comparing::differing(comparing::first(&back, 65_536), list);
    let _ = writeln!(out, "  entries that differ from the list: {differing}");
}

// A page of one entry more is not written; made by hand with the last entry 131072, it is not read.
fn try_long_page(out: &mut Output, list: &[u32]) {
    let mut page = [255u8; 262_162];
    try_write(out, 262_144, list, &mut page);
    try_write(out, 262_144, comparing::first(list, 65_536), &mut page);
    page[3] = 18;
    page[262_154] = 0;
    page[262_155] = 2;
    page[262_156] = 0;
    page[262_157] = 0;
    let length = Bytes(comparing::first(&page, 4));
    let _ = writeln!(out, "made longer by hand, its length:{length}");
    try_read(out, &page, &mut [999_999u32; 65_537]);
}

fn main() {
    let mut out = Output;
    let mut list = [0u32; 65_536];
    comparing::spread(&mut list, 0, 2);
    try_seconds(&mut out, &list);
    try_run_before(&mut out);
    try_run_after(&mut out);
    try_last_place(&mut out, list);
    try_page(&mut out, &list);
    let mut long = [0u32; 65_537];
    comparing::spread(&mut long, 0, 2);
    try_refused(&mut out, 16_777_216, &long);
    try_long_page(&mut out, &long);
}
