// The image of a sector at each of the two sizes: the code of some data; each part damaged, other lengths, each of the three codes and others, and writes that are refused. Then the images of one size at the other, and sizes that no sector has.
#![tactic(auto)]

ghost use Rattle.std.specs.Prelude.{◌<◌, ◌≤◌};

use image::{AT_HOME, Head};
use std::fmt::Write;
use telling::Output;
use telling::answers::{Coded, Header, Told, Verdict};
use telling::rows::Bytes;
use telling::sizes::{DataSize, PLAIN, WIDE};
use words::{AT_PRIMARY, ELSEWHERE};

// The block whose image is damaged.
const BLOCK: u32 = 6;

// The block of the trials on codes.
const CODED: u32 = 7;

// The first block that no header can carry.
const TOO_LARGE: u32 = 268_435_456;

// A code that no header has.
const FOURTH: u32 = 1;

// The image of the block at home whose data begins with 82 and is zero after it, in the first bytes of the room.
fn image_of(size: DataSize, forced: bool) -> [u8; 594] {
    let mut data = [0u8; 576];
    data[0] = 82;
    let mut room = [0u8; 594];
    let data = comparing::first(&data, size.bytes);
    let _ = image::write(size.bytes, BLOCK, AT_HOME, data, forced, &mut room);
    room
}

// The image in the first bytes of a room.
fn cut(size: DataSize, room: &[u8]) -> &[u8] {
    comparing::first(room, size.bytes + 18)
}

// Asks an image for its verdict and its data as the image of a block with a code.
fn try_judge(out: &mut Output, size: u32, image: &[u8], block: u32, code: u32) {
    let head = Coded(Head { code, block });
    let verdict = Verdict(image::judge(size, image, block, code));
    let bytes = image::data(size, image, block, code).len();
    let _ = writeln!(out, "  judged as {head}: {verdict}");
    let _ = writeln!(out, "  data bytes: {bytes}");
}

// Asks an image for its header, and for its verdict and its data as the image of a block with a code.
fn try_coded(out: &mut Output, size: u32, image: &[u8], block: u32, code: u32) {
    let header = Header(image::header(size, image));
    let _ = writeln!(out, "  header: {header}");
    try_judge(out, size, image, block, code);
}

// The same of the image in the first bytes of a room, as that of a block at home.
fn try_image(out: &mut Output, size: DataSize, room: &[u8], block: u32) {
    try_coded(out, size.bytes, cut(size, room), block, AT_HOME);
}

// Writes the two bytes of the code of an image.
fn tell_code(out: &mut Output, words: &str, size: DataSize, image: &[u8; 594]) {
    let at = size.bytes as usize + 16;
    let _ = writeln!(out, "{words}{}", Bytes(&image[at..at + 2]));
}

// An image with some bits of one byte turned over.
fn try_turned(out: &mut Output, size: DataSize, part: &str, place: u32, bits: u8)
    requires { place < 594 }
{
    let mut image = image_of(size, false);
    image[place as usize] ^= bits;
    let _ = writeln!(out, "{part}: byte {place} turned by {bits}");
    try_image(out, size, &image, BLOCK);
}

// Each part of an image with a bit turned over.
fn try_parts(out: &mut Output, size: DataSize) {
    try_turned(out, size, "first copy", 3, 1);
    try_turned(out, size, "second copy", 7, 1);
    try_turned(out, size, "third copy", 8, 128);
    try_turned(out, size, "fourth copy", 15, 1);
    try_turned(out, size, "first data byte", 16, 1);
    try_turned(out, size, "last data byte", size.bytes + 15, 128);
    try_turned(out, size, "first code byte", size.bytes + 16, 1);
    try_turned(out, size, "last code byte", size.bytes + 17, 128);
}

// Two copies name one other block, two copies name two others, and three copies name one other.
fn try_copies(out: &mut Output, size: DataSize) {
    let mut image = image_of(size, false);
    image[3] = 7;
    image[15] = 7;
    let _ = writeln!(out, "two copies name block 7");
    try_image(out, size, &image, BLOCK);
    image[15] = 8;
    let _ = writeln!(out, "one copy names block 7, one block 8");
    try_image(out, size, &image, BLOCK);
    image[7] = 7;
    image[15] = 7;
    let _ = writeln!(out, "three copies name block 7");
    try_image(out, size, &image, BLOCK);
    try_image(out, size, &image, 7);
}

// The complement of the code, turned by hand and written as forced.
fn try_complement(out: &mut Output, size: DataSize) {
    let mut image = image_of(size, false);
    let at = size.bytes as usize + 16;
    image[at] ^= 255;
    image[at + 1] ^= 255;
    let _ = writeln!(out, "both code bytes turned by 255");
    try_image(out, size, &image, BLOCK);
    let _ = writeln!(out, "written as forced");
    try_image(out, size, &image_of(size, true), BLOCK);
}

// An image of so many bytes as that of the block.
fn try_length(out: &mut Output, size: u32, room: &[u8], long: u32) {
    let _ = writeln!(out, "{long} bytes of it");
    try_coded(out, size, comparing::first(room, long), BLOCK, AT_HOME);
}

// An image one byte too short and one byte too long.
fn try_lengths(out: &mut Output, size: DataSize) {
    let mut room = [0u8; 595];
    let data = [82u8; 576];
    let data = comparing::first(&data, size.bytes);
    let length = Told(
        "length",
        image::write(size.bytes, BLOCK, AT_HOME, data, false, &mut room),
    );
    let _ = writeln!(out, "written into 595 bytes: {length}");
    try_length(out, size.bytes, &room, size.bytes + 18);
    try_length(out, size.bytes, &room, size.bytes + 17);
    try_length(out, size.bytes, &room, size.bytes + 19);
}

// The image of a block with a code whose data is zeros, and what it says.
fn try_zeros(out: &mut Output, size: DataSize, block: u32, code: u32) {
    let mut image = [0u8; 594];
    let data = [0u8; 576];
    let head = Coded(Head { code, block });
    let data = comparing::first(&data, size.bytes);
    let length = Told(
        "length",
        image::write(size.bytes, block, code, data, false, &mut image),
    );
    let _ = writeln!(out, "zeros written as {head}: {length}");
    let _ = writeln!(
        out,
        "  header bytes:{}",
        Bytes(comparing::first(&image, 16))
    );
    tell_code(out, "  code of the data:", size, &image);
    try_coded(out, size.bytes, cut(size, &image), block, code);
}

// Each of the three codes, and the last block that a header can carry.
fn try_codes(out: &mut Output, size: DataSize) {
    try_zeros(out, size, CODED, AT_HOME);
    try_zeros(out, size, CODED, AT_PRIMARY);
    try_zeros(out, size, TOO_LARGE - 1, ELSEWHERE);
}

// The image of the block with four copies of numbers, of which the first two are alike.
fn image_with(size: DataSize, twice: u32, third: u32, fourth: u32) -> [u8; 594] {
    let mut image = image_of(size, false);
    words::put32(&mut image, 0, twice);
    words::put32(&mut image, 4, twice);
    words::put32(&mut image, 8, third);
    words::put32(&mut image, 12, fourth);
    image
}

// Asks an image with such copies for its header, and for its verdict and its data as the image of a block with a code.
fn try_header(
    out: &mut Output,
    size: DataSize,
    twice: u32,
    third: u32,
    fourth: u32,
    block: u32,
    code: u32,
) {
    let _ = writeln!(
        out,
        "copies {twice:08x} {twice:08x} {third:08x} {fourth:08x}"
    );
    try_coded(
        out,
        size.bytes,
        cut(size, &image_with(size, twice, third, fourth)),
        block,
        code,
    );
}

// Three copies of a number, two and two, and numbers whose code no header has.
fn try_headers(out: &mut Output, size: DataSize) {
    try_header(out, size, 0x3000_0007, 0x3000_0007, 7, CODED, ELSEWHERE);
    try_header(out, size, 0x2000_0007, 7, 7, CODED, AT_PRIMARY);
    try_header(
        out,
        size,
        0x1000_0007,
        0x1000_0007,
        0x1000_0007,
        CODED,
        FOURTH,
    );
    try_header(out, size, 0x8000_0000, 0x8000_0000, 0x8000_0000, 0, 8);
    try_header(
        out,
        size,
        0xFFFF_FFFF,
        0xFFFF_FFFF,
        0xFFFF_FFFF,
        TOO_LARGE - 1,
        15,
    );
}

// The image of a block at its primary is that of no other code. Code 1 and a block that is 2²⁸ larger add up to the same number, and are refused too.
fn try_pairs(out: &mut Output, size: DataSize) {
    let room = image_with(size, 0x2000_0007, 0x2000_0007, 0x2000_0007);
    let image = cut(size, &room);
    let _ = writeln!(out, "copies 20000007 20000007 20000007 20000007");
    try_coded(out, size.bytes, image, CODED, AT_PRIMARY);
    try_judge(out, size.bytes, image, CODED, AT_HOME);
    try_judge(out, size.bytes, image, CODED, FOURTH);
    try_judge(out, size.bytes, image, CODED, ELSEWHERE);
    try_judge(out, size.bytes, image, TOO_LARGE + CODED, FOURTH);
}

// Writes data into a room, and says how many of its bytes changed.
fn try_write_in(out: &mut Output, size: u32, block: u32, code: u32, data: &[u8], room: &mut [u8]) {
    let head = Coded(Head { code, block });
    let bytes = data.len();
    let places = room.len();
    let length = Told("length", image::write(size, block, code, data, false, room));
    let changed = comparing::changed(room, 170);
    let _ = writeln!(
        out,
        "size {size}, {head}, data of {bytes} written into {places}: {length}"
    );
    let _ = writeln!(out, "  bytes changed: {changed}");
}

// Writes so many bytes of data into so many of a room.
fn try_write(out: &mut Output, size: u32, block: u32, code: u32, bytes: u32, places: u32)
    requires { places ≤ 594 }
{
    let data = [82u8; 577];
    let mut room = [170u8; 594];
    try_write_in(
        out,
        size,
        block,
        code,
        comparing::first(&data, bytes),
        &mut room[..places as usize],
    );
}

// Writes that are refused, of which the data's length goes before the room's, and one that is not.
fn try_writes(out: &mut Output, size: DataSize) {
    let bytes = size.bytes;
    try_write(out, bytes, BLOCK, AT_HOME, bytes - 1, bytes + 18);
    try_write(out, bytes, BLOCK, AT_HOME, bytes + 1, bytes + 18);
    try_write(out, bytes, BLOCK, AT_HOME, bytes - 1, bytes + 17);
    try_write(out, bytes, BLOCK, AT_HOME, bytes, bytes + 17);
    try_write(out, bytes, BLOCK, AT_HOME, bytes, bytes + 18);
}

// The data's length goes before the block, the block before the code, and the code before the room.
fn try_coded_writes(out: &mut Output, size: DataSize) {
    let bytes = size.bytes;
    try_write(out, bytes, TOO_LARGE, FOURTH, bytes - 1, bytes + 18);
    try_write(out, bytes, TOO_LARGE, FOURTH, bytes, bytes + 18);
    try_write(out, bytes, CODED, FOURTH, bytes, bytes + 17);
    try_write(out, bytes, CODED, 15, bytes, bytes + 18);
    try_write(out, bytes, CODED, AT_PRIMARY, bytes, bytes + 17);
}

// Fills a row with words, each 1,000 more than the one before it, modulo 2¹⁶.
fn thousands(row: &mut [u8]) {
    let mut word = 0u16;
    for pair in row.chunks_exact_mut(2) {
        pair.copy_from_slice(&word.to_be_bytes());
        word = word.wrapping_add(1_000);
    }
}

// The code that the image of data carries, and the verdict on it.
fn try_code(out: &mut Output, words: &str, size: DataSize, data: &[u8], forced: bool) {
    let mut image = [0u8; 594];
    let data = comparing::first(data, size.bytes);
    let _ = image::write(size.bytes, CODED, AT_HOME, data, forced, &mut image);
    tell_code(out, words, size, &image);
    try_judge(out, size.bytes, cut(size, &image), CODED, AT_HOME);
}

// The same of data that is good and of data that was bad when it was written.
fn try_data(out: &mut Output, words: &str, size: DataSize, data: &[u8]) {
    let _ = writeln!(out, "{words}");
    try_code(out, "  code:", size, data, false);
    try_code(out, "  forced:", size, data, true);
}

// Zeros, and zeros with a one in the first word or in the last.
fn try_ones(out: &mut Output, size: DataSize) {
    let mut data = [0u8; 576];
    try_data(out, "zeros", size, &data);
    data[1] = 1;
    try_data(out, "the first word 0001", size, &data);
    data[1] = 0;
    data[size.bytes as usize - 1] = 1;
    try_data(out, "the last word 0001", size, &data);
}

// Words of which each is 1,000 more than the one before it.
fn try_thousands(out: &mut Output, size: DataSize) {
    let mut data = [0u8; 576];
    thousands(&mut data);
    try_data(out, "word i is 1000 i", size, &data);
}

// All of it at one size.
fn try_at(out: &mut Output, size: DataSize) {
    let _ = writeln!(out, "size {}", size.bytes);
    try_ones(out, size);
    try_thousands(out, size);
    let image = image_of(size, false);
    tell_code(out, "whole, its code:", size, &image);
    try_image(out, size, &image, BLOCK);
    try_parts(out, size);
    try_copies(out, size);
    try_complement(out, size);
    try_lengths(out, size);
    try_codes(out, size);
    try_headers(out, size);
    try_pairs(out, size);
    try_writes(out, size);
    try_coded_writes(out, size);
}

// Says how long an image is, and asks it at a size.
fn try_long(out: &mut Output, size: u32, image: &[u8], block: u32, code: u32) {
    let _ = writeln!(out, "image of {} at size {size}", image.len());
    try_coded(out, size, image, block, code);
}

// Data of the one size is refused at the other, and so is the image of the one, which is good at its own.
fn try_other(out: &mut Output, size: DataSize, own: DataSize) {
    try_write(out, size.bytes, BLOCK, AT_HOME, own.bytes, 594);
    try_long(
        out,
        size.bytes,
        cut(own, &image_of(own, false)),
        BLOCK,
        AT_HOME,
    );
}

// A size that no sector has is refused first: where all else is right, and where all else is wrong.
fn try_wrong(out: &mut Output, size: u32) {
    try_write(out, size, BLOCK, AT_HOME, PLAIN.bytes, 594);
    try_write(out, size, TOO_LARGE, FOURTH, 1, 17);
    try_long(
        out,
        size,
        cut(PLAIN, &image_of(PLAIN, false)),
        BLOCK,
        AT_HOME,
    );
    try_long(out, size, &image_of(WIDE, false), BLOCK, AT_HOME);
    try_long(out, size, &[], TOO_LARGE, FOURTH);
}

// Sizes that no sector has.
fn try_sizes(out: &mut Output) {
    try_wrong(out, 0);
    try_wrong(out, PLAIN.bytes - 1);
    try_wrong(out, PLAIN.bytes + 1);
    try_wrong(out, WIDE.bytes - 1);
    try_wrong(out, WIDE.bytes + 1);
    try_wrong(out, 4_294_967_295);
}

fn main() {
    let mut out = Output;
    try_at(&mut out, PLAIN);
    try_at(&mut out, WIDE);
    try_other(&mut out, WIDE, PLAIN);
    try_other(&mut out, PLAIN, WIDE);
    try_sizes(&mut out);
}
