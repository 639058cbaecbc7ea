// The mode sector: the size is that of the first copy of the format table that says one. Copies that stand before it are forced, damaged, headed otherwise, or have another first word; and there are areas in which no copy says a size.
#![tactic(auto)]

use image::AT_HOME;
use std::fmt::Write;
use telling::Output;
use telling::answers::{Told, Verdict};
use telling::rows::Bytes;
use words::AT_PRIMARY;

// Data bytes of a sector of the XBN area, whatever the drive's other sectors have.
const SIZE: u32 = paper::DATA_SIZE as u32;

// First words of a mode sector: for 512 bytes, for 576, and for neither.
const PLAIN: u16 = 0x0200;

const WIDE: u16 = 0x0240;

const NEITHER: u16 = 0x0201;

// The first sector of a copy: its image, headed by an XBN and a code, good or forced, with a first word and zeros after it.
fn sector_of(xbn: u32, code: u32, word: u16, forced: bool) -> [u8; 530] {
    let mut data = [0u8; 512];
    words::put16(&mut data, 0, word);
    let mut image = [0u8; 530];
    let _ = image::write(SIZE, xbn, code, &data, forced, &mut image);
    image
}

// The same of a good copy.
fn copy_of(xbn: u32, word: u16) -> [u8; 530] {
    sector_of(xbn, AT_HOME, word, false)
}

// The same with a bit of its code turned over.
fn damaged(xbn: u32, word: u16) -> [u8; 530] {
    let mut image = copy_of(xbn, word);
    image[529] ^= 1;
    image
}

// Asks so many bytes of sector images for the size.
fn try_find(out: &mut Output, images: &[u8], bytes: u32, apart: u32) {
    let part = comparing::first(images, bytes);
    let size = Told("size", mode::find(part, apart));
    let _ = writeln!(out, "  bytes {}, apart {apart}: {size}", part.len());
}

// Writes the first word of a sector, and the verdict on it under its XBN.
fn tell_sector(out: &mut Output, xbn: u32, image: &[u8; 530]) {
    let verdict = Verdict(image::judge(SIZE, image, xbn, AT_HOME));
    let _ = writeln!(out, "XBN {xbn}: {verdict}");
    let _ = writeln!(out, "  first word:{}", Bytes(&image[16..18]));
}

// One copy alone: its code, and its size however far apart copies are; none where it is cut short.
fn try_one(out: &mut Output, word: u16) {
    let image = copy_of(0, word);
    tell_sector(out, 0, &image);
    let _ = writeln!(out, "  code:{}", Bytes(&image[528..]));
    try_find(out, &image, 530, 1);
    try_find(out, &image, 530, 7);
    try_find(out, &image, 530, 4_294_967_295);
    try_find(out, &image, 530, 0);
    try_find(out, &image, 529, 1);
}

// No images, and no sector between copies.
fn try_none(out: &mut Output) {
    let _ = writeln!(out, "no images");
    try_find(out, &[], 0, 1);
    try_find(out, &[], 0, 0);
}

// Two sectors one after another.
fn pair_of(out: &mut Output, first: &[u8; 530], second: &[u8; 530]) -> [u8; 1_060] {
    tell_sector(out, 0, first);
    tell_sector(out, 1, second);
    let mut images = [0u8; 1_060];
    images[..530].copy_from_slice(first);
    images[530..].copy_from_slice(second);
    images
}

// The first copy says no size, and the second does.
fn try_second(out: &mut Output, first: &[u8; 530], word: u16) {
    let images = pair_of(out, first, &copy_of(1, word));
    try_find(out, &images, 1_060, 1);
}

// Copies from which one goes on to the next: another first word, a header with another code, and a bit that turned over.
fn try_next(out: &mut Output) {
    try_second(out, &copy_of(0, NEITHER), PLAIN);
    try_second(out, &sector_of(0, AT_PRIMARY, PLAIN, false), WIDE);
    try_second(out, &damaged(0, PLAIN), WIDE);
}

// No copy says a size: the second is headed by the first one's XBN.
fn try_headed(out: &mut Output) {
    let images = pair_of(out, &damaged(0, PLAIN), &copy_of(0, WIDE));
    try_find(out, &images, 1_060, 1);
}

// The only good sector lies where no copy begins, or is cut short.
fn try_missed(out: &mut Output) {
    let images = pair_of(out, &damaged(0, PLAIN), &copy_of(1, WIDE));
    try_find(out, &images, 1_060, 2);
    try_find(out, &images, 1_059, 1);
}

// Two sectors and a third after them.
fn three_of(two: &[u8; 1_060], third: &[u8; 530]) -> [u8; 1_590] {
    let mut images = [0u8; 1_590];
    images[..1_060].copy_from_slice(two);
    images[1_060..].copy_from_slice(third);
    images
}

// Three sectors, of which the first is forced. The sector between the copies says another size, and is asked only where copies are one apart.
fn try_forced(out: &mut Output) {
    let two = pair_of(out, &sector_of(0, AT_HOME, PLAIN, true), &copy_of(1, PLAIN));
    let third = copy_of(2, WIDE);
    tell_sector(out, 2, &third);
    let images = three_of(&two, &third);
    try_find(out, &images, 1_590, 2);
    try_find(out, &images, 1_590, 1);
}

fn main() {
    let mut out = Output;
    try_one(&mut out, WIDE);
    try_one(&mut out, PLAIN);
    try_none(&mut out);
    try_next(&mut out);
    try_headed(&mut out);
    try_missed(&mut out);
    try_forced(&mut out);
}
