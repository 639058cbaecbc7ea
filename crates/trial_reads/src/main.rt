// Reads at each of the two sizes: of blocks with each code in the header; of a replaced block through two track images of which the home's is out of date, and each of them damaged in turn; and with wrong groups. Then reads from the images of one size at the other, and at sizes that no sector has. Last the tracks that are to be fetched for a read.
#![tactic(auto)]

ghost use Rattle.std.specs.Prelude.{◌≤◌};

use image::{AT_HOME, Head};
use shape::Shape;
use std::fmt::Write;
use telling::Output;
use telling::answers::{Coded, Start, Told, Tracks, Verdict};
use telling::rows::{Bytes, Entries};
use telling::sizes::{DataSize, PLAIN, WIDE};
use words::{AT_PRIMARY, ELSEWHERE};

// The block that is replaced and read.
const BLOCK: u32 = 6;

// The paper's drive, with two spares to a track; each head is a group.
fn drive() -> Shape {
    Shape {
        cylinders: 2,
        heads: 2,
        sectors: 5,
        groups: 2,
        tracks: 1,
        offset: 2,
    }
}

// Replaces a block of the paper's drive.
fn try_replace(out: &mut Output, table: &mut [u32], block: u32) {
    let place = Told(
        "place",
        spares::replace(drive(), 2, table, &mut [0u32; 8], block),
    );
    let _ = writeln!(out, "replace block {block}: {place}");
}

// A table in which blocks 7 and 8 are replaced.
fn table_of_two(out: &mut Output) -> [u32; 128] {
    let mut table = [0u32; 128];
    let length = Told("length", spares::first_table(drive(), 2, &[], &mut table));
    let _ = writeln!(out, "first table: {length}");
    try_replace(out, &mut table, 7);
    try_replace(out, &mut table, 8);
    let _ = writeln!(
        out,
        "descriptors 4 and 5: {:08x} {:08x}",
        table[4], table[5]
    );
    table
}

// The paper's table: block 6 is replaced after blocks 7 and 8.
fn paper_table(out: &mut Output, two: [u32; 128]) -> [u32; 128] {
    let mut table = two;
    try_replace(out, &mut table, BLOCK);
    let _ = writeln!(out, "descriptor 3: {:08x}", table[3]);
    let shift = Told(
        "shift",
        spares::shift(drive(), 2, &table, &mut [0u32; 8], BLOCK),
    );
    let _ = writeln!(out, "block 6: {shift}");
    table
}

// The image of a sector, in the first bytes of a room: of a block with a code, whose data is one byte throughout.
fn image_of(size: DataSize, block: u32, code: u32, byte: u8, forced: bool) -> [u8; 594] {
    let data = [byte; 576];
    let mut image = [0u8; 594];
    let data = comparing::first(&data, size.bytes);
    let _ = image::write(size.bytes, block, code, data, forced, &mut image);
    image
}

// The image of a track of five sectors, in the first bytes of a room, with such an image in the sector that starts at a byte.
fn track_with(
    size: DataSize,
    start: u32,
    block: u32,
    code: u32,
    byte: u8,
    forced: bool,
) -> [u8; 2_970]
    requires { start ≤ 2376 }
{
    let mut track = [0u8; 2_970];
    let at = start as usize;
    track[at..at + 594].copy_from_slice(&image_of(size, block, code, byte, forced));
    track
}

// The image of a track in the first bytes of a room.
fn whole(size: DataSize, room: &[u8]) -> &[u8] {
    comparing::first(room, 5 * (size.bytes + 18))
}

// The home track of the block, whose first sector holds old data.
fn home_track(size: DataSize, block: u32) -> [u8; 2_970] {
    track_with(size, 0, block, AT_HOME, 82, false)
}

// The track of the spare, whose last sector holds new data with the code of descriptor 3.
fn spare_track(size: DataSize, block: u32, forced: bool) -> [u8; 2_970] {
    track_with(size, 4 * (size.bytes + 18), block, ELSEWHERE, 79, forced)
}

// Reads a block of a drive from two track images: the verdict, where its data begins, and how the data begins.
fn try_read_on<'a>(
    out: &mut Output,
    size: DataSize,
    shape: Shape,
    table: &[u32],
    block: u32,
    home: &'a [u8],
    spare: &'a [u8],
) {
    let mut scratch = [1u32; 8];
    let verdict = reading::judge(
        size.bytes,
        shape,
        2,
        table,
        &mut scratch,
        block,
        home,
        spare,
    );
    let _ = writeln!(out, "  block {block}: {}", Verdict(verdict));
    let spot = reading::spot(
        size.bytes,
        shape,
        2,
        table,
        &mut scratch,
        block,
        home,
        spare,
    );
    let _ = writeln!(out, "    {}", Start(spot));
    let part = reading::data(
        size.bytes,
        shape,
        2,
        table,
        &mut scratch,
        block,
        home,
        spare,
    );
    let first = Bytes(comparing::first(part, 2));
    let _ = writeln!(out, "    data bytes: {}, the first:{first}", part.len());
}

// Reads a block of the paper's drive from the track images in the first bytes of two rooms.
fn try_read<'a>(
    out: &mut Output,
    size: DataSize,
    table: &[u32],
    block: u32,
    home: &'a [u8],
    spare: &'a [u8],
) {
    try_read_on(
        out,
        size,
        drive(),
        table,
        block,
        whole(size, home),
        whole(size, spare),
    );
}

// Reads a block whose spare's sector starts at a byte of its track and holds the block with a code.
fn try_on_spare(out: &mut Output, size: DataSize, table: &[u32], block: u32, start: u32, code: u32)
    requires { start ≤ 2376 }
{
    let _ = writeln!(
        out,
        "the spare's header says {}",
        Coded(Head { code, block })
    );
    try_read(
        out,
        size,
        table,
        block,
        &[0u8; 2_970],
        &track_with(size, start, block, code, 79, false),
    );
}

// Reads block 6, whose home's sector holds it with a code.
fn try_on_home(out: &mut Output, size: DataSize, table: &[u32], code: u32) {
    let head = Head { code, block: BLOCK };
    let _ = writeln!(out, "the home's header says {}", Coded(head));
    try_read(
        out,
        size,
        table,
        BLOCK,
        &track_with(size, 0, BLOCK, code, 82, false),
        &[0u8; 2_970],
    );
}

// The header must say what the table says: block 7 is at its primary, block 8 elsewhere, and block 6 at home.
fn try_codes(out: &mut Output, size: DataSize, table: &[u32]) {
    let long = size.bytes + 18;
    tell_size(out, size);
    try_on_spare(out, size, table, 7, 3 * long, AT_PRIMARY);
    try_on_spare(out, size, table, 7, 3 * long, ELSEWHERE);
    try_on_spare(out, size, table, 7, 3 * long, AT_HOME);
    try_on_spare(out, size, table, 8, 4 * long, ELSEWHERE);
    try_on_spare(out, size, table, 8, 4 * long, AT_PRIMARY);
    try_on_home(out, size, table, AT_HOME);
    try_on_home(out, size, table, AT_PRIMARY);
}

// Reads a block, and says how many bytes of its data are not the one that was written.
fn try_back<'a>(
    out: &mut Output,
    size: DataSize,
    table: &[u32],
    block: u32,
    home: &'a [u8],
    spare: &'a [u8],
    byte: u8,
) {
    let mut scratch = [1u32; 8];
    let part = reading::data(
        size.bytes,
        drive(),
        2,
        table,
        &mut scratch,
        block,
        home,
        spare,
    );
    let changed = comparing::changed(part, byte);
    let _ = writeln!(
        out,
        "  block {block} read back: {} bytes, not as written: {changed}",
        part.len()
    );
}

// There and back, at home and on a spare.
fn try_there(out: &mut Output, size: DataSize, table: &[u32]) {
    let home = home_track(size, 9);
    let spare = spare_track(size, BLOCK, false);
    let _ = writeln!(out, "block 9 at home, block 6 on its spare");
    try_back(
        out,
        size,
        table,
        9,
        whole(size, &home),
        whole(size, &spare),
        82,
    );
    try_back(
        out,
        size,
        table,
        BLOCK,
        whole(size, &home),
        whole(size, &spare),
        79,
    );
}

// The verdict on the home's sector by itself.
fn try_alone(out: &mut Output, size: DataSize, home: &[u8]) {
    let image = comparing::first(home, size.bytes + 18);
    let verdict = Verdict(image::judge(size.bytes, image, BLOCK, AT_HOME));
    let _ = writeln!(out, "  the home's sector by itself: {verdict}");
}

// The spare is read whatever the home holds.
fn try_home(out: &mut Output, size: DataSize, table: &[u32]) {
    let mut home = home_track(size, BLOCK);
    let spare = spare_track(size, BLOCK, false);
    let _ = writeln!(out, "both images whole");
    try_read(out, size, table, BLOCK, &home, &spare);
    try_alone(out, size, &home);
    home[16] ^= 1;
    let _ = writeln!(out, "a bit of the home's data turned");
    try_read(out, size, table, BLOCK, &home, &spare);
    try_alone(out, size, &home);
}

// Each part of the spare's sector damaged: the home is never read instead.
fn try_spare(out: &mut Output, size: DataSize, table: &[u32]) {
    let home = home_track(size, BLOCK);
    let mut spare = spare_track(size, BLOCK, false);
    let start = 4 * (size.bytes as usize + 18);
    spare[start + 16] ^= 1;
    let _ = writeln!(out, "a bit of the spare's data turned");
    try_read(out, size, table, BLOCK, &home, &spare);
    spare[start + 3] = 7;
    spare[start + 7] = 7;
    let _ = writeln!(out, "two copies of the spare's header name block 7");
    try_read(out, size, table, BLOCK, &home, &spare);
}

// The last byte of the spare's data damaged, and no other.
fn try_last(out: &mut Output, size: DataSize, table: &[u32]) {
    let mut spare = spare_track(size, BLOCK, false);
    let last = 4 * (size.bytes as usize + 18) + size.bytes as usize + 15;
    spare[last] ^= 1;
    let _ = writeln!(out, "a bit of the spare's last data byte turned");
    try_read(out, size, table, BLOCK, &home_track(size, BLOCK), &spare);
}

// Another block on the spare, and data that was bad when it was written.
fn try_written(out: &mut Output, size: DataSize, table: &[u32]) {
    let home = home_track(size, BLOCK);
    let _ = writeln!(out, "the spare's header names block 7");
    try_read(out, size, table, BLOCK, &home, &spare_track(size, 7, false));
    let _ = writeln!(out, "the spare was written as forced");
    try_read(
        out,
        size,
        table,
        BLOCK,
        &home,
        &spare_track(size, BLOCK, true),
    );
}

// The image of the home's sector is refused on the spare, since its code is that of a block at home.
fn try_moved(out: &mut Output, size: DataSize, table: &[u32]) {
    let _ = writeln!(out, "the home's image moved to the spare as it is");
    try_read(
        out,
        size,
        table,
        BLOCK,
        &home_track(size, BLOCK),
        &track_with(size, 4 * (size.bytes + 18), BLOCK, AT_HOME, 82, false),
    );
}

// Reads block 6 from track images of so many bytes.
fn try_cut<'a>(
    out: &mut Output,
    size: DataSize,
    table: &[u32],
    home: &'a [u8],
    home_bytes: u32,
    spare: &'a [u8],
    spare_bytes: u32,
) {
    let _ = writeln!(
        out,
        "home of {home_bytes} bytes, spare of {spare_bytes}, at size {}",
        size.bytes
    );
    try_read_on(
        out,
        size,
        drive(),
        table,
        BLOCK,
        comparing::first(home, home_bytes),
        comparing::first(spare, spare_bytes),
    );
}

// A track image that is a byte too short is refused before any sector is looked into.
fn try_short(out: &mut Output, size: DataSize, table: &[u32]) {
    let home = home_track(size, BLOCK);
    let spare = spare_track(size, BLOCK, false);
    let long = 5 * (size.bytes + 18);
    try_cut(out, size, table, &home, long - 1, &spare, long);
    try_cut(out, size, table, &home, long, &spare, long - 1);
}

// A block at home is read from its home track, whatever the second image holds.
fn try_at_home(out: &mut Output, size: DataSize, table: &[u32]) {
    let empty = [0u8; 2_970];
    let _ = writeln!(out, "block 9 is at home, the second image is empty");
    try_read(out, size, table, 9, &home_track(size, 9), &empty);
    let _ = writeln!(out, "its home names block 6");
    try_read(out, size, table, 9, &home_track(size, BLOCK), &empty);
}

// The same drive without groups reads the same, and one whose groups are wrong reads nothing.
fn try_groups<'a>(
    out: &mut Output,
    size: DataSize,
    table: &[u32],
    home: &'a [u8],
    spare: &'a [u8],
) {
    let _ = writeln!(out, "the drive without groups");
    try_read_on(
        out,
        size,
        telling::shapes::ungrouped(2, 2, 5),
        table,
        BLOCK,
        home,
        spare,
    );
    let _ = writeln!(out, "two groups of two tracks on two heads");
    try_read_on(
        out,
        size,
        Shape {
            cylinders: 2,
            heads: 2,
            sectors: 5,
            groups: 2,
            tracks: 2,
            offset: 2,
        },
        table,
        BLOCK,
        home,
        spare,
    );
}

// Writes the size.
fn tell_size(out: &mut Output, size: DataSize) {
    let _ = writeln!(out, "size {}", size.bytes);
}

// All reads with the paper's table at one size.
fn try_at(out: &mut Output, size: DataSize, table: &[u32]) {
    tell_size(out, size);
    try_there(out, size, table);
    try_home(out, size, table);
    try_spare(out, size, table);
    try_last(out, size, table);
    try_written(out, size, table);
    try_moved(out, size, table);
    try_short(out, size, table);
    try_at_home(out, size, table);
    try_groups(
        out,
        size,
        table,
        whole(size, &home_track(size, BLOCK)),
        whole(size, &spare_track(size, BLOCK, false)),
    );
}

// Track images of the one size at the other.
fn try_other(out: &mut Output, table: &[u32]) {
    let home = home_track(WIDE, BLOCK);
    let spare = spare_track(WIDE, BLOCK, false);
    try_cut(out, WIDE, table, &home, 2_970, &spare, 2_650);
    try_cut(out, WIDE, table, &home, 2_650, &spare, 2_970);
    try_cut(out, WIDE, table, &home, 2_650, &spare, 2_650);
    try_cut(out, PLAIN, table, &home, 2_970, &spare, 2_970);
}

// Reads with lent scratch that holds ones: the verdict, where the data begins, and how much there is.
fn try_lent<'a>(
    out: &mut Output,
    size: u32,
    table: &[u32],
    scratch: &mut [u32],
    block: u32,
    home: &'a [u8],
    spare: &'a [u8],
) {
    let verdict = reading::judge(size, drive(), 2, table, scratch, block, home, spare);
    let _ = writeln!(out, "size {size}, block {block}: {}", Verdict(verdict));
    let spot = reading::spot(size, drive(), 2, table, scratch, block, home, spare);
    let _ = writeln!(out, "  {}", Start(spot));
    let part = reading::data(size, drive(), 2, table, scratch, block, home, spare);
    let _ = writeln!(out, "  data bytes: {}", part.len());
}

// All else is right.
fn try_right<'a>(out: &mut Output, size: u32, table: &[u32], home: &'a [u8], spare: &'a [u8]) {
    let mut scratch = [1u32; 8];
    try_lent(out, size, table, &mut scratch, BLOCK, home, spare);
    let _ = writeln!(out, "  scratch: {}", Entries(&scratch));
}

// All else is wrong: the scratch is too short, the table and the images are empty, and the drive has no such block.
fn try_wrong(out: &mut Output, size: u32) {
    let mut scratch = [1u32; 7];
    try_lent(out, size, &[], &mut scratch, 12, &[], &[]);
    let _ = writeln!(out, "  scratch: {}", Entries(&scratch));
}

// A size that no sector has is refused first, and leaves the scratch as it was; a size that a sector has does not.
fn try_sizes<'a>(out: &mut Output, table: &[u32], home: &'a [u8], spare: &'a [u8]) {
    try_right(out, PLAIN.bytes, table, home, spare);
    try_wrong(out, PLAIN.bytes);
    try_right(out, 0, table, home, spare);
    try_wrong(out, 0);
    try_right(out, PLAIN.bytes - 1, table, home, spare);
    try_wrong(out, PLAIN.bytes - 1);
    try_right(out, PLAIN.bytes + 1, table, home, spare);
    try_wrong(out, PLAIN.bytes + 1);
    try_right(out, WIDE.bytes - 1, table, home, spare);
    try_wrong(out, WIDE.bytes - 1);
    try_right(out, WIDE.bytes + 1, table, home, spare);
    try_wrong(out, WIDE.bytes + 1);
    try_right(out, 4_294_967_295, table, home, spare);
    try_wrong(out, 4_294_967_295);
}

// Asks for the two tracks of a block of a drive.
fn try_tracks(
    out: &mut Output,
    shape: Shape,
    r: u32,
    table: &[u32],
    scratch: &mut [u32],
    block: u32,
) {
    let tracks = Tracks(reading::tracks(shape, r, table, scratch, block));
    let _ = writeln!(
        out,
        "  r {r}, scratch of {}, block {block}: {tracks}",
        scratch.len()
    );
}

// Asks for those of a block of the paper's drive.
fn try_pair(out: &mut Output, table: &[u32], block: u32) {
    try_tracks(out, drive(), 2, table, &mut [1u32; 8], block);
}

// Two blocks at home, the second the last of all; one on a spare of another cylinder, and one on a spare of its own track; and one that the drive does not have.
fn try_pairs(out: &mut Output, table: &[u32]) {
    let _ = writeln!(out, "the tracks to fetch");
    try_pair(out, table, 9);
    try_pair(out, table, 11);
    try_pair(out, table, BLOCK);
    try_pair(out, table, 7);
    try_pair(out, table, 12);
}

// No spares, scratch that is a number too short, and fewer spares than the table has; and too many cylinders. Each is refused before the block, which no such drive has.
fn try_unfetched(out: &mut Output, table: &[u32]) {
    try_tracks(out, drive(), 0, table, &mut [1u32; 7], 20);
    try_tracks(out, drive(), 2, table, &mut [1u32; 7], 20);
    try_tracks(out, drive(), 1, table, &mut [1u32; 7], 20);
    let _ = writeln!(out, "4097 cylinders");
    try_tracks(
        out,
        telling::shapes::ungrouped(4_097, 2, 5),
        2,
        table,
        &mut [1u32; 7],
        24_582,
    );
}

// More blocks are replaced, until one lies on the other head and one on the cylinder after its own.
fn try_away(out: &mut Output, table: &mut [u32]) {
    try_replace(out, table, 3);
    try_replace(out, table, 4);
    try_replace(out, table, 5);
    try_replace(out, table, 0);
    try_pair(out, table, 4);
    try_pair(out, table, 0);
}

fn main() {
    let mut out = Output;
    let two = table_of_two(&mut out);
    try_codes(&mut out, PLAIN, &two);
    try_codes(&mut out, WIDE, &two);
    let mut table = paper_table(&mut out, two);
    try_at(&mut out, PLAIN, &table);
    try_at(&mut out, WIDE, &table);
    try_other(&mut out, &table);
    try_sizes(
        &mut out,
        &table,
        whole(PLAIN, &home_track(PLAIN, BLOCK)),
        whole(PLAIN, &spare_track(PLAIN, BLOCK, false)),
    );
    try_pairs(&mut out, &table);
    try_unfetched(&mut out, &table);
    try_away(&mut out, &mut table);
}
