// The day of a block on a small drive: the drive comes online and says the size of its sectors, the gauge log of a vacuum turntable is written, moved to a spare, read back and refused, moved to another spare, and at night a scan changes the map of a drive that skips.
#![tactic(auto)]

use image::AT_HOME;
use paper::Refusal;
use reading::{Spot, Track};
use shape::Shape;
use skip::Cursor;
use std::fmt::Write;
use telling::Output;
use telling::answers::{Header, Location, Tracks, Verdict};
use telling::rows::{Entries, Text};

// Sectors from one copy of the format table to the next.
const APART: u32 = 1;

// The block of the gauge log.
const GAUGE: u32 = 6;

// Data bytes of a sector that holds a copy of the format table.
const PLAIN: u32 = paper::DATA_SIZE as u32;

// Cylinders and heads of the drive of the gauge log, and all its sectors.
const CYLINDERS: u32 = 2;

const HEADS: u32 = 2;

const SECTORS: u32 = 20;

// Bytes of a sector's image, of a track's, and of the whole drive.
const SECTOR: usize = 594;

const TRACK: usize = 2_970;

const BYTES: usize = 11_880;

// Spares at the end of each track.
const SPARES: u32 = 2;

// Numbers of scratch, one for each spare of the four tracks.
const NUMBERS: usize = 8;

// How many bytes a reading of the gauge has.
const READING: u32 = 13;

// Sectors of the drive that skips.
const UNITS: u32 = 20;

// The drive of the gauge log.
fn drive() -> Shape {
    Shape {
        cylinders: CYLINDERS,
        heads: HEADS,
        sectors: 5,
        groups: 2,
        tracks: 1,
        offset: 2,
    }
}

// Writes the number of a refusal and what it means, and ends the line.
fn refused(out: &mut Output, words: &str, refusal: Refusal) {
    let number = refusal.number();
    let _ = writeln!(out, "{words} {number}: {refusal}");
}

// The image of the first sector of a copy of the format table, whose first word is the size 576.
fn copy_at(xbn: u32) -> [u8; 530] {
    let mut data = [0u8; 512];
    words::put16(&mut data, 0, 576);
    let mut image = [0u8; 530];
    let _ = image::write(PLAIN, xbn, AT_HOME, &data, false, &mut image);
    image
}

// The same with one bit of the first word turned over.
fn bad_copy_at(xbn: u32) -> [u8; 530] {
    let mut image = copy_at(xbn);
    image[17] ^= 1;
    image
}

// Writes the verdict on a copy of the format table.
fn tell_copy(out: &mut Output, words: &str, image: &[u8; 530], xbn: u32) {
    let verdict = Verdict(image::judge(PLAIN, image, xbn, AT_HOME));
    let _ = writeln!(out, "{words}: {verdict}");
}

// The images of the sectors at XBN 0 and 1, a copy of the format table on each.
fn copies(out: &mut Output, first: &[u8; 530], second: &[u8; 530]) -> [u8; 1_060] {
    tell_copy(out, "The first copy of its format table", first, 0);
    tell_copy(out, "The second copy", second, 1);
    let mut images = [0u8; 1_060];
    images[..530].copy_from_slice(first);
    images[530..].copy_from_slice(second);
    images
}

// Writes how the spares stand.
fn tell_spares(out: &mut Output, table: &[u32]) {
    match spares::census(drive(), SPARES, table, &mut [0u32; NUMBERS]) {
        Ok(census) => {
            let _ = writeln!(
                out,
                "Spares free: {}, in use as a primary: {}, in use elsewhere: {}, unusable: {}",
                census.free, census.primary, census.elsewhere, census.unusable
            );
        }
        Err(refusal) => refused(out, "Refused", refusal),
    }
}

// Writes where the gauge log lies.
fn tell_place(out: &mut Output, words: &str, table: &[u32]) {
    let mut scratch = [0u32; NUMBERS];
    let _ = match spares::sector_of(drive(), SPARES, table, &mut scratch, GAUGE) {
        Ok(sector) => write!(out, "{words} lies on sector {sector}"),
        Err(refusal) => write!(out, "{words} is refused {}", refusal.number()),
    };
    let location = Location(spares::address_of(drive(), SPARES, table, &mut scratch, GAUGE));
    let _ = writeln!(out, ": {location}");
}

// The sector that a block lies on; where that is refused, one that the drive does not have.
fn sector_now(table: &[u32], block: u32) -> u32 {
    spares::sector_of(drive(), SPARES, table, &mut [0u32; NUMBERS], block).unwrap_or(SECTORS)
}

// Writes the image of a sector to the drive, where the drive has such a sector.
fn put_sector(bytes: &mut [u8; BYTES], sector: u32, image: &[u8; SECTOR]) {
    if sector < SECTORS {
        let start = sector as usize * SECTOR;
        bytes[start..start + SECTOR].copy_from_slice(image);
    }
}

// The image of a sector of the drive; where the drive has no such sector, zeros.
fn sector_at(bytes: &[u8; BYTES], sector: u32) -> [u8; SECTOR] {
    let mut image = [0u8; SECTOR];
    if sector < SECTORS {
        let start = sector as usize * SECTOR;
        image.copy_from_slice(&bytes[start..start + SECTOR]);
    }
    image
}

// The image of a track of the drive; where the drive has no such track, an empty part.
fn track_at(bytes: &[u8; BYTES], track: Track) -> &[u8] {
    if CYLINDERS <= track.cylinder || HEADS <= track.head {
        return &[];
    }
    let start = (track.cylinder * HEADS + track.head) as usize * TRACK;
    &bytes[start..start + TRACK]
}

// Writes a reading of the gauge to the sector that the gauge log lies on, with the code that tells where that is.
fn write_gauge(
    out: &mut Output,
    size: u32,
    table: &[u32],
    bytes: &mut [u8; BYTES],
    reading: &[u8; 13],
    code: u32,
) {
    let mut data = [0u8; 576];
    data[..13].copy_from_slice(reading);
    let mut image = [0u8; SECTOR];
    let _ = image::write(size, GAUGE, code, &data, false, &mut image);
    put_sector(bytes, sector_now(table, GAUGE), &image);
    let header = Header(image::header(size, &image));
    let _ = writeln!(out, "The gauge is written: {}", Text(reading));
    let _ = writeln!(out, "The sector's header says: {header}");
}

// Writes a block whose data is lost on the spare that it has gone to, as forced, so that no older image is taken for it.
fn write_lost(
    out: &mut Output,
    size: u32,
    table: &[u32],
    bytes: &mut [u8; BYTES],
    block: u32,
    code: u32,
) {
    let mut image = [0u8; SECTOR];
    let _ = image::write(size, block, code, &[0u8; 576], true, &mut image);
    put_sector(bytes, sector_now(table, block), &image);
    let _ = writeln!(out, "Its data is lost, and it is written there as forced.");
}

// Writes where the bytes of the gauge begin and what they say.
fn tell_part(out: &mut Output, words: &str, offset: u32, part: &[u8]) {
    let reading = Text(comparing::first(part, READING));
    let _ = writeln!(out, "Read from its {words}, byte {offset}: {reading}");
}

// Reads the gauge from the images of its two tracks.
fn tell_data<'a>(out: &mut Output, size: u32, table: &[u32], home: &'a [u8], second: &'a [u8]) {
    let part = reading::data(
        size,
        drive(),
        SPARES,
        table,
        &mut [0u32; NUMBERS],
        GAUGE,
        home,
        second,
    );
    match reading::spot(
        size,
        drive(),
        SPARES,
        table,
        &mut [0u32; NUMBERS],
        GAUGE,
        home,
        second,
    ) {
        Ok(Spot::InHome(offset)) => tell_part(out, "home track", offset, part),
        Ok(Spot::InSpare(offset)) => tell_part(out, "spare's track", offset, part),
        Err(refusal) => {
            refused(out, "The read is refused,", refusal);
            let _ = writeln!(out, "Bytes handed back: {}", part.len());
        }
    }
}

// Reads the gauge: asks for its two tracks, fetches them from the drive, and reads from their images.
fn tell_read(out: &mut Output, size: u32, table: &[u32], bytes: &[u8; BYTES]) {
    let answer = reading::tracks(drive(), SPARES, table, &mut [0u32; NUMBERS], GAUGE);
    let _ = writeln!(out, "To fetch: {}", Tracks(answer));
    if let Ok(pair) = answer {
        let home = track_at(bytes, pair.home);
        let second = track_at(bytes, pair.there);
        tell_data(out, size, table, home, second);
    }
}

// Writes how far a block was moved.
fn tell_shift(out: &mut Output, table: &[u32], block: u32) {
    match spares::shift(drive(), SPARES, table, &mut [0u32; NUMBERS], block) {
        Ok(shift) => {
            let to = match shift {
                0 => "on its own cylinder",
                -1 => "one cylinder toward cylinder 0",
                _ => "on another cylinder",
            };
            let _ = writeln!(out, ", shift {shift}: {to}.");
        }
        Err(refusal) => refused(out, ", refused", refusal),
    }
}

// The code of the descriptor at a place of a table; where the table has no such place, that of a block at home.
fn code_at(table: &[u32], place: u32) -> u32 {
    match table.get(place as usize) {
        Some(word) => words::code_of(*word),
        None => AT_HOME,
    }
}

// Sends a block to a spare, and hands back the code of its descriptor there; where that is refused, the code of a block at home.
fn tell_replacement(out: &mut Output, block: u32, words: &str, table: &mut [u32]) -> u32 {
    let _ = write!(out, "Block {block}, {words},");
    match spares::replace(drive(), SPARES, table, &mut [0u32; NUMBERS], block) {
        Ok(place) => {
            let _ = write!(out, " goes to spare {place}");
            tell_shift(out, table, block);
            code_at(table, place)
        }
        Err(refusal) => {
            refused(out, " is refused", refusal);
            AT_HOME
        }
    }
}

// Writes the size of the drive's sectors and its shape, and where its second head starts.
fn tell_drive(out: &mut Output, size: u32, shape: Shape) {
    let Shape {
        cylinders,
        heads,
        sectors,
        groups,
        tracks,
        offset,
    } = shape;
    let _ = writeln!(out, "The size of its sectors: {size} bytes");
    let _ = writeln!(
        out,
        "The drive: {cylinders} cylinders, {heads} heads, {sectors} sectors to a track, the last {SPARES} of them spares"
    );
    let _ = writeln!(
        out,
        "Its heads are {groups} groups of {tracks} track, and each starts {offset} sectors after the one before it"
    );
}

// The gauge log at home.
fn morning(out: &mut Output, size: u32, table: &[u32], bytes: &mut [u8; BYTES]) {
    let _ = writeln!(out, "Morning: the pump runs");
    let _ = write!(out, "The gauge log is block {GAUGE}. ");
    tell_place(out, "It", table);
    write_gauge(out, size, table, bytes, b"vacuum 82 kPa", AT_HOME);
    tell_read(out, size, table, bytes);
    let _ = writeln!(out);
}

// The track of the gauge log goes bad, and its blocks are replaced. The code of the gauge log there is handed back.
fn noon(out: &mut Output, size: u32, table: &mut [u32], bytes: &mut [u8; BYTES]) -> u32 {
    let _ = writeln!(out, "Noon: the track goes bad");
    let seven = tell_replacement(out, 7, "a sound recording", table);
    write_lost(out, size, table, bytes, 7, seven);
    let eight = tell_replacement(out, 8, "a sound recording", table);
    write_lost(out, size, table, bytes, 8, eight);
    let code = tell_replacement(out, GAUGE, "the gauge log", table);
    tell_place(out, "The gauge log now", table);
    let _ = writeln!(
        out,
        "A board that lost the sign sent the arm to the far end and gave out an old block."
    );
    let _ = writeln!(out);
    code
}

// The old sector of the gauge log is copied to its spare, which is no way to write it there.
fn copy_old(out: &mut Output, size: u32, table: &[u32], bytes: &mut [u8; BYTES], home: u32) {
    let old = sector_at(bytes, home);
    put_sector(bytes, sector_now(table, GAUGE), &old);
    let _ = writeln!(out, "The old sector is copied to the spare as it is.");
    tell_read(out, size, table, bytes);
}

// Writes what the old sector of the gauge log says.
fn tell_old(out: &mut Output, size: u32, bytes: &[u8; BYTES], home: u32) {
    let old = sector_at(bytes, home);
    let data = image::data(size, &old, GAUGE, AT_HOME);
    let reading = Text(comparing::first(data, READING));
    let _ = writeln!(
        out,
        "Its old sector is still good, and still says: {reading}"
    );
}

// One bit of the data turns over on the sector that the gauge log lies on.
fn turn_bit(out: &mut Output, table: &[u32], bytes: &mut [u8; BYTES]) {
    let sector = sector_now(table, GAUGE);
    let mut image = sector_at(bytes, sector);
    image[16] ^= 1;
    put_sector(bytes, sector, &image);
    let _ = writeln!(out, "The spare goes bad: one bit turns over.");
}

// The gauge log on its spare, while its home still holds the morning's reading; then the spare goes bad, and the gauge log moves again.
fn afternoon(
    out: &mut Output,
    size: u32,
    table: &mut [u32],
    bytes: &mut [u8; BYTES],
    home: u32,
    code: u32,
) {
    let _ = writeln!(out, "Afternoon: the pump slows down");
    copy_old(out, size, table, bytes, home);
    write_gauge(out, size, table, bytes, b"vacuum 79 kPa", code);
    tell_read(out, size, table, bytes);
    tell_old(out, size, bytes, home);
    turn_bit(out, table, bytes);
    tell_read(out, size, table, bytes);
    let again = tell_replacement(out, GAUGE, "the gauge log", table);
    tell_place(out, "The gauge log now", table);
    write_gauge(out, size, table, bytes, b"vacuum 78 kPa", again);
    tell_read(out, size, table, bytes);
    let _ = writeln!(out);
}

// Steps a job, and writes the sector of its block.
fn tell_step(out: &mut Output, list: &[u32], cursor: Cursor) -> Cursor {
    let (answer, next) = cursor.step(UNITS, list);
    match answer {
        Ok(sector) => {
            let _ = writeln!(out, "  block {}: sector {sector}", cursor.block);
        }
        Err(refusal) => refused(out, "  then refused,", refusal),
    }
    next
}

// The new map, and a job on it.
fn tell_map(out: &mut Output, grown: &[u32], list: &[u32]) {
    let _ = writeln!(out, "The new grown list: {}", Entries(grown));
    let _ = writeln!(out, "The new list: {}", Entries(list));
    let _ = writeln!(out, "A job goes on at block 13 of the new map:");
    let start = Cursor {
        block: 0,
        skipped: 0,
    };
    let mut cursor = Cursor::start(UNITS, list, 13).unwrap_or(start);
    for _ in 0..4 {
        cursor = tell_step(out, list, cursor);
    }
}

// The night's scan of the drive that skips.
fn night(out: &mut Output) {
    let bad = [3, 7];
    let found = [3, 16];
    let _ = writeln!(out, "Night: a scan of the drive that skips its bad sectors");
    let _ = writeln!(out, "Its sectors: {UNITS}, the bad ones: {}", Entries(&bad));
    let _ = writeln!(out, "The scan finds these blocks bad: {}", Entries(&found));
    telling::asking::block(out, UNITS, &bad, 3);
    telling::asking::block(out, UNITS, &bad, 16);
    let mut grown = [0u32; 20];
    let mut list = [0u32; 20];
    match format::format(UNITS, &bad, &[], 3, 1, &found, &mut grown, &mut list) {
        Ok(made) => tell_map(
            out,
            comparing::first(&grown, made.grown),
            comparing::first(&list, made.list),
        ),
        Err(refusal) => refused(out, "Format is refused,", refusal),
    }
}

// The day, once the size of the drive's sectors is known.
fn day(out: &mut Output, size: u32) {
    let mut table = [0u32; 128];
    let _ = spares::first_table(drive(), SPARES, &[], &mut table);
    tell_drive(out, size, drive());
    tell_spares(out, &table);
    let _ = writeln!(out);
    let mut bytes = [0u8; BYTES];
    let home = sector_now(&table, GAUGE);
    morning(out, size, &table, &mut bytes);
    let code = noon(out, size, &mut table, &mut bytes);
    afternoon(out, size, &mut table, &mut bytes, home, code);
    let _ = writeln!(out, "Evening: the spares are counted");
    tell_spares(out, &table);
    let _ = writeln!(out);
    night(out);
}

fn main() {
    let mut out = Output;
    let _ = writeln!(out, "A day of the gauge log");
    let _ = writeln!(out);
    let _ = writeln!(out, "Dawn: the drive comes online");
    match mode::find(&copies(&mut out, &bad_copy_at(0), &copy_at(1)), APART) {
        Ok(size) => day(&mut out, size),
        Err(refusal) => refused(&mut out, "The drive stays offline,", refusal),
    }
}
