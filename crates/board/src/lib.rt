// The C face: every public call that hands back numbers, under a plain name, each answering the numbers that the call's answer says. The two calls that hand back a part, `image::data` and `reading::data`, are not here; `tb_read_data` is `reading::spot`.
#![tactic(auto)]

ghost use Rattle.shape.specs.Promises.{SectorOf as ShapeSectorOf, AddressOf as ShapeAddressOf};
ghost use Rattle.skip.specs.Promises.{SectorOf as SkipSectorOf, BlockOn as SkipBlockOn, Starts, Checks, Steps};
ghost use Rattle.skipped.specs.Promises.{AddressOf as SkippedAddressOf, BlockAt as SkippedBlockAt};
ghost use Rattle.page.specs.Promises.{Reads, Writes};
ghost use Rattle.format.specs.Promises.{Formats};
ghost use Rattle.table.specs.Scratch.{Scratched};
ghost use Rattle.first_table.specs.Promises.{FirstTable};
ghost use Rattle.spares.specs.Promises.{SectorOf as SpareSectorOf, AddressOf as SpareAddressOf, ShiftOf, BlockOn as SpareBlockOn, BlockAt as SpareBlockAtOf, Replacement, CensusOf};
ghost use Rattle.image.specs.Promises.{Write, Header, Judge as ImageVerdict};
ghost use Rattle.mode.specs.Promises.{Finds};
ghost use Rattle.reading.specs.Promises.{TracksOf, Judge as ReadVerdict, Spots, ReadScratched};
ghost use Rattle.board.specs.Promises.{TellsPlaced, TellsNamed, TellsWritten, TellsLocated, TellsJob, TellsStep, TellsPaged, TellsFormatted, TellsShifted, TellsReplaced, TellsCounted, TellsHeaded, TellsJudged, TellsSized, TellsTracks, TellsSpotted};

mod answers;

pub use answers::{
    TbCounted, TbFormatted, TbHeaded, TbJob, TbJudged, TbLocated, TbNamed, TbPaged, TbPlaced,
    TbReplaced, TbShifted, TbSized, TbSpotted, TbTracks, TbWritten,
};
use shape::Shape;
use skip::Cursor;

// The sector that a block lies on. Checks 1, list, 5.
#[unsafe(no_mangle)]
pub extern "C" fn tb_skip_sector(n: u32, list: &[u32], block: u32) -> TbPlaced
    ensures { TellsPlaced (SkipSectorOf n list.now block) result }
{
    TbPlaced::from(skip::sector_of(n, list, block))
}

// The block that lies on a sector, or none. Checks 1, list, 6.
#[unsafe(no_mangle)]
pub extern "C" fn tb_skip_block(n: u32, list: &[u32], sector: u32) -> TbNamed
    ensures { TellsNamed (SkipBlockOn n list.now sector) result }
{
    TbNamed::from(skip::block_on(n, list, sector))
}

// Opens a job at a block. Checks 1, list, 5.
#[unsafe(no_mangle)]
pub extern "C" fn tb_job_start(n: u32, list: &[u32], block: u32) -> TbJob
    ensures { TellsJob (Starts n list.now block) result }
{
    TbJob::from(Cursor::start(n, list, block))
}

// Whether a cursor is one of this list. Checks 1, list, 9.
#[unsafe(no_mangle)]
pub extern "C" fn tb_job_check(cursor: Cursor, n: u32, list: &[u32]) -> TbJob
    ensures { TellsJob (Checks n list.now cursor) result }
{
    TbJob::from(cursor.check(n, list))
}

// The sector of the cursor's block, and the cursor after it; refused, the cursor as it was given. Checks 1, list, 9, 5.
#[unsafe(no_mangle)]
pub extern "C" fn tb_job_step(cursor: Cursor, n: u32, list: &[u32]) -> TbJob
    ensures { TellsStep (Steps n list.now cursor) result }
{
    TbJob::from(cursor.step(n, list))
}

// Cylinder, head and sector to sector number. Checks 1, 6.
#[unsafe(no_mangle)]
pub extern "C" fn tb_shape_sector(shape: Shape, cylinder: u32, head: u32, sector: u32) -> TbPlaced
    ensures { TellsPlaced (ShapeSectorOf shape cylinder head sector) result }
{
    TbPlaced::from(shape::sector_of(shape, cylinder, head, sector))
}

// Sector number to cylinder, head, sector and angle. Checks 1, 6.
#[unsafe(no_mangle)]
pub extern "C" fn tb_shape_address(shape: Shape, sector: u32) -> TbLocated
    ensures { TellsLocated (ShapeAddressOf shape sector) result }
{
    TbLocated::from(shape::address_of(shape, sector))
}

// The address that a block of a skipped drive lies at. Checks 1, list, 5.
#[unsafe(no_mangle)]
pub extern "C" fn tb_skipped_address(shape: Shape, list: &[u32], block: u32) -> TbLocated
    ensures { TellsLocated (SkippedAddressOf shape list.now block) result }
{
    TbLocated::from(skipped::address_of(shape, list, block))
}

// The block that lies at a cylinder, head and sector of a skipped drive, or none. Checks 1, list, 6.
#[unsafe(no_mangle)]
pub extern "C" fn tb_skipped_block(
    shape: Shape,
    list: &[u32],
    cylinder: u32,
    head: u32,
    sector: u32,
) -> TbNamed
    ensures { TellsNamed (SkippedBlockAt shape list.now cylinder head sector) result }
{
    TbNamed::from(skipped::block_at(shape, list, cylinder, head, sector))
}

// Reads a page: its kind, N and number of entries, and the entries into the room. Checks 8, 3 and 4, 7.
#[unsafe(no_mangle)]
pub extern "C" fn tb_page_read(page: &[u8], room: &mut [u32]) -> TbPaged
    ensures { TellsPaged (λ answer. Reads page.now room.old answer room.new) result }
{
    TbPaged::from(page::read(page, room))
}

// Writes a page into the room, and answers its length. Checks 1, 8, list, 7.
#[unsafe(no_mangle)]
pub extern "C" fn tb_page_write(n: u32, kind: u32, list: &[u32], room: &mut [u8]) -> TbWritten
    ensures { TellsWritten (λ answer. Writes n kind list.now room.old answer room.new) result }
{
    TbWritten::from(page::write(n, kind, list, room))
}

// Format: the new grown list and the list of the new space into the rooms. Checks 1, P, G, 10, 2, D, 2, 2, 7.
#[unsafe(no_mangle)]
pub extern "C" fn tb_format(
    n: u32,
    p: &[u32],
    g: &[u32],
    space: u32,
    option: u32,
    d: &[u32],
    grown: &mut [u32],
    list: &mut [u32],
) -> TbFormatted
    ensures { TellsFormatted (λ answer. Formats n p.now g.now space option d.now grown.old list.old answer grown.new list.new) result }
{
    TbFormatted::from(format::format(n, p, g, space, option, d, grown, list))
}

// The sector that a block of a revectored drive lies on. Checks 1, 7, 11, 5.
#[unsafe(no_mangle)]
pub extern "C" fn tb_spare_sector(
    shape: Shape,
    r: u32,
    table: &[u32],
    scratch: &mut [u32],
    block: u32,
) -> TbPlaced
    ensures tells_placed { TellsPlaced (SpareSectorOf shape r table.now scratch.old block) result }
    ensures scratched { Scratched shape r scratch.old scratch.new }
{
    TbPlaced::from(spares::sector_of(shape, r, table, scratch, block))
}

// The address that a block of a revectored drive lies at. Checks 1, 7, 11, 5.
#[unsafe(no_mangle)]
pub extern "C" fn tb_spare_address(
    shape: Shape,
    r: u32,
    table: &[u32],
    scratch: &mut [u32],
    block: u32,
) -> TbLocated
    ensures tells_located { TellsLocated (SpareAddressOf shape r table.now scratch.old block) result }
    ensures scratched { Scratched shape r scratch.old scratch.new }
{
    TbLocated::from(spares::address_of(shape, r, table, scratch, block))
}

// How many cylinders a block is moved, negative toward cylinder 0. Checks 1, 7, 11, 5.
#[unsafe(no_mangle)]
pub extern "C" fn tb_spare_shift(
    shape: Shape,
    r: u32,
    table: &[u32],
    scratch: &mut [u32],
    block: u32,
) -> TbShifted
    ensures tells_shifted { TellsShifted (ShiftOf shape r table.now scratch.old block) result }
    ensures scratched { Scratched shape r scratch.old scratch.new }
{
    TbShifted::from(spares::shift(shape, r, table, scratch, block))
}

// The block that lies on a sector of a revectored drive, or none. Checks 1, 7, 11, 6.
#[unsafe(no_mangle)]
pub extern "C" fn tb_spare_block(
    shape: Shape,
    r: u32,
    table: &[u32],
    scratch: &mut [u32],
    sector: u32,
) -> TbNamed
    ensures tells_named { TellsNamed (SpareBlockOn shape r table.now scratch.old sector) result }
    ensures scratched { Scratched shape r scratch.old scratch.new }
{
    TbNamed::from(spares::block_on(shape, r, table, scratch, sector))
}

// The block that lies at a cylinder, head and sector of a revectored drive, or none. Checks 1, 7, 11, 6.
#[unsafe(no_mangle)]
pub extern "C" fn tb_spare_block_at(
    shape: Shape,
    r: u32,
    table: &[u32],
    scratch: &mut [u32],
    cylinder: u32,
    head: u32,
    sector: u32,
) -> TbNamed
    ensures tells_named { TellsNamed (SpareBlockAtOf shape r table.now scratch.old cylinder head sector) result }
    ensures scratched { Scratched shape r scratch.old scratch.new }
{
    TbNamed::from(spares::block_at(shape, r, table, scratch, cylinder, head, sector))
}

// Replaces a block, at home or on a spare: writes its new descriptor, marks its old one unusable, and answers its new place. Checks 1, 7, 11, 5, 13.
#[unsafe(no_mangle)]
pub extern "C" fn tb_spare_replace(
    shape: Shape,
    r: u32,
    table: &mut [u32],
    scratch: &mut [u32],
    block: u32,
) -> TbReplaced
    ensures tells_replaced { TellsReplaced (λ answer. Replacement shape r table.old scratch.old block answer table.new) result }
    ensures scratched { Scratched shape r scratch.old scratch.new }
{
    TbReplaced::from(spares::replace(shape, r, table, scratch, block))
}

// Counts the descriptors of each code. Checks 1, 7, 11.
#[unsafe(no_mangle)]
pub extern "C" fn tb_spare_census(
    shape: Shape,
    r: u32,
    table: &[u32],
    scratch: &mut [u32],
) -> TbCounted
    ensures tells_counted { TellsCounted (CensusOf shape r table.now scratch.old) result }
    ensures scratched { Scratched shape r scratch.old scratch.new }
{
    TbCounted::from(spares::census(shape, r, table, scratch))
}

// The first table of a list of bad sectors into the room, and its length. Checks 1, list, 7, 13.
#[unsafe(no_mangle)]
pub extern "C" fn tb_spare_first(shape: Shape, r: u32, list: &[u32], room: &mut [u32]) -> TbWritten
    ensures { TellsWritten (λ answer. FirstTable shape r list.now room.old answer room.new) result }
{
    TbWritten::from(spares::first_table(shape, r, list, room))
}

// Writes the image of a block's data, good or forced, with the code that tells where the block is, and answers its length. Checks 1, 14, 5, 22, 7.
#[unsafe(no_mangle)]
pub extern "C" fn tb_image_write(
    size: u32,
    block: u32,
    code: u32,
    data: &[u8],
    forced: bool,
    room: &mut [u8],
) -> TbWritten
    ensures { TellsWritten (λ answer. Write size block code «data».now forced room.old answer room.new) result }
{
    TbWritten::from(image::write(size, block, code, data, forced, room))
}

// The code and the block that the header of an image says. Checks 1, 14, 15, 16.
#[unsafe(no_mangle)]
pub extern "C" fn tb_image_header(size: u32, image: &[u8]) -> TbHeaded
    ensures { TellsHeaded (Header size image.now) result }
{
    TbHeaded::from(image::header(size, image))
}

// The verdict on the image of a block with a code. Checks 1, 14, 15, 16, then 17 or 18.
#[unsafe(no_mangle)]
pub extern "C" fn tb_image_judge(size: u32, image: &[u8], block: u32, code: u32) -> TbJudged
    ensures { TellsJudged (ImageVerdict size image.now block code) result }
{
    TbJudged::from(image::judge(size, image, block, code))
}

// The size of the drive's sectors, from the sector images of the XBN area, in which copies of the format table begin so many sectors apart. Checks 1, 21.
#[unsafe(no_mangle)]
pub extern "C" fn tb_mode(images: &[u8], apart: u32) -> TbSized
    ensures { TellsSized (Finds images.now apart) result }
{
    TbSized::from(mode::find(images, apart))
}

// The tracks to fetch for a read of a block, and how many cylinders the arm moves between them. Checks 1, 7, 11, 5.
#[unsafe(no_mangle)]
pub extern "C" fn tb_read_tracks(
    shape: Shape,
    r: u32,
    table: &[u32],
    scratch: &mut [u32],
    block: u32,
) -> TbTracks
    ensures tells_tracks { TellsTracks (TracksOf shape r table.now scratch.old block) result }
    ensures scratched { Scratched shape r scratch.old scratch.new }
{
    TbTracks::from(reading::tracks(shape, r, table, scratch, block))
}

// The verdict on a block from the images of its home track and of its spare's track. Checks 1, 7, 11, 5, 14, 15 to 18.
#[unsafe(no_mangle)]
pub extern "C" fn tb_read_judge<'a>(
    size: u32,
    shape: Shape,
    r: u32,
    table: &[u32],
    scratch: &mut [u32],
    block: u32,
    home: &'a [u8],
    spare: &'a [u8],
) -> TbJudged
    ensures tells_judged { TellsJudged (ReadVerdict size shape r table.now scratch.old block home.now spare.now) result }
    ensures read_scratched { ReadScratched size shape r scratch.old scratch.new }
{
    TbJudged::from(reading::judge(size, shape, r, table, scratch, block, home, spare))
}

// In which image, and how far inside it, the data of a good block begins. Checks 1, 7, 11, 5, 14, 15 to 18.
#[unsafe(no_mangle)]
pub extern "C" fn tb_read_data<'a>(
    size: u32,
    shape: Shape,
    r: u32,
    table: &[u32],
    scratch: &mut [u32],
    block: u32,
    home: &'a [u8],
    spare: &'a [u8],
) -> TbSpotted
    ensures tells_spotted { TellsSpotted (Spots size shape r table.now scratch.old block home.now spare.now) result }
    ensures read_scratched { ReadScratched size shape r scratch.old scratch.new }
{
    TbSpotted::from(reading::spot(size, shape, r, table, scratch, block, home, spare))
}
