// The two tracks of a revectored block, and a read of it from their images, for any number of data bytes, by the public calls for the two sizes that a sector has.
#![tactic(auto)]

ghost use Rattle.std.specs.Prelude.{◌≡◌, ◌+◌, ◌*◌, ◌^◌, ◌<◌, ◌≤◌, length};
ghost use Rattle.paper.specs.Checks.{pick};
ghost use Rattle.paper.specs.Limits.{sectors_most, image_extra, data_size_fault};
ghost use Rattle.paper.specs.Promise.{Passes, GivesSuch};
ghost use Rattle.image.specs.Image.{contents_fault};
ghost use Rattle.layout.specs.Layouts.{drive_of};
ghost use Rattle.table.specs.Scratch.{Scratched};
ghost use Rattle.reading.specs.Tracks.{image_at};
ghost use Rattle.reading.specs.Steps.{seat_of};
ghost use Rattle.reading.specs.Faults.{lent_fault};
ghost use Rattle.reading.specs.Promises.{TracksOf, SpotSized, JudgeSized, DataSized, Judge, Data, Spots, ReadScratched};

mod answers;

pub use answers::{Pair, Spot, Track};
use paper::{HEADER_SIZE, IMAGE_EXTRA, Refusal};
use shape::{Geometry, Shape};
use table::Table;

// The tracks to fetch for a read of a block. Checks 1, 7, 11, 5.
pub fn tracks(
    shape: Shape,
    r: u32,
    table: &[u32],
    scratch: &mut [u32],
    block: u32,
) -> Result<Pair, Refusal>
    ensures tracks_of { TracksOf shape r table.now scratch.old block result }
    ensures scratched { Scratched shape r scratch.old scratch.new }
{
    let table = Table::check_block(shape, r, table, scratch, block)?;
    let geometry = Geometry { shape };
    let home = geometry.address_at(table.layout.home_sector(block));
    let there = geometry.address_at(table.lies_on(block));
    Ok(Pair {
        home: Track {
            cylinder: home.cylinder,
            head: home.head,
        },
        there: Track {
            cylinder: there.cylinder,
            head: there.head,
        },
        shift: arm::cylinders_between(home.cylinder, there.cylinder),
    })
}

// Where a block lies: whether on a spare, and on which sector of the track; and the number that the header there must carry.
#[derive(Clone, Copy, Debug, PartialEq, Eq)]
struct Seat {
    replaced: bool,
    sector: usize,
    header: u32,
}

// Whether it is a spare stays a flag: both seats have a sector and a header, and what follows is the same for both but for the image.
// Where a block lies, and its header there: on a spare that names it, with the descriptor for its header, else at home with its own number.
fn seat_of(table: Table<'_>, block: u32) -> Seat
    requires { block < table.layout.drive.blocks }
    ensures { result ≡ seat_of table.entry.layout.drive table.entry.words.now block }
{
    let drive = table.layout.drive;
    match table.place_of(block) {
        Some(place) => Seat {
            replaced: true,
            sector: drive.l as usize + place % drive.r as usize,
            header: table.words[place],
        },
        None => Seat {
            replaced: false,
            sector: (block % drive.l) as usize,
            header: block,
        },
    }
}

// 15, 16, 17 or 18 for the sector image that starts at a place of a track and is judged where it lies.
fn check_part(size: usize, track: &[u8], start: usize, number: u32) -> Result<(), Refusal>
    requires { start + (size + image_extra) ≤ length track.now }
    ensures { Passes (contents_fault size (image_at size start track.now) number) result }
{
    image::check_contents(size, &track[start..start + (size + IMAGE_EXTRA)], number)
}

// The images of the two tracks that a block may lie on, of its home and of its spare, and how many data bytes each of their sectors has.
#[derive(Clone, Copy)]
struct Images<'a> {
    size: usize,
    home: &'a [u8],
    spare: &'a [u8],
    ghost fits: { sectors_most * (size + image_extra) < 2 ^ 32 },
}

// Shape, r, table, scratch and block stay one by one, as they are lent: the scratch is written before there is a `Table`.
impl<'a> Images<'a> {
    // The images of a read: 1 for a size that a sector's data does not have.
    fn check(size: u32, home: &'a [u8], spare: &'a [u8]) -> Result<Images<'a>, Refusal>
        ensures { GivesSuch (data_size_fault size) (λ images. (images.size ≡ size) × (images.home ≡ home.entry) × (images.spare ≡ spare.entry)) result }
    {
        paper::check_data_size(size)?;
        Ok(Images {
            size: size as usize,
            home,
            spare,
        })
    }

    // The image of the track that a block lies on.
    fn track_of(self, replaced: bool) -> &'a [u8]
        ensures { result ≡ pick replaced self.entry.spare self.entry.home }
    {
        if replaced { self.spare } else { self.home }
    }

    // 1, 7, 11, 5 or 14 for what is lent: no sector is looked into.
    #[tactic(auto, unfolding(crate::specs::Faults::lent_fault))]
    fn check_lent<'t>(
        self,
        shape: Shape,
        r: u32,
        table: &'t [u32],
        scratch: &mut [u32],
        block: u32,
    ) -> Result<Table<'t>, Refusal>
        ensures value { GivesSuch (lent_fault self.entry.size shape r table.now scratch.old block self.entry.home.now self.entry.spare.now) (λ checked. (checked.layout.drive ≡ drive_of shape r) × (checked.words.now ≡ table.now) × (block < checked.layout.drive.blocks)) result }
        ensures scratched { Scratched shape r scratch.old scratch.new }
    {
        let table = Table::check_block(shape, r, table, scratch, block)?;
        let long = shape.sectors as usize * (self.size + IMAGE_EXTRA);
        if self.home.len() != long || self.spare.len() != long {
            return Err(Refusal::WrongLength);
        }
        Ok(table)
    }

    // Where the data of a block begins. Checks 1, 7, 11, 5, 14, 15 to 18.
    #[tactic(auto, unfolding(crate::specs::Faults::block_read_fault))]
    fn spot(
        self,
        shape: Shape,
        r: u32,
        table: &[u32],
        scratch: &mut [u32],
        block: u32,
    ) -> Result<Spot, Refusal>
        ensures spot_sized { SpotSized self.entry.size shape r table.now scratch.old block self.entry.home.now self.entry.spare.now result }
        ensures scratched { Scratched shape r scratch.old scratch.new }
    {
        let table = self.check_lent(shape, r, table, scratch, block)?;
        let seat = seat_of(table, block);
        let start = seat.sector * (self.size + IMAGE_EXTRA);
        check_part(self.size, self.track_of(seat.replaced), start, seat.header)?;
        let offset = (start + HEADER_SIZE) as u32;
        if seat.replaced {
            return Ok(Spot::InSpare(offset));
        }
        Ok(Spot::InHome(offset))
    }

    // Whether a block is good. Checks 1, 7, 11, 5, 14, 15 to 18.
    fn judge(
        self,
        shape: Shape,
        r: u32,
        table: &[u32],
        scratch: &mut [u32],
        block: u32,
    ) -> Result<(), Refusal>
        ensures judge_sized { JudgeSized self.entry.size shape r table.now scratch.old block self.entry.home.now self.entry.spare.now result }
        ensures scratched { Scratched shape r scratch.old scratch.new }
    {
        self.spot(shape, r, table, scratch, block)?;
        Ok(())
    }

    // The data of a good block where it lies, in whichever image that is; else the empty part at the start of home.
    fn data(self, shape: Shape, r: u32, table: &[u32], scratch: &mut [u32], block: u32) -> &'a [u8]
        ensures data_sized { DataSized self.entry.size shape r table.now scratch.old block self.entry.home self.entry.spare result }
        ensures scratched { Scratched shape r scratch.old scratch.new }
    {
        match self.spot(shape, r, table, scratch, block) {
            Ok(Spot::InHome(offset)) => &self.home[offset as usize..offset as usize + self.size],
            Ok(Spot::InSpare(offset)) => &self.spare[offset as usize..offset as usize + self.size],
            Err(_) => &self.home[0..0],
        }
    }
}

// What the public calls take stays one by one: the C interface lends it so, and each `tb_read_` call hands it on as it is.

// The verdict on a block from the images of its home track and of its spare's track. Checks 1, 7, 11, 5, 14, 15 to 18.
pub fn judge(
    size: u32,
    shape: Shape,
    r: u32,
    table: &[u32],
    scratch: &mut [u32],
    block: u32,
    home: &[u8],
    spare: &[u8],
) -> Result<(), Refusal>
    ensures judge { Judge size shape r table.now scratch.old block home.now spare.now result }
    ensures read_scratched { ReadScratched size shape r scratch.old scratch.new }
{
    Images::check(size, home, spare)?.judge(shape, r, table, scratch, block)
}

// The data of a good block where it lies, in whichever image that is; the empty part at the start of home exactly when the verdict refuses.
// Stays a part and no `Result`: this call cannot fail, and `judge` beside it says why a part is empty.
pub fn data<'a>(
    size: u32,
    shape: Shape,
    r: u32,
    table: &[u32],
    scratch: &mut [u32],
    block: u32,
    home: &'a [u8],
    spare: &'a [u8],
) -> &'a [u8]
    ensures lends_data { Data size shape r table.now scratch.old block home.entry spare.entry result }
    ensures read_scratched { ReadScratched size shape r scratch.old scratch.new }
{
    match Images::check(size, home, spare) {
        Ok(images) => images.data(shape, r, table, scratch, block),
        Err(_) => &home[0..0],
    }
}

// In which image, and how far inside it, the data of a good block begins. Checks 1, 7, 11, 5, 14, 15 to 18.
pub fn spot(
    size: u32,
    shape: Shape,
    r: u32,
    table: &[u32],
    scratch: &mut [u32],
    block: u32,
    home: &[u8],
    spare: &[u8],
) -> Result<Spot, Refusal>
    ensures spots { Spots size shape r table.now scratch.old block home.now spare.now result }
    ensures read_scratched { ReadScratched size shape r scratch.old scratch.new }
{
    Images::check(size, home, spare)?.spot(shape, r, table, scratch, block)
}
