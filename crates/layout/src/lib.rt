// A revectored drive: its check, its numbers, where homes and spares lie, and descriptor words.
#![tactic(auto)]

ghost use Rattle.std.specs.Prelude.{◌≡◌, false, ◌<◌, ◌*◌};
ghost use Rattle.paper.specs.Promise.{Passes, GivesSuch};
ghost use Rattle.shape.specs.Shapes.{Shaped};
ghost use Rattle.layout.specs.Layouts.{Spared, drive_fault, drive_of, sectors_per_track, home_sector, spare_sector, home_cylinder, spare_cylinder};
ghost use Rattle.layout.specs.Steps.{Laid, spared_fault};
ghost use Rattle.layout.specs.Sides.{is_home, block_of_home, place_of_spare};
ghost use Rattle.layout.specs.Descriptors.{free, unusable, null, primary, is_allocated, names};

use paper::{Refusal, SPARES_MOST};
use shape::{Geometry, Shape};
pub use words::{AT_PRIMARY, CODE_UNIT, ELSEWHERE, code_of, number_of};

// The codes that a descriptor alone has; those that it shares with a header stand in `words`.
// Stay numbers: a descriptor lies in memory that C lends, and may have any code until the table is checked.
pub const FREE: u32 = 0;

pub const UNUSABLE: u32 = 4;

pub const NULL: u32 = 8;

// The constants are those of the definitions.
fn codes_agree()
    ensures free_value { FREE ≡ free }
    ensures unusable_value { UNUSABLE ≡ unusable }
    ensures null_value { NULL ≡ null }
{}

// The numbers of a revectored drive: T tracks, H heads, l home sectors and r spares of a track, T × r spares and T × l home blocks.
#[derive(Clone, Copy, Debug, PartialEq, Eq)]
pub struct Drive {
    pub tracks: u32,
    pub heads: u32,
    pub l: u32,
    pub r: u32,
    pub spares: u32,
    pub blocks: u32,
}

// Refusal 1 for r or T × r outside its range.
fn check_spares(geometry: Geometry, r: u32) -> Result<(), Refusal>
    ensures { Passes (spared_fault geometry.shape r) result }
{
    let shape = geometry.shape;
    if r < 1 {
        return Err(Refusal::OutOfRange);
    }
    if shape.sectors <= r {
        return Err(Refusal::OutOfRange);
    }
    if SPARES_MOST < shape.cylinders * shape.heads * r {
        return Err(Refusal::OutOfRange);
    }
    Ok(())
}

// That the spares are in range stays a clause: no other function needs it.
// The numbers of a drive that passes its check.
fn numbers(geometry: Geometry, r: u32) -> Drive
    requires { Spared geometry.shape r }
    ensures { result ≡ drive_of geometry.shape r }
{
    let shape = geometry.shape;
    let tracks = shape.cylinders * shape.heads;
    Drive {
        tracks,
        heads: shape.heads,
        l: shape.sectors - r,
        r,
        spares: tracks * r,
        blocks: tracks * (shape.sectors - r),
    }
}

// The numbers of a revectored drive, known to fit together as those of a drive that passes the check do. Only other crates call its functions.
#[derive(Clone, Copy)]
pub struct Layout {
    pub drive: Drive,
    ghost laid: { Laid drive },
}

impl Layout {
    // Check 1 of a revectored drive: a number of the shape, r or T × r outside its range.
    pub fn new(shape: Shape, r: u32) -> Result<Layout, Refusal>
        ensures { GivesSuch (drive_fault shape r) (λ layout. Shaped shape × (layout.drive ≡ drive_of shape r)) result }
    {
        let geometry = Geometry::new(shape)?;
        check_spares(geometry, r)?;
        let drive = numbers(geometry, r);
        Ok(Layout { drive })
    }

    // The place where the search for a block's spare starts.
    pub fn primary(self, block: u32) -> u32
        requires { block < self.drive.blocks }
        ensures { result ≡ primary self.drive block }
    {
        block / self.drive.l * self.drive.r
    }

    // That a block, a place or a sector is below its number stays a clause, here and in the crates above: it is said of it and of a drive together, and a value of both would be made for one call and taken apart in it.
    // Homes and spares stay functions of their own: the definitions give each its formula, and one over both would have to be told which by every caller.

    // The sector of a block's home.
    pub fn home_sector(self, block: u32) -> u32
        requires { block < self.drive.blocks }
        ensures { result ≡ home_sector self.drive block }
    {
        let drive = self.drive;
        block / drive.l * (drive.l + drive.r) + block % drive.l
    }

    // The sector of a spare.
    pub fn spare_sector(self, place: u32) -> u32
        requires { place < self.drive.spares }
        ensures { result ≡ spare_sector self.drive place }
    {
        let drive = self.drive;
        place / drive.r * (drive.l + drive.r) + (drive.l + place % drive.r)
    }

    // The cylinder of a block's home.
    pub fn home_cylinder(self, block: u32) -> u32
        ensures { result ≡ home_cylinder self.drive block }
    {
        block / self.drive.l / self.drive.heads
    }

    // The cylinder of a spare.
    pub fn spare_cylinder(self, place: u32) -> u32
        ensures { result ≡ spare_cylinder self.drive place }
    {
        place / self.drive.r / self.drive.heads
    }

    // Whether a sector is the home of a block, and not a spare.
    pub fn is_home(self, sector: u32) -> bool
        ensures { result ≡ is_home self.drive sector }
    {
        sector % (self.drive.l + self.drive.r) < self.drive.l
    }

    // The block whose home a sector is.
    pub fn block_of_home(self, sector: u32) -> u32
        requires { sector < self.drive.tracks * sectors_per_track self.drive }
        ensures { result ≡ block_of_home self.drive sector }
    {
        let sectors = self.drive.l + self.drive.r;
        sector / sectors * self.drive.l + sector % sectors
    }

    // The number of the spare that a sector is, which is its place in the table.
    pub fn place_of_spare(self, sector: u32) -> u32
        requires sector_bound { sector < self.drive.tracks * sectors_per_track self.drive }
        requires no_home { is_home self.drive sector ≡ false }
        ensures { result ≡ place_of_spare self.drive sector }
    {
        let sectors = self.drive.l + self.drive.r;
        sector / sectors * self.drive.r + (sector % sectors - self.drive.l)
    }
}

// Whether a descriptor is allocated. Only other crates call this.
pub fn is_allocated(word: u32) -> bool
    ensures { result ≡ is_allocated word }
{
    let code = code_of(word);
    code == AT_PRIMARY || code == ELSEWHERE
}

// Whether a descriptor names this block. The number is compared first, since few are equal. Only other crates call this.
pub fn names(word: u32, block: u32) -> bool
    ensures { result ≡ names word block }
{
    number_of(word) == block && is_allocated(word)
}
