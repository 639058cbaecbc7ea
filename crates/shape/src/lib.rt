// The shape of a drive: its check, sector number ↔ cylinder, head, sector, and the angle of a sector.
#![tactic(auto)]

ghost use Rattle.std.specs.Prelude.{◌<◌, ◌≡◌};
ghost use Rattle.paper.specs.Promise.{Passes, GivesSuch};
ghost use Rattle.shape.specs.Shapes.{Shaped, size_of, shape_fault};
ghost use Rattle.shape.specs.Addresses.{OnDrive, sector_at, group_of, angle_at, address_at, off_drive_fault};
ghost use Rattle.shape.specs.Promises.{SectorOf, AddressOf};
ghost use Rattle.shape.specs.Steps.{group_fault};

use paper::{CYLINDERS_MOST, HEADS_MOST, Refusal, SECTORS_LEAST, SECTORS_MOST};

// How many cylinders, heads and sectors per track a drive has: the paper's C, H and S. Its heads are g groups of t tracks, and each group starts
// an offset of sectors after the one before it.
#[repr(C)]
#[derive(Clone, Copy, Debug, PartialEq, Eq)]
pub struct Shape {
    pub cylinders: u32,
    pub heads: u32,
    pub sectors: u32,
    pub groups: u32,
    pub tracks: u32,
    pub offset: u32,
}

impl Shape {
    // 6 for a cylinder, head or sector that is not below its bound. Only other crates call this.
    pub fn check_on_drive(self, cylinder: u32, head: u32, sector: u32) -> Result<(), Refusal>
        ensures { Passes (off_drive_fault self cylinder head sector) result }
    {
        if self.cylinders <= cylinder {
            return Err(Refusal::NoSuchSector);
        }
        if self.heads <= head {
            return Err(Refusal::NoSuchSector);
        }
        if self.sectors <= sector {
            return Err(Refusal::NoSuchSector);
        }
        Ok(())
    }
}

// A sector by its cylinder, its head and its place on the track, and the angle at which it passes the head.
#[repr(C)]
#[derive(Clone, Copy, Debug, PartialEq, Eq)]
pub struct Address {
    pub cylinder: u32,
    pub head: u32,
    pub sector: u32,
    pub angle: u32,
}

// 1 for a shape number outside its range.
fn check_shape(shape: Shape) -> Result<(), Refusal>
    ensures { Passes (shape_fault shape) result }
{
    if !paper::within(1, CYLINDERS_MOST, shape.cylinders) {
        return Err(Refusal::OutOfRange);
    }
    if !paper::within(1, HEADS_MOST, shape.heads) {
        return Err(Refusal::OutOfRange);
    }
    if !paper::within(SECTORS_LEAST, SECTORS_MOST, shape.sectors) {
        return Err(Refusal::OutOfRange);
    }
    check_groups(shape)
}

// 1 for heads that are not g groups of t tracks or an offset that is no sector of a track. The ranges come first, so that the product
// fits 32 bits.
fn check_groups(shape: Shape) -> Result<(), Refusal>
    ensures { Passes (group_fault shape) result }
{
    if !paper::within(1, HEADS_MOST, shape.groups) {
        return Err(Refusal::OutOfRange);
    }
    if !paper::within(1, HEADS_MOST, shape.tracks) {
        return Err(Refusal::OutOfRange);
    }
    if shape.groups * shape.tracks != shape.heads {
        return Err(Refusal::OutOfRange);
    }
    if shape.sectors <= shape.offset {
        return Err(Refusal::OutOfRange);
    }
    Ok(())
}

// A shape that has passed its check. Only this crate and other crates of the library call its functions.
#[derive(Clone, Copy)]
pub struct Geometry {
    pub shape: Shape,
    ghost shaped: { Shaped shape },
}

impl Geometry {
    // Check 1.
    pub fn new(shape: Shape) -> Result<Geometry, Refusal>
        ensures { GivesSuch (shape_fault shape) (λ geometry. geometry.shape ≡ shape) result }
    {
        check_shape(shape)?;
        Ok(Geometry { shape })
    }

    // N, how many sectors a drive has.
    pub fn size(self) -> u32
        ensures { result ≡ size_of self.shape }
    {
        self.shape.cylinders * self.shape.heads * self.shape.sectors
    }

    // The sector number of an address on the drive.
    pub fn sector_at(self, cylinder: u32, head: u32, sector: u32) -> u32
        requires { OnDrive self.shape cylinder head sector }
        ensures { result ≡ sector_at self.shape cylinder head sector }
    {
        (cylinder * self.shape.heads + head) * self.shape.sectors + sector
    }

    // The group of a head.
    fn group_of(self, head: u32) -> u32
        ensures { result ≡ group_of self.shape head }
    {
        head / self.shape.tracks
    }

    // The angle of a sector under a head: each group starts an offset after the one before it.
    fn angle_at(self, head: u32, sector: u32) -> u32
        requires head_lt_heads { head < self.shape.heads }
        requires sector_lt_sectors { sector < self.shape.sectors }
        ensures { result ≡ angle_at self.shape head sector }
    {
        let group = self.group_of(head);
        (sector + self.shape.offset * group) % self.shape.sectors
    }

    // The address of a sector number; every address that a call answers is made here.
    pub fn address_at(self, sector: u32) -> Address
        ensures { result ≡ address_at self.shape sector }
    {
        let track = sector / self.shape.sectors;
        let head = track % self.shape.heads;
        let sector = sector % self.shape.sectors;
        Address {
            cylinder: track / self.shape.heads,
            head,
            sector,
            angle: self.angle_at(head, sector),
        }
    }
}

// Cylinder, head and sector stay one by one, here and in the crates above: the C interface hands them on so, and an `Address` has an angle, which nobody asks with.

// Cylinder, head and sector to sector number. Checks 1, 6.
pub fn sector_of(shape: Shape, cylinder: u32, head: u32, sector: u32) -> Result<u32, Refusal>
    ensures { SectorOf shape cylinder head sector result }
{
    let geometry = Geometry::new(shape)?;
    shape.check_on_drive(cylinder, head, sector)?;
    Ok(geometry.sector_at(cylinder, head, sector))
}

// Sector number to cylinder, head, sector and angle. Checks 1, 6.
pub fn address_of(shape: Shape, sector: u32) -> Result<Address, Refusal>
    ensures { AddressOf shape sector result }
{
    let geometry = Geometry::new(shape)?;
    if geometry.size() <= sector {
        return Err(Refusal::NoSuchSector);
    }
    Ok(geometry.address_at(sector))
}
