// The public calls on a revectored drive: where a block lies, how far its spare is from its home, what lies on a sector, replacement, the census, and a first table.
#![tactic(auto)]

ghost use Rattle.table.specs.Scratch.{Scratched};
ghost use Rattle.first_table.specs.Promises.{FirstTable};
ghost use Rattle.spares.specs.Promises.{SectorOf, AddressOf, ShiftOf, BlockOn, BlockAt, Replacement, CensusOf};

use paper::Refusal;
use shape::{Address, Geometry, Shape};
use table::{Census, Table};

// Shape, r, table and scratch stay one by one: the C interface lends them so, and each `tb_spare_` call hands them on as they are.

// Block to sector number. Checks 1, 7, 11, 5.
pub fn sector_of(
    shape: Shape,
    r: u32,
    table: &[u32],
    scratch: &mut [u32],
    block: u32,
) -> Result<u32, Refusal>
    ensures sector_of { SectorOf shape r table.now scratch.old block result }
    ensures scratched { Scratched shape r scratch.old scratch.new }
{
    let table = Table::check_block(shape, r, table, scratch, block)?;
    Ok(table.lies_on(block))
}

// Block to cylinder, head, sector and angle. Checks 1, 7, 11, 5.
pub fn address_of(
    shape: Shape,
    r: u32,
    table: &[u32],
    scratch: &mut [u32],
    block: u32,
) -> Result<Address, Refusal>
    ensures address_of { AddressOf shape r table.now scratch.old block result }
    ensures scratched { Scratched shape r scratch.old scratch.new }
{
    let table = Table::check_block(shape, r, table, scratch, block)?;
    let geometry = Geometry { shape };
    Ok(geometry.address_at(table.lies_on(block)))
}

// How far a block's spare is from its home. Checks 1, 7, 11, 5.
pub fn shift(
    shape: Shape,
    r: u32,
    table: &[u32],
    scratch: &mut [u32],
    block: u32,
) -> Result<i32, Refusal>
    ensures shift_of { ShiftOf shape r table.now scratch.old block result }
    ensures scratched { Scratched shape r scratch.old scratch.new }
{
    let table = Table::check_block(shape, r, table, scratch, block)?;
    Ok(arm::shift_of(table, block))
}

// Sector number to the block that lies there, or none. Checks 1, 7, 11, 6.
pub fn block_on(
    shape: Shape,
    r: u32,
    table: &[u32],
    scratch: &mut [u32],
    sector: u32,
) -> Result<Option<u32>, Refusal>
    ensures block_on { BlockOn shape r table.now scratch.old sector result }
    ensures scratched { Scratched shape r scratch.old scratch.new }
{
    let table = Table::check(shape, r, table, scratch)?;
    let geometry = Geometry { shape };
    if geometry.size() <= sector {
        return Err(Refusal::NoSuchSector);
    }
    Ok(table.lying_on(sector))
}

// Cylinder, head and sector to the block that lies there, or none. Checks 1, 7, 11, 6.
pub fn block_at(
    shape: Shape,
    r: u32,
    table: &[u32],
    scratch: &mut [u32],
    cylinder: u32,
    head: u32,
    sector: u32,
) -> Result<Option<u32>, Refusal>
    ensures block_at { BlockAt shape r table.now scratch.old cylinder head sector result }
    ensures scratched { Scratched shape r scratch.old scratch.new }
{
    let table = Table::check(shape, r, table, scratch)?;
    let geometry = Geometry { shape };
    shape.check_on_drive(cylinder, head, sector)?;
    Ok(table.lying_on(geometry.sector_at(cylinder, head, sector)))
}

// Replaces a block, at home or on a spare: marks the spare that it lay on unusable, writes its descriptor at the first free place in its search order, and answers the place. Checks 1, 7, 11, 5, 13.
pub fn replace(
    shape: Shape,
    r: u32,
    table: &mut [u32],
    scratch: &mut [u32],
    block: u32,
) -> Result<u32, Refusal>
    ensures replacement { Replacement shape r table.old scratch.old block result table.new }
    ensures scratched { Scratched shape r scratch.old scratch.new }
{
    let layout = Table::check_block(shape, r, table, scratch, block)?.layout;
    replacing::move_in(layout, table, block)
}

// Counts the descriptors of each code. Checks 1, 7, 11.
pub fn census(shape: Shape, r: u32, table: &[u32], scratch: &mut [u32]) -> Result<Census, Refusal>
    ensures census_of { CensusOf shape r table.now scratch.old result }
    ensures scratched { Scratched shape r scratch.old scratch.new }
{
    let table = Table::check(shape, r, table, scratch)?;
    Ok(table::census_of(table.words))
}

// The first table of a list of bad sectors, into the first places of the room: its length. Checks 1, list, 7, 13.
pub fn first_table(shape: Shape, r: u32, list: &[u32], room: &mut [u32]) -> Result<u32, Refusal>
    ensures { FirstTable shape r list.now room.old result room.new }
{
    first_table::build_first(shape, r, list, room)
}
