// A skipped drive by its shape: block ↔ cylinder, head and sector.
#![tactic(auto)]

ghost use Rattle.skipped.specs.Promises.{AddressOf, BlockAt};

use paper::Refusal;
use shape::{Address, Geometry, Shape};

// The address that a block lies at. Checks 1, list, 5.
pub fn address_of(shape: Shape, list: &[u32], block: u32) -> Result<Address, Refusal>
    ensures { AddressOf shape list.now block result }
{
    let geometry = Geometry::new(shape)?;
    let checked = lists::check_list(geometry.size(), list)?;
    if skip::block_count(geometry.size(), list) <= block {
        return Err(Refusal::NoSuchBlock);
    }
    Ok(geometry.address_at(skip::walk(checked, block)))
}

// The block that lies at a cylinder, head and sector, or no block. Checks 1, list, 6.
pub fn block_at(
    shape: Shape,
    list: &[u32],
    cylinder: u32,
    head: u32,
    sector: u32,
) -> Result<Option<u32>, Refusal>
    ensures { BlockAt shape list.now cylinder head sector result }
{
    let geometry = Geometry::new(shape)?;
    let checked = lists::check_list(geometry.size(), list)?;
    shape.check_on_drive(cylinder, head, sector)?;
    Ok(skip::name(checked, geometry.sector_at(cylinder, head, sector)))
}
