// Replacement in a descriptor table: the spare that a block is given, the descriptor that is written there, and the old one that is marked unusable.
#![tactic(auto)]

ghost use Rattle.std.specs.Prelude.{◌≡◌, ◌<◌, length, set};
ghost use Rattle.paper.specs.Promise.{Fills};
ghost use Rattle.order.specs.Steps.{Finds};
ghost use Rattle.table.specs.Steps.{Obeys};
ghost use Rattle.replacing.specs.Replacing.{spare_for, place_fault, descriptor_at, replaced_in, killed_in, moved_in};

use layout::{CODE_UNIT, Layout, UNUSABLE};
use paper::Refusal;
use table::Table;

// The spare that a block is given, or none where no place is free. No descriptor carries the number that is sought, so the search stops at free places alone.
fn spare_for(table: Table<'_>, block: u32) -> Option<usize>
    requires { block < table.layout.drive.blocks }
    ensures { Finds (length table.entry.words.now) (spare_for table.entry.layout.drive table.entry.words.now block) result }
{
    order::search(table.words, table.layout.primary(block) as usize, CODE_UNIT)
}

// The descriptor of a block at a place.
fn descriptor(layout: Layout, place: usize, block: u32) -> u32
    requires { block < layout.drive.blocks }
    ensures { result ≡ descriptor_at layout.drive place block }
{
    table::code_at(layout, place, block) * CODE_UNIT + block
}

// Writes the descriptor of a block at a place.
fn store(layout: Layout, table: &mut [u32], block: u32, place: usize)
    requires block_lt_blocks { block < layout.drive.blocks }
    requires place_in_bounds { place < length table.old }
    ensures { table.new ≡ set table.old place (descriptor_at layout.drive place block) }
{
    table[place] = descriptor(layout, place, block);
}

// That a table obeys stays a clause where the table is written: a `Table` lends its words to be read alone, and one that lent them to be written would have to be taken apart at each write.

// Replaces a block at home for which there is a spare, and answers its place. Only other crates call this.
pub fn replace_in(layout: Layout, table: &mut [u32], block: u32) -> u32
    requires obeys { Obeys layout.drive table.old }
    requires block_lt_blocks { block < layout.drive.blocks }
    requires block_in_bounds { spare_for layout.drive table.old block < length table.old }
    ensures value { result ≡ spare_for layout.drive table.old block }
    ensures table_after { table.new ≡ replaced_in layout.drive table.old block }
{
    let place = spare_for(
        Table {
            layout,
            words: table,
        },
        block,
    )
    .unwrap();
    store(layout, table, block, place);
    place as u32
}

// Marks the spare of a block unusable, where the block has one.
fn kill(layout: Layout, table: &mut [u32], block: u32)
    requires obeys { Obeys layout.drive table.old }
    requires block_lt_blocks { block < layout.drive.blocks }
    ensures { table.new ≡ killed_in table.old block }
{
    if let Some(place) = (Table {
        layout,
        words: table,
    })
    .place_of(block)
    {
        table[place] = UNUSABLE * CODE_UNIT;
    }
}

// Replaces a block, at home or on a spare, and answers its new place; where no place is free it leaves the table. Check 13. Only other crates call this.
pub fn move_in(layout: Layout, table: &mut [u32], block: u32) -> Result<u32, Refusal>
    requires obeys { Obeys layout.drive table.old }
    requires block_lt_blocks { block < layout.drive.blocks }
    ensures { Fills (place_fault layout.drive table.old block) (spare_for layout.drive table.old block) table.old (moved_in layout.drive table.old block) result table.new }
{
    let Some(spare) = spare_for(
        Table {
            layout,
            words: table,
        },
        block,
    ) else {
        return Err(Refusal::NoSpare);
    };
    kill(layout, table, block);
    store(layout, table, block, spare);
    Ok(spare as u32)
}
