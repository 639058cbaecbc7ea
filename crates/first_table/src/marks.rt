// The descriptor table before any block is replaced: bad spares marked unusable, null beyond the spares, all else free; and how many homes and spares a list of bad sectors names.
ghost use Rattle.std.specs.Prelude.{◌≡◌, [], ◌*◌, ◌<◌, ◌≤◌, length};
ghost use Rattle.paper.specs.Promise.{written};
ghost use Rattle.lists.specs.Proper.{Proper};
ghost use Rattle.layout.specs.Layouts.{sectors_per_track};
ghost use Rattle.table.specs.Places.{table_length};
ghost use Rattle.first_table.specs.Marks.{marked_word, marked};
ghost use Rattle.first_table.specs.Steps.{marked_also, CountsBad};

use layout::{CODE_UNIT, Drive, FREE, Layout, NULL, UNUSABLE};

// A drive that has passed its check, and a list of its bad sectors that has passed its own. Only this crate makes one.
#[derive(Clone, Copy)]
pub struct BadSectors<'a> {
    pub layout: Layout,
    pub list: &'a [u32],
    ghost proper: { Proper (layout.drive.tracks * sectors_per_track layout.drive) list.now },
}

// How many home blocks, and how many spares, a list of bad sectors names.
#[derive(Clone, Copy, Debug, PartialEq, Eq)]
pub struct Bad {
    pub homes: u32,
    pub spares: u32,
}

// That the room holds the table stays a clause, here and where the table is built: it is said of the room and a layout together, and the room is written.

// Marks the spare that a bad sector is; a home sector alters nothing.
fn mark_one(layout: Layout, sector: u32, room: &mut [u32])
    requires sector_bound { sector < layout.drive.tracks * sectors_per_track layout.drive }
    requires drive_in_bounds { table_length layout.drive ≤ length room.old }
    ensures { room.new ≡ marked_also layout.drive sector room.old }
{
    if layout.is_home(sector) {
        return;
    }
    room[layout.place_of_spare(sector) as usize] = UNUSABLE * CODE_UNIT;
}

// The descriptor of a place of a table with no bad spare.
fn clear_word(drive: Drive, place: usize) -> u32
    ensures { result ≡ marked_word drive [] place }
{
    if drive.spares as usize <= place {
        return NULL * CODE_UNIT;
    }
    FREE * CODE_UNIT
}

// Writes the table with no bad spare into the first places of the room, and leaves the rest.
fn clear(layout: Layout, room: &mut [u32])
    requires { table_length layout.drive ≤ length room.old }
    ensures { room.new ≡ written (marked layout.drive []) room.old }
{
    for place in 0..table::table_length(layout) {
        room[place] = clear_word(layout.drive, place);
    }
}

// Writes the table before any block is replaced into the first places of the room, and leaves the rest. Only this crate calls this.
pub fn mark(bad: BadSectors<'_>, room: &mut [u32])
    requires { table_length bad.layout.drive ≤ length room.old }
    ensures { room.new ≡ written (marked bad.entry.layout.drive bad.entry.list.now) room.old }
{
    let layout = bad.layout;
    let list = bad.list;
    clear(layout, room);
    for sector in list {
        mark_one(layout, *sector, room);
    }
}

// How many home blocks and how many spares the list names. Only this crate calls this.
pub fn count_bad(bad: BadSectors<'_>) -> Bad
    ensures { CountsBad bad.entry.layout.drive bad.entry.list.now result }
{
    let layout = bad.layout;
    let homes = bad
        .list
        .iter()
        .filter(|sector| layout.is_home(**sector))
        .count();
    Bad {
        homes: homes as u32,
        spares: (bad.list.len() - homes) as u32,
    }
}
