// The first table of a revectored drive: of a list of bad sectors, the spares are marked unusable and then the homes are given spares, the lowest block first.
#![tactic(auto)]

ghost use Rattle.std.specs.Prelude.{◌≡◌, true, ◌*◌, ◌<◌, ◌≤◌, length};
ghost use Rattle.paper.specs.Promise.{Passes, GivesSuch, written};
ghost use Rattle.layout.specs.Layouts.{drive_of, sectors_per_track};
ghost use Rattle.layout.specs.Descriptors.{free};
ghost use Rattle.layout.specs.Sides.{is_home};
ghost use Rattle.table.specs.Places.{table_length};
ghost use Rattle.table.specs.Steps.{Obeys};
ghost use Rattle.table.specs.Counting.{code_count};
ghost use Rattle.first_table.specs.Marks.{bad_homes, good_spares};
ghost use Rattle.first_table.specs.Tables.{replaced_all, first_table, spare_fault, first_table_fault};
ghost use Rattle.first_table.specs.Steps.{Replaceable, replaced_also};
ghost use Rattle.first_table.specs.Promises.{FirstTable};

mod marks;

use layout::Layout;
use marks::BadSectors;
use paper::Refusal;
use shape::{Geometry, Shape};

// That the table obeys stays a clause, as in `replacing`: the table is written.

// Replaces the home block of a bad sector, for which there is a spare; the sector of a spare alters nothing.
fn replace_one(layout: Layout, table: &mut [u32], sector: u32)
    requires obeys { Obeys layout.drive table.old }
    requires sector_bound { sector < layout.drive.tracks * sectors_per_track layout.drive }
    requires free_nonzero { is_home layout.drive sector ≡ true → 0 < code_count table.old free }
    ensures { table.new ≡ replaced_also layout.drive sector table.old }
{
    if !layout.is_home(sector) {
        return;
    }
    replacing::replace_in(layout, table, layout.block_of_home(sector));
}

// Replaces the bad home blocks of a list, for which there are spares, in the list's order.
fn replace_all(bad: BadSectors<'_>, table: &mut [u32])
    requires { Replaceable bad.layout.drive table.old (bad_homes bad.layout.drive bad.list.now) }
    ensures { table.new ≡ replaced_all bad.entry.layout.drive table.old (bad_homes bad.entry.layout.drive bad.entry.list.now) }
{
    let layout = bad.layout;
    let list = bad.list;
    for sector in list {
        replace_one(layout, table, *sector);
    }
}

// Writes the first table into the first places of the room, and leaves the rest.
fn build(bad: BadSectors<'_>, room: &mut [u32])
    requires drive_in_bounds { table_length bad.layout.drive ≤ length room.old }
    requires list_len_bound { length (bad_homes bad.layout.drive bad.list.now) ≤ good_spares bad.layout.drive bad.list.now }
    ensures { room.new ≡ written (first_table bad.entry.layout.drive bad.entry.list.now) room.old }
{
    marks::mark(bad, room);
    let long = table::table_length(bad.layout);
    replace_all(bad, &mut room[..long]);
}

// Refusal 13 for more bad home blocks than good spares.
fn check_spares(sectors: BadSectors<'_>) -> Result<(), Refusal>
    ensures { Passes (spare_fault sectors.entry.layout.drive sectors.entry.list.now) result }
{
    let drive = sectors.layout.drive;
    let bad = marks::count_bad(sectors);
    if drive.spares - bad.spares < bad.homes {
        return Err(Refusal::NoSpare);
    }
    Ok(())
}

// The checks of a first table: 1, the list's, 7, 13.
fn check_first_table<'a>(
    shape: Shape,
    r: u32,
    list: &'a [u32],
    room: &[u32],
) -> Result<BadSectors<'a>, Refusal>
    ensures { GivesSuch (first_table_fault shape r list.now room.now) (λ bad. (bad.layout.drive ≡ drive_of shape r) × (bad.list.now ≡ list.now)) result }
{
    let layout = Layout::new(shape, r)?;
    let geometry = Geometry { shape };
    lists::check_list(geometry.size(), list)?;
    let bad = BadSectors { layout, list };
    if room.len() < table::table_length(layout) {
        return Err(Refusal::NoRoom);
    }
    check_spares(bad)?;
    Ok(bad)
}

// The first table of a list of bad sectors: its length, and the table in the first places of the room. Checks 1, the list's, 7, 13. Only other crates call this: the public call is `spares::first_table`.
pub fn build_first(shape: Shape, r: u32, list: &[u32], room: &mut [u32]) -> Result<u32, Refusal>
    ensures { FirstTable shape r list.now room.old result room.new }
{
    let bad = check_first_table(shape, r, list, room)?;
    build(bad, room);
    Ok(table::table_length(bad.layout) as u32)
}
