// How far the arm moves from the home of a block to the spare that it lies on, with the sign.
#![tactic(auto)]

ghost use Rattle.std.specs.Prelude.{◌≡◌, ◌<◌, pos, ◌-ℤ◌};
ghost use Rattle.paper.specs.Limits.{units_most};
ghost use Rattle.arm.specs.Shifts.{shift_of};

use table::Table;

// The signed number of cylinders from a home to where its block lies. Only other crates call this.
pub fn cylinders_between(home: u32, there: u32) -> i32
    requires home_lt_units_most { home < units_most }
    requires there_lt_units_most { there < units_most }
    ensures { result ≡ pos there -ℤ pos home }
{
    there as i32 - home as i32
}

// The shift of a block. Only other crates call this.
pub fn shift_of(table: Table<'_>, block: u32) -> i32
    requires { block < table.layout.drive.blocks }
    ensures { result ≡ shift_of table.entry.layout.drive table.entry.words.now block }
{
    let Some(place) = table.place_of(block) else {
        return 0;
    };
    let home = table.layout.home_cylinder(block);
    cylinders_between(home, table.layout.spare_cylinder(place as u32))
}
