// Whether no free place comes before a block's place in the block's search order: what comes before is a run of places, or two, and lent scratch tells the next free place at or after each.
#![tactic(auto)]

ghost use Rattle.std.specs.Prelude.{◌≡◌, ◌+◌, ◌<◌, ◌≤◌, ◌^◌, leb, length, get_or, drop};
ghost use Rattle.paper.specs.Checks.{pick};
ghost use Rattle.paper.specs.Limits.{spares_most};
ghost use Rattle.seek.specs.Every.{all_below};
ghost use Rattle.order.specs.Order.{is_free};
ghost use Rattle.holes.specs.Steps.{next_free, Filled, left_end, right_start, clear_before, clear_way, Numbered};

use layout::{Layout, is_allocated, number_of};
use paper::TABLE_BLOCK;

// The next free place at or after a place, by its descriptor and the next free place after it.
fn next_at(word: u32, place: u32, later: u32) -> u32
    ensures { result ≡ pick (is_free word) place later }
{
    if order::is_free(word) {
        return place;
    }
    later
}

// Writes the next free place at or after each of the first places, from the last of them down, or the table's length where there is none.
// Scratch and a count stay, as in `table`: what is said is said of the whole scratch that C lends.
fn fill_next(table: &[u32], scratch: &mut [u32], count: usize)
    requires count_in_scratch { count ≤ length scratch.old }
    requires count_in_table { count ≤ length table.now }
    requires table_len_bound { length table.now ≤ spares_most }
    requires count_value { next_free table.now count ≡ length table.now }
    ensures filled { Filled table.now count scratch.new }
    ensures scratch_unchanged { drop count scratch.new ≡ drop count scratch.old }
{
    let mut next = table.len() as u32;
    for place in (0..count).rev() {
        next = next_at(table[place], place as u32, next);
        scratch[place] = next;
    }
}

// Whether no place from one up to another is free, by the next free place at or after the first.
fn none_free(scratch: &[u32], from: usize, to: usize) -> bool
    requires from_in_bounds { from < length scratch.now }
    requires to_bound { to < 2 ^ 32 }
    ensures { result ≡ leb to (get_or scratch.now from 0) }
{
    to as u32 <= scratch[from]
}

// Where the run that comes before a place on the primary's left ends.
fn left_end(primary: usize, place: usize) -> usize
    requires primary_lt_spares_most { primary < spares_most }
    requires place_lt_primary { place < primary }
    ensures { result ≡ left_end primary place }
{
    let end = primary / TABLE_BLOCK * TABLE_BLOCK + TABLE_BLOCK;
    let far = primary + (primary - place);
    if end <= far {
        return end;
    }
    far + 1
}

// Where the run that comes before a place on the primary's right starts.
fn right_start(primary: usize, place: usize) -> usize
    requires primary_lt_spares_most { primary < spares_most }
    requires primary_lt_place { primary < place }
    ensures { result ≡ right_start primary place }
{
    let start = primary / TABLE_BLOCK * TABLE_BLOCK;
    let distance = place - primary;
    if primary - start < distance {
        return start;
    }
    primary + 1 - distance
}

// Whether no free place comes before a place in the search order of a primary.
fn clear_before(table: &[u32], scratch: &[u32], primary: usize, place: usize) -> bool
    requires table_len_bound { length table.now ≤ spares_most }
    requires primary_in_table { primary < length table.now }
    requires place_in_bounds { place < length table.now }
    requires primary_in_scratch { primary < length scratch.now }
    requires filled { Filled table.now (primary + 1) scratch.now }
    ensures { result ≡ clear_before table.now primary place }
{
    let start = primary / TABLE_BLOCK * TABLE_BLOCK;
    let end = start + TABLE_BLOCK;
    if place < start {
        return none_free(scratch, start, table.len()) && none_free(scratch, 0, place);
    }
    if end <= place {
        return none_free(scratch, start, place);
    }
    if place < primary {
        return none_free(scratch, place + 1, left_end(primary, place));
    }
    place == primary || none_free(scratch, right_start(primary, place), place)
}

// Whether no free place comes before the place of the block that a place names, where it names one.
fn clear_way(layout: Layout, table: &[u32], scratch: &[u32], place: usize) -> bool
    requires numbered { Numbered layout.drive table.now }
    requires place_in_bounds { place < length table.now }
    requires spares_in_bounds { layout.drive.spares ≤ length scratch.now }
    requires filled { Filled table.now layout.drive.spares scratch.now }
    ensures { result ≡ clear_way layout.drive table.now place }
{
    let word = table[place];
    !is_allocated(word)
        || clear_before(
            table,
            scratch,
            layout.primary(number_of(word)) as usize,
            place,
        )
}

// Whether no free place comes before the place of any block that a table names. Of the scratch only the numbers for the spares are written. Only other crates call this.
pub fn no_holes(layout: Layout, table: &[u32], scratch: &mut [u32]) -> bool
    requires numbered { Numbered layout.drive table.now }
    requires spares_in_bounds { layout.drive.spares ≤ length scratch.old }
    ensures value { result ≡ all_below (clear_way layout.drive table.now) (length table.now) }
    ensures scratch_unchanged { drop layout.drive.spares scratch.new ≡ drop layout.drive.spares scratch.old }
{
    fill_next(table, scratch, layout.drive.spares as usize);
    (0..table.len()).all(|place| clear_way(layout, table, scratch, place))
}
