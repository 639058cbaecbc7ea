// The search order of a descriptor table: the primary's table block outward, then the blocks after it and those before it, and the search of a lent table in this order.
#![tactic(auto)]

ghost use Rattle.std.specs.Prelude.{◌≡◌, map, ◌+◌, ◌-◌, ◌<◌, ◌≤◌, ◌%◌, pos, nat_abs, ◌+ℤ◌, length, take, drop, position};
ghost use Rattle.paper.specs.Limits.{table_block};
ghost use Rattle.seek.specs.Search.{first_or, rising};
ghost use Rattle.order.specs.Order.{is_free, stops, stops_at, block_order, first_stop};
ghost use Rattle.order.specs.Steps.{turns, offset_of, place_in, Finds};

use layout::{CODE_UNIT, FREE, NULL};
use paper::TABLE_BLOCK;

// How many offsets an outward search tries: 0, and each distance below the block's length to both sides.
const TURNS: u32 = 2 * TABLE_BLOCK as u32 - 1;

// The number of turns of the code is that of the definitions.
fn turns_agree()
    ensures { TURNS ≡ turns }
{}

// Whether a descriptor is free. Only this crate and other crates of the library call this.
pub fn is_free(word: u32) -> bool
    ensures { result ≡ is_free word }
{
    word == FREE * CODE_UNIT
}

// Whether a descriptor stops the search for a block.
fn stops(word: u32, sought: u32) -> bool
    ensures { result ≡ stops sought word }
{
    is_free(word) || layout::names(word, sought)
}

// The signed offset that a turn of the outward search tries: 0, +1, −1, +2, −2 and so on.
fn offset_of(turn: u32) -> i32
    requires { turn < turns }
    ensures { result ≡ offset_of turn }
{
    let distance = ((turn + 1) / 2) as i32;
    if turn % 2 == 0 {
        return -distance;
    }
    distance
}

// That o is below the block's length stays a clause of the three functions that are handed it: it comes of a remainder, and a type of its own would be made once and read at once.
// The place at a signed offset from o in its table block, or none where it lies outside.
fn place_in(o: u32, k: i32) -> Option<usize>
    requires o_lt_table_block { o < table_block }
    requires k_bound { nat_abs k ≤ table_block }
    ensures { Finds table_block (place_in (pos o +ℤ k)) result }
{
    let place = o as i32 + k;
    if place < 0 || TABLE_BLOCK as i32 <= place {
        return None;
    }
    Some(place as usize)
}

// A table and the place where its block starts stay, here and below: what a search answers is a place of the whole table.

// The table block that starts at a place, held as a value: null at first, then filled from the lent table.
fn hold(table: &[u32], start: usize) -> [u32; TABLE_BLOCK]
    requires { start + table_block ≤ length table.now }
    ensures { result ≡ take table_block (drop start table.now) }
{
    let mut held = [NULL * CODE_UNIT; TABLE_BLOCK];
    held.copy_from_slice(&table[start..start + TABLE_BLOCK]);
    held
}

// Where the search for a block stops in a held table block, outward from o, or none where it does not.
fn search_block(held: [u32; TABLE_BLOCK], o: u32, sought: u32) -> Option<usize>
    requires { o < table_block }
    ensures { Finds table_block (first_or table_block (stops_at held sought) (block_order o)) result }
{
    for turn in 0..TURNS {
        let Some(place) = place_in(o, offset_of(turn)) else {
            continue;
        };
        if stops(held[place], sought) {
            return Some(place);
        }
    }
    None
}

// Where the search for a block stops in a held table block, rising from its first place, or none where it does not.
fn rise_block(held: [u32; TABLE_BLOCK], sought: u32) -> Option<usize>
    ensures { result ≡ position (stops sought) held }
{
    held.iter().position(|word| stops(*word, sought))
}

// Where the search for a block stops in the table block that starts at a place, outward from offset o, or none where it does not.
fn search_at(table: &[u32], start: usize, o: u32, sought: u32) -> Option<usize>
    requires table_block_in_bounds { start + table_block ≤ length table.now }
    requires o_lt_table_block { o < table_block }
    ensures { Finds (length table.now) (first_or (length table.now) (stops_at table.now sought) (map (λ offset. start + offset) (block_order o))) result }
{
    let place = search_block(hold(table, start), o, sought)?;
    Some(start + place)
}

// Where the search for a block stops in the table blocks from one place up to another, rising, or none where it does not.
fn search_rising(table: &[u32], from: usize, to: usize, sought: u32) -> Option<usize>
    requires to_in_bounds { to ≤ length table.now }
    requires from_starts_block { from % table_block ≡ 0 }
    requires to_starts_block { to % table_block ≡ 0 }
    ensures { Finds (length table.now) (first_or (length table.now) (stops_at table.now sought) (rising from (to - from))) result }
{
    for block in from / TABLE_BLOCK..to / TABLE_BLOCK {
        let start = block * TABLE_BLOCK;
        if let Some(place) = rise_block(hold(table, start), sought) {
            return Some(start + place);
        }
    }
    None
}

// Where the search for a block stops in the search order of a primary, at the first place that is free or names the block, or none where it stops nowhere. Only other crates call this.
pub fn search(table: &[u32], primary: usize, sought: u32) -> Option<usize>
    requires table_block_len { length table.now % table_block ≡ 0 }
    requires primary_in_bounds { primary < length table.now }
    ensures { Finds (length table.now) (first_stop table.now sought primary) result }
{
    let start = primary / TABLE_BLOCK * TABLE_BLOCK;
    let next = start + TABLE_BLOCK;
    if let Some(near) = search_at(table, start, (primary % TABLE_BLOCK) as u32, sought) {
        return Some(near);
    }
    if let Some(after) = search_rising(table, next, table.len(), sought) {
        return Some(after);
    }
    search_rising(table, 0, start, sought)
}
