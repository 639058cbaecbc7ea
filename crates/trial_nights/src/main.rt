// Nights: a Format that fills the list and the one after it, rooms that are too short, lists in use that are too long, the paper's night, and two nights as one.
#![tactic(auto)]

use format::Formatted;
use std::fmt::Write;
use telling::rows::Entries;
use telling::{Output, answers};

// What a room holds before a night: no entry of a drive of 200,000 sectors.
const UNTOUCHED: u32 = 200_000;

// What a night made that was refused.
const NOTHING: Formatted = Formatted {
    grown: 0,
    list: 0,
    space: 0,
};

// Formats, and writes what was lent, the answer, and how many places of each room changed. Hands back what was made.
fn night(
    out: &mut Output,
    n: u32,
    p: &[u32],
    g: &[u32],
    space: u32,
    option: u32,
    d: &[u32],
    grown: &mut [u32],
    list: &mut [u32],
) -> Formatted {
    let _ = writeln!(
        out,
        "N {n}, P of {}, G of {}, space {space}, option {option}, D of {}, rooms of {} and {}",
        p.len(),
        g.len(),
        d.len(),
        grown.len(),
        list.len()
    );
    let answer = format::format(n, p, g, space, option, d, grown, list);
    let _ = writeln!(out, "  {}", answers::Formatted(answer));
    let grown_changed = comparing::changed(grown, UNTOUCHED);
    let list_changed = comparing::changed(list, UNTOUCHED);
    let _ = writeln!(out, "  places changed: {grown_changed} and {list_changed}");
    answer.unwrap_or(NOTHING)
}

// Holds the lists of a full night against the odd sectors and against all sectors.
fn try_filled(out: &mut Output, grown: &[u32], list: &[u32]) {
    let mut odd = [0u32; 32_768];
    comparing::spread(&mut odd, 1, 2);
    let mut all = [0u32; 65_536];
    comparing::spread(&mut all, 0, 1);
    let not_odd = comparing::differing(grown, &odd);
    let not_all = comparing::differing(list, &all);
    let _ = writeln!(
        out,
        "  entries that are not 1, 3, 5 ..: {not_odd}, and not 0, 1, 2 ..: {not_all}"
    );
}

// Every second of the first 65,536 sectors is bad, and the scan finds all between them. Each room is a place too short in turn, and then both are just long enough. The night after it finds one block more, and then none.
fn try_full(out: &mut Output, p: &[u32], d: &[u32]) {
    let mut grown = [UNTOUCHED; 32_768];
    let mut list = [UNTOUCHED; 65_536];
    night(
        out,
        200_000,
        p,
        &[],
        3,
        1,
        d,
        &mut [UNTOUCHED; 32_767],
        &mut list,
    );
    night(
        out,
        200_000,
        p,
        &[],
        3,
        1,
        d,
        &mut grown,
        &mut [UNTOUCHED; 65_535],
    );
    night(out, 200_000, p, &[], 3, 1, d, &mut grown, &mut list);
    try_filled(out, &grown, &list);
    try_lent(out, p, &grown, 3, 1, &[0]);
    try_lent(out, p, &grown, 3, 1, &[]);
}

// A night with rooms for one entry more than a list may have.
fn try_lent(out: &mut Output, p: &[u32], g: &[u32], space: u32, option: u32, d: &[u32]) {
    let mut grown = [UNTOUCHED; 32_769];
    let mut list = [UNTOUCHED; 65_537];
    night(out, 200_000, p, g, space, option, d, &mut grown, &mut list);
}

// P and G have one entry too many together: refused where they are in use, whatever the option, and where they would be.
fn try_in_use(out: &mut Output) {
    let mut p = [0u32; 65_536];
    comparing::spread(&mut p, 0, 1);
    try_lent(out, &p, &[100_000], 3, 0, &[]);
    try_lent(out, &p, &[100_000], 3, 6, &[]);
    try_lent(out, &p, &[100_000], 1, 1, &[]);
    try_lent(out, &p, &[100_000], 1, 6, &[]);
    try_lent(out, &p, &[100_000], 2, 3, &[0]);
}

// The paper's night, and where two blocks of the new map lie in the old one.
fn try_paper(out: &mut Output) {
    let mut grown = [UNTOUCHED; 3];
    let mut list = [UNTOUCHED; 5];
    let made = night(out, 20, &[3, 7], &[], 3, 1, &[3, 16], &mut grown, &mut list);
    let grown = comparing::first(&grown, made.grown);
    let _ = writeln!(out, "  grown list: {}", Entries(grown));
    let new = comparing::first(&list, made.list);
    let _ = writeln!(out, "  list: {}", Entries(new));
    telling::asking::block(out, 20, new, 0);
    telling::asking::sector(out, 20, &[3, 7], 0);
    telling::asking::block(out, 20, new, 15);
    telling::asking::sector(out, 20, &[3, 7], 19);
}

// Two nights one after the other, and both as one night in the first night's blocks: at how many places the lists differ.
fn try_both(out: &mut Output, n: u32, p: &[u32], first: &[u32], second: &[u32], joined: &[u32]) {
    let mut between = [UNTOUCHED; 32_768];
    let mut grown = [UNTOUCHED; 32_768];
    let mut list = [UNTOUCHED; 65_536];
    let one = night(out, n, p, &[], 3, 1, first, &mut between, &mut list);
    let g = comparing::first(&between, one.grown);
    night(out, n, p, g, 3, 1, second, &mut grown, &mut list);
    let mut grown_at_once = [UNTOUCHED; 32_768];
    let mut list_at_once = [UNTOUCHED; 65_536];
    night(
        out,
        n,
        p,
        &[],
        3,
        1,
        joined,
        &mut grown_at_once,
        &mut list_at_once,
    );
    let grown_differing = comparing::differing(&grown, &grown_at_once);
    let list_differing = comparing::differing(&list, &list_at_once);
    let _ = writeln!(
        out,
        "  places that differ: {grown_differing} and {list_differing}"
    );
}

fn main() {
    let mut out = Output;
    let mut even = [0u32; 32_768];
    comparing::spread(&mut even, 0, 2);
    let mut blocks = [0u32; 32_768];
    comparing::spread(&mut blocks, 0, 1);
    try_full(&mut out, &even, &blocks);
    try_in_use(&mut out);
    try_paper(&mut out);
    try_both(&mut out, 20, &[3, 7], &[3, 16], &[0, 15], &[0, 3, 16, 17]);
    let half = comparing::first(&blocks, 16_384);
    try_both(&mut out, 200_000, &even, half, half, &blocks);
}
