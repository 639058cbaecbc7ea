// Look-ups by halving: long lists spread over the drive, at its start and at its end, and short ones with every block and every sector.
#![tactic(auto)]

ghost use Rattle.std.specs.Prelude.{◌*◌, ◌^◌, ◌<◌, ◌≤◌};
ghost use Rattle.paper.specs.Limits.{units_most};

use paper::UNITS_MOST;
use std::fmt::Write;
use telling::Output;

// Asks for a block and for a sector of the longest drive.
fn try_both(out: &mut Output, list: &[u32], block: u32, sector: u32) {
    telling::asking::block(out, UNITS_MOST, list, block);
    telling::asking::sector(out, UNITS_MOST, list, sector);
}

// A job of two steps on the longest drive.
fn try_job(out: &mut Output, list: &[u32], block: u32) {
    let first = telling::asking::start(out, UNITS_MOST, list, block);
    let second = telling::asking::step(out, UNITS_MOST, list, first);
    telling::asking::step(out, UNITS_MOST, list, second);
}

// A list of N sectors, each so many after the one before it, from sector 0 on: blocks near the first entries, in the middle and at the end, and the sectors that they lie on. Block 1,000,000 lies on the middle sector.
fn try_spread<const N: usize>(out: &mut Output, gap: u32, middle: u32, blocks: u32)
    requires gap_fits { gap * N < 2 ^ 32 }
    requires gap_some { (2 ≤ gap) × (gap < units_most) }
    requires blocks_some { 1 ≤ blocks }
{
    let mut list = [0u32; N];
    comparing::spread(&mut list, 0, gap);
    telling::asking::space(out, UNITS_MOST, &list);
    try_both(out, &list, 0, 1);
    try_both(out, &list, gap - 2, gap - 1);
    telling::asking::sector(out, UNITS_MOST, &list, gap);
    try_both(out, &list, gap - 1, gap + 1);
    try_both(out, &list, 1_000_000, middle);
    try_both(out, &list, blocks - 1, UNITS_MOST - 1);
    telling::asking::block(out, UNITS_MOST, &list, blocks);
    try_job(out, &list, gap - 2);
    try_job(out, &list, blocks - 1);
}

// 4,096 bad sectors stand together, from this one on.
fn try_run(out: &mut Output, words: &str, first: u32)
    requires { first < units_most }
{
    let mut list = [0u32; 4_096];
    comparing::spread(&mut list, first, 1);
    let _ = writeln!(out, "{words}");
    telling::asking::space(out, UNITS_MOST, &list);
    try_both(out, &list, 0, 0);
    try_both(out, &list, 16_773_119, 16_773_119);
    try_both(out, &list, 16_773_120, 16_773_120);
    telling::asking::sector(out, UNITS_MOST, &list, 4_095);
    telling::asking::sector(out, UNITS_MOST, &list, 4_096);
    telling::asking::sector(out, UNITS_MOST, &list, 16_777_215);
}

// A short drive, whole: every number up to N as a block and as a sector, and a job that goes along with it.
fn try_short(out: &mut Output, n: u32, list: &[u32]) {
    telling::asking::space(out, n, list);
    let mut cursor = telling::asking::start(out, n, list, 0);
    for number in 0..=n {
        telling::asking::block(out, n, list, number);
        telling::asking::sector(out, n, list, number);
        cursor = telling::asking::step(out, n, list, cursor);
    }
}

fn main() {
    let mut out = Output;
    try_spread::<4_096>(&mut out, 4_096, 1_000_245, 16_773_120);
    try_spread::<65_536>(&mut out, 256, 1_003_922, 16_711_680);
    try_run(&mut out, "the first sectors are bad", 0);
    try_run(&mut out, "the last sectors are bad", 16_773_120);
    try_short(&mut out, 2, &[]);
    try_short(&mut out, 3, &[1]);
    try_short(&mut out, 16, &[0, 3, 4, 5, 9, 10, 15]);
}
