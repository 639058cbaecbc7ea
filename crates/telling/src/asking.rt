// Calls of skipping, a line each: what is asked and what is answered.
ghost use Rattle.std.specs.Prelude.{◌≡◌, suc};
ghost use Rattle.paper.specs.Checks.{answer};
ghost use Rattle.skip.specs.Translation.{sector_of_fault};
ghost use Rattle.skip.specs.Cursors.{cursor_at, no_cursor, step_fault};

use crate::Output;
use crate::answers::{Block, Job, Next, Told};
use skip::Cursor;
use std::fmt::Write;

// The cursor that a refused start hands back.
const NO_CURSOR: Cursor = Cursor {
    block: 0,
    skipped: 0,
};

// Writes N and how long the list is. Only other crates call this.
pub fn space(out: &mut Output, n: u32, list: &[u32]) {
    let long = list.len();
    let _ = writeln!(out, "N {n}, list of {long}");
}

// Asks for the sector of a block. Only other crates call this.
pub fn block(out: &mut Output, n: u32, list: &[u32], block: u32) {
    let sector = Told("sector", skip::sector_of(n, list, block));
    let _ = writeln!(out, "  block {block}: {sector}");
}

// Asks for the block on a sector. Only other crates call this.
pub fn sector(out: &mut Output, n: u32, list: &[u32], sector: u32) {
    let block = Block(skip::block_on(n, list, sector));
    let _ = writeln!(out, "  sector {sector}: {block}");
}

// Opens a job at a block, and hands back its cursor; where that is refused, the cursor of block 0 that has passed none. Only other crates call this.
pub fn start(out: &mut Output, n: u32, list: &[u32], block: u32) -> Cursor
    ensures { result ≡ answer (sector_of_fault n list.now block) (λ fault. no_cursor) (cursor_at n list.now block) }
{
    let job = Cursor::start(n, list, block);
    let _ = writeln!(out, "  start at {block}: {}", Job(job));
    job.unwrap_or(NO_CURSOR)
}

// Checks a cursor. Only other crates call this.
pub fn check(out: &mut Output, n: u32, list: &[u32], cursor: Cursor) {
    let job = Job(cursor.check(n, list));
    let _ = writeln!(out, "  check of {}: {job}", Next(cursor));
}

// Steps a cursor, and hands back the one after it; where that is refused, the cursor as it is. Only other crates call this.
pub fn step(out: &mut Output, n: u32, list: &[u32], cursor: Cursor) -> Cursor
    ensures { result ≡ answer (step_fault n list.now cursor) (λ fault. cursor) (cursor_at n list.now (suc cursor.block)) }
{
    let (answer, next) = cursor.step(n, list);
    let _ = writeln!(
        out,
        "  step of {}: {}, {}",
        Next(cursor),
        Told("sector", answer),
        Next(next)
    );
    next
}
