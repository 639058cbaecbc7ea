// Skipping over N sectors with a list of bad ones: block ↔ sector, and the job cursor.
#![tactic(auto)]

ghost use Rattle.std.specs.Prelude.{◌≡◌, ◌≤◌, leb, eqb, length};
ghost use Rattle.paper.specs.Limits.{units_most};
ghost use Rattle.paper.specs.Promise.{GivesSuch};
ghost use Rattle.lists.specs.Proper.{Proper};
ghost use Rattle.skip.specs.Walk.{passes, walked, entries_below};
ghost use Rattle.skip.specs.Translation.{blocks, sector_of_fault, block_on};
ghost use Rattle.skip.specs.Cursors.{belongs, check_fault, step_fault};
ghost use Rattle.skip.specs.Promises.{SectorOf, BlockOn, Starts, Checks, Steps};

use lists::RisingList;
use paper::Refusal;

// A job's next block, and how many entries of the list lie below the sector of the block before that one: 0 at block 0.
#[repr(C)]
#[derive(Clone, Copy, Debug, PartialEq, Eq)]
pub struct Cursor {
    pub block: u32,
    pub skipped: u32,
}

// That a block is no larger than a drive stays a clause: it is a bound that the sums need, and callers have it of the check of N.
// How many entries a block passes, of which `from` are known to be passed. The next one is looked at first, since in a job it is seldom passed; then what is left is halved.
// Stays: what is asked of an entry depends on its place, which no search of the library hands to its test.
fn passed(list: RisingList, block: u32, from: u32) -> u32
    requires block_le_units_most { block ≤ units_most }
    requires from_bound { from ≤ passes list.entries.now block }
    ensures { result ≡ passes list.entry.entries.now block }
{
    let mut least = from;
    let mut most = list.entries.len() as u32;
    let mut at = from;
    while least < most {
        if block + at < list.entries[at as usize] {
            most = at;
        } else {
            least = at + 1;
        }
        at = least + (most - least) / 2;
    }
    least
}

// How many entries lie below a sector, by halving.
fn entries_below(list: RisingList, sector: u32) -> u32
    ensures { result ≡ entries_below list.entry.entries.now sector }
{
    list.entries.partition_point(|&entry| entry < sector) as u32
}

// How many blocks a list leaves of n sectors. Only other crates call this.
pub fn block_count(n: u32, list: &[u32]) -> u32
    ensures { result ≡ blocks n list.now }
{
    if (n as usize) < list.len() {
        return 0;
    }
    n - list.len() as u32
}

// Where the walk from a block ends. Only other crates call this.
pub fn walk(list: RisingList, block: u32) -> u32
    requires { block ≤ units_most }
    ensures { result ≡ walked list.entry.entries.now block }
{
    block + passed(list, block, 0)
}

// The block on a sector, or no block where the sector is in the list. Only other crates call this.
pub fn name(list: RisingList, sector: u32) -> Option<u32>
    ensures { result ≡ block_on list.entry.entries.now sector }
{
    let below = entries_below(list, sector);
    let at = below as usize;
    if at < list.entries.len() && list.entries[at] == sector {
        return None;
    }
    Some(sector - below)
}

// Checks 1, list, 5; the list, known to rise.
fn check_block(n: u32, list: &[u32], block: u32) -> Result<RisingList<'_>, Refusal>
    ensures { GivesSuch (sector_of_fault n list.now block) (λ checked. checked.entries.now ≡ list.now) result }
{
    let checked = lists::check_space(n, list)?;
    if block_count(n, list) <= block {
        return Err(Refusal::NoSuchBlock);
    }
    Ok(checked)
}

// N and the list stay one by one, here and below: the C interface lends them so.

// The sector that a block lies on. Checks 1, list, 5.
pub fn sector_of(n: u32, list: &[u32], block: u32) -> Result<u32, Refusal>
    ensures { SectorOf n list.now block result }
{
    let list = check_block(n, list, block)?;
    Ok(walk(list, block))
}

// The block that lies on a sector, or no block. Checks 1, list, 6.
pub fn block_on(n: u32, list: &[u32], sector: u32) -> Result<Option<u32>, Refusal>
    ensures { BlockOn n list.now sector result }
{
    let list = lists::check_space(n, list)?;
    if n <= sector {
        return Err(Refusal::NoSuchSector);
    }
    Ok(name(list, sector))
}

// Whether a block passes at least so many entries: the last of them lies below the address that they lead to.
fn passes_at_least(list: RisingList, block: u32, count: u32) -> bool
    requires { block ≤ units_most }
    ensures { result ≡ leb count (passes list.entry.entries.now block) }
{
    let at = count as usize;
    if at == 0 {
        return true;
    }
    if list.entries.len() < at {
        return false;
    }
    list.entries[at - 1] < block + count
}

// Whether a block passes just so many entries.
fn passes_just(list: RisingList, block: u32, count: u32) -> bool
    requires { block ≤ units_most }
    ensures { result ≡ eqb count (passes list.entry.entries.now block) }
{
    passes_at_least(list, block, count) && !passes_at_least(list, block, count + 1)
}

// That the list is proper over n stays a clause: no other function needs it.
// Whether a cursor is one of a proper list over n.
fn is_of(n: u32, list: RisingList, cursor: Cursor) -> bool
    requires proper { Proper n list.entries.now }
    requires n_le_units_most { n ≤ units_most }
    ensures { result ≡ belongs n list.entry.entries.now cursor }
{
    if block_count(n, list.entries) < cursor.block {
        return false;
    }
    if cursor.block == 0 {
        return cursor.skipped == 0;
    }
    passes_just(list, cursor.block - 1, cursor.skipped)
}

// Checks 1, list, 9; the list, known to rise.
fn check_cursor(n: u32, list: &[u32], cursor: Cursor) -> Result<RisingList<'_>, Refusal>
    ensures { GivesSuch (check_fault n list.now cursor) (λ checked. checked.entries.now ≡ list.now) result }
{
    let checked = lists::check_space(n, list)?;
    if !is_of(n, checked, cursor) {
        return Err(Refusal::StrayCursor);
    }
    Ok(checked)
}

// Checks 1, list, 9, 5; the list, known to rise.
fn check_step(n: u32, list: &[u32], cursor: Cursor) -> Result<RisingList<'_>, Refusal>
    ensures { GivesSuch (step_fault n list.now cursor) (λ checked. checked.entries.now ≡ list.now) result }
{
    let checked = check_cursor(n, list, cursor)?;
    if block_count(n, list) <= cursor.block {
        return Err(Refusal::NoSuchBlock);
    }
    Ok(checked)
}

impl Cursor {
    // Opens a job at a block. Checks 1, list, 5.
    pub fn start(n: u32, list: &[u32], block: u32) -> Result<Cursor, Refusal>
        ensures { Starts n list.now block result }
    {
        let list = check_block(n, list, block)?;
        if block == 0 {
            return Ok(Cursor {
                block: 0,
                skipped: 0,
            });
        }
        let skipped = passed(list, block - 1, 0);
        Ok(Cursor { block, skipped })
    }

    // The cursor as it is, where it is one of this list. Checks 1, list, 9.
    pub fn check(self, n: u32, list: &[u32]) -> Result<Cursor, Refusal>
        ensures { Checks n list.now self result }
    {
        check_cursor(n, list, self)?;
        Ok(self)
    }

    // The sector of the cursor's block, and the cursor for the block after it; a refusal hands back the cursor as it is. Checks 1, list, 9, 5.
    pub fn step(self, n: u32, list: &[u32]) -> (Result<u32, Refusal>, Cursor)
        ensures { Steps n list.now self result.0 result.1 }
    {
        match check_step(n, list, self) {
            Ok(list) => {
                let skipped = passed(list, self.block, self.skipped);
                (
                    Ok(self.block + skipped),
                    Cursor {
                        block: self.block + 1,
                        skipped,
                    },
                )
            }
            Err(refusal) => (Err(refusal), self),
        }
    }
}
