// Defect lists: the check of a list over any size of space, and the union of two lists.
#![tactic(auto)]

ghost use Rattle.std.specs.Prelude.{◌≡◌, ◌+◌, ◌<◌, ◌≤◌, length};
ghost use Rattle.paper.specs.Promise.{Passes, GivesSuch};
ghost use Rattle.paper.specs.Limits.{list_most};
ghost use Rattle.lists.specs.Proper.{Rising, fault_at, list_fault, space_fault};
ghost use Rattle.lists.specs.Union.{union};
ghost use Rattle.lists.specs.Steps.{bound_fault, Takes};

use paper::{LIST_MOST, Refusal};

// A list that is not too long and rises.
#[derive(Clone, Copy)]
pub struct RisingList<'a> {
    pub entries: &'a [u32],
    ghost rising: { Rising entries.now },
    ghost short: { length entries.now ≤ list_most },
}

// Refusal 4 for an entry that is no unit of its space.
fn check_bound(n: u32, entry: u32) -> Result<(), Refusal>
    ensures { Passes (bound_fault n entry) result }
{
    if n <= entry {
        return Err(Refusal::Outside);
    }
    Ok(())
}

// What is wrong at one place of a list: 3 before 4.
fn check_place(n: u32, list: &[u32], i: usize) -> Result<(), Refusal>
    requires { i < length list.now }
    ensures { Passes (fault_at n list.now i) result }
{
    if 0 < i && list[i] <= list[i - 1] {
        return Err(Refusal::NotRising);
    }
    check_bound(n, list[i])
}

// The list's check: 2, then the lowest place at fault, 3 before 4; the list, known to rise. Only other crates call this.
pub fn check_list(n: u32, list: &[u32]) -> Result<RisingList<'_>, Refusal>
    ensures { GivesSuch (list_fault n list.now) (λ checked. checked.entries.now ≡ list.now) result }
{
    if LIST_MOST < list.len() {
        return Err(Refusal::TooLong);
    }
    for i in 0..list.len() {
        check_place(n, list, i)?;
    }
    Ok(RisingList { entries: list })
}

// The size N and then a list over it: 1, then the list's own check. Only other crates call this.
pub fn check_space(n: u32, list: &[u32]) -> Result<RisingList<'_>, Refusal>
    ensures { GivesSuch (space_fault n list.now) (λ checked. checked.entries.now ≡ list.now) result }
{
    paper::check_size(n)?;
    check_list(n, list)
}

// The next entry of a union, and how many entries of each list lie before the one after it.
#[derive(Clone, Copy)]
pub struct Taken {
    pub entry: u32,
    pub left: usize,
    pub right: usize,
}

// One step along a union: the smaller of the two entries that stand next, taken from both lists where it stands in both.
fn take(a: &[u32], b: &[u32], i: usize, j: usize) -> Taken
    requires { (i ≤ length a.now) × (j ≤ length b.now) × (i + j < length a.now + length b.now) }
    ensures { Takes a.now b.now i j result }
{
    if i == a.len() {
        return Taken {
            entry: b[j],
            left: i,
            right: j + 1,
        };
    }
    if j == b.len() {
        return Taken {
            entry: a[i],
            left: i + 1,
            right: j,
        };
    }
    let x = a[i];
    let y = b[j];
    if x < y {
        return Taken {
            entry: x,
            left: i + 1,
            right: j,
        };
    }
    if x == y {
        return Taken {
            entry: x,
            left: i + 1,
            right: j + 1,
        };
    }
    Taken {
        entry: y,
        left: i,
        right: j + 1,
    }
}

// How many entries the union of two lists has. Only other crates call this.
pub fn union_length(a: &[u32], b: &[u32]) -> usize
    ensures { result ≡ length (union a.now b.now) }
{
    let mut i = 0;
    let mut j = 0;
    let mut count = 0;
    // Stays: a step moves one place or two, as a merge of two lists does.
    while i + j < a.len() + b.len() {
        let next = take(a, b, i, j);
        i = next.left;
        j = next.right;
        count += 1;
    }
    count
}
