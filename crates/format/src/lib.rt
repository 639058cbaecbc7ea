// Format: the new grown list and the list of the new space, from P, G, the space in use and the supplied list D.
#![tactic(auto)]

ghost use Rattle.std.specs.Prelude.{◌≡◌, ◌-◌, ◌<◌, ◌≤◌, eqb, length};
ghost use Rattle.paper.specs.Checks.{pick};
ghost use Rattle.paper.specs.Promise.{Passes, GivesSuch};
ghost use Rattle.paper.specs.Limits.{list_most, option_most};
ghost use Rattle.format.specs.Options.{none, in_blocks, in_sectors, keep, add, clear, replace, as_before, option_rows, cell, meaning};
ghost use Rattle.format.specs.Spaces.{list_of, new_space, option_fault};
ghost use Rattle.format.specs.Promises.{Formats};
ghost use Rattle.format.specs.Steps.{supplied_fault, lengths_fault, sides_of, over_of, kept_of};

mod walk;

use paper::{LIST_MOST, OPTION_MOST, Refusal, SPACE_MOST};
use walk::{Lengths, Merge, Sides};

// The space stays a number, as the next night's call takes it.
// The lengths of the new grown list and of the new list, and the new space.
#[derive(Clone, Copy, Debug, PartialEq, Eq)]
pub struct Formatted {
    pub grown: u32,
    pub list: u32,
    pub space: u32,
}

// What D is in.
const NONE: u32 = 0;

const IN_BLOCKS: u32 = 1;

const IN_SECTORS: u32 = 2;

// What becomes of the grown list.
const KEEP: u32 = 0;

const ADD: u32 = 1;

const CLEAR: u32 = 2;

const REPLACE: u32 = 3;

// The new space, where it is not a space's number.
const AS_BEFORE: u32 = 4;

// Option by option: what D is in, the new grown list, the new space.
// Stays numbers: the paper names this form, a constant table of tables that is read by option number.
const ROWS: [[u32; 3]; 8] = [
    [NONE, KEEP, AS_BEFORE],
    [IN_BLOCKS, ADD, 3],
    [NONE, KEEP, 2],
    [IN_BLOCKS, ADD, 2],
    [NONE, CLEAR, 1],
    [IN_SECTORS, REPLACE, 3],
    [NONE, CLEAR, 0],
    [IN_SECTORS, REPLACE, 2],
];

// The rows of the code are those of the definitions.
fn rows_agree() -> [[u32; 3]; 8]
    ensures { result ≡ option_rows }
{
    ROWS
}

// And so are its names.
fn names_agree()
    ensures none_value { NONE ≡ none }
    ensures in_blocks_value { IN_BLOCKS ≡ in_blocks }
    ensures in_sectors_value { IN_SECTORS ≡ in_sectors }
    ensures keep_value { KEEP ≡ keep }
    ensures add_value { ADD ≡ add }
    ensures clear_value { CLEAR ≡ clear }
    ensures replace_value { REPLACE ≡ replace }
    ensures as_before_value { AS_BEFORE ≡ as_before }
{}

// An option that is one: it has a row.
#[derive(Clone, Copy)]
struct Choice {
    option: u32,
    ghost known: { option ≤ option_most },
}

impl Choice {
    // A cell of the option's row.
    fn cell(self, column: usize) -> u32
        requires column_bound { column < 3 }
        ensures { result ≡ cell self.option column }
    {
        ROWS[self.option as usize][column]
    }

    // The new space.
    fn new_space(self, space: u32) -> u32
        ensures { result ≡ new_space space self.option }
    {
        let to = self.cell(2);
        if to == AS_BEFORE {
            return space;
        }
        to
    }

    // The size of the space that D is in, of N sectors of which so many are in the list in use.
    fn size_of_d(self, n: u32, used: usize) -> u32
        requires used_le_list_most { used ≤ list_most }
        ensures { result ≡ pick (eqb (meaning self.option) in_blocks) (n - used) n }
    {
        if self.cell(0) == IN_BLOCKS {
            return n.saturating_sub(used as u32);
        }
        n
    }

    // The sides that D is mapped over.
    fn over_of(self, space: u32) -> Sides
        ensures { result ≡ over_of space self.option }
    {
        if self.cell(0) == IN_BLOCKS {
            return sides_of(space);
        }
        Sides { p: false, g: false }
    }

    // What the option keeps of G: all of it, or the empty part at its start.
    fn kept_of(self, g: &[u32]) -> &[u32]
        ensures { result.now ≡ kept_of self.option g.now }
    {
        let to = self.cell(1);
        if to == KEEP || to == ADD {
            return g;
        }
        &g[..0]
    }
}

// Refusal 10 for an option or a space that is none, or for a list that comes with DFCT 0; else the option.
fn check_option(space: u32, option: u32, d: &[u32]) -> Result<Choice, Refusal>
    ensures { GivesSuch (option_fault space option d.now) (λ choice. choice.option ≡ option) result }
{
    if OPTION_MOST < option || SPACE_MOST < space {
        return Err(Refusal::BadOption);
    }
    if !d.is_empty() && option % 2 == 0 {
        return Err(Refusal::BadOption);
    }
    Ok(Choice { option })
}

// How many entries the list in use has.
fn in_use(space: u32, p: &[u32], g: &[u32]) -> usize
    ensures { result ≡ length (list_of space p.now g.now) }
{
    match space {
        0 => 0,
        1 => p.len(),
        2 => g.len(),
        _ => lists::union_length(p, g),
    }
}

// The chain up to D: 1, P, G, 10, 2, D; it answers the option.
fn check_supplied(
    n: u32,
    p: &[u32],
    g: &[u32],
    space: u32,
    option: u32,
    d: &[u32],
) -> Result<Choice, Refusal>
    ensures { GivesSuch (supplied_fault n p.now g.now space option d.now) (λ choice. choice.option ≡ option) result }
{
    paper::check_size(n)?;
    lists::check_list(n, p)?;
    lists::check_list(n, g)?;
    let choice = check_option(space, option, d)?;
    let used = in_use(space, p, g);
    if LIST_MOST < used {
        return Err(Refusal::TooLong);
    }
    lists::check_list(choice.size_of_d(n, used), d)?;
    Ok(choice)
}

// The rest of the chain: both lengths against the limit, then against the rooms.
fn check_lengths(lengths: Lengths, room: usize, place: usize) -> Result<(), Refusal>
    ensures { Passes (lengths_fault lengths.grown lengths.listed room place) result }
{
    let grown = lengths.grown as usize;
    let listed = lengths.listed as usize;
    if LIST_MOST < grown || LIST_MOST < listed {
        return Err(Refusal::TooLong);
    }
    if room < grown || place < listed {
        return Err(Refusal::NoRoom);
    }
    Ok(())
}

// The sides of a space.
fn sides_of(space: u32) -> Sides
    ensures { result ≡ sides_of space }
{
    Sides {
        p: space == 1 || space == 3,
        g: space == 2 || space == 3,
    }
}

// Format: the new grown list and the list of the new space into the lent rooms. Checks 1, P, G, 10, 2, D, 2, 2, 7, 7.
// Space and option stay numbers: any may be named, and those that are none are refused.
pub fn format(
    n: u32,
    p: &[u32],
    g: &[u32],
    space: u32,
    option: u32,
    d: &[u32],
    grown: &mut [u32],
    list: &mut [u32],
) -> Result<Formatted, Refusal>
    ensures { Formats n p.now g.now space option d.now grown.old list.old result grown.new list.new }
{
    let choice = check_supplied(n, p, g, space, option, d)?;
    let over = choice.over_of(space);
    let to = choice.new_space(space);
    let takes = sides_of(to);
    let kept = choice.kept_of(g);
    let merge = Merge {
        over,
        takes,
        p,
        g: kept,
        d,
    };
    let lengths = merge.count();
    check_lengths(lengths, grown.len(), list.len())?;
    merge.fill(grown, list);
    Ok(Formatted {
        grown: lengths.grown,
        list: lengths.listed,
        space: to,
    })
}
