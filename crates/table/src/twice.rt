// Whether a table names a block twice: each block that it names is marked by one bit in lent scratch.
ghost use Rattle.std.specs.Prelude.{◌≡◌, true, not, ◌&&◌, ◌≤◌, length, get_or, drop, replicate};
ghost use Rattle.paper.specs.Checks.{pick};
ghost use Rattle.paper.specs.Promise.{written};
ghost use Rattle.seek.specs.Every.{all_below};
ghost use Rattle.layout.specs.Descriptors.{number_of};
ghost use Rattle.table.specs.Steps.{may_stand, named_first, names_in, is_marked, with_mark, first_in};

use bits::NUMBER_BITS;
use layout::{Layout, is_allocated, number_of};

// Clears the first numbers of scratch. Only the crate's other files call this.
// Scratch and a count stay, here and in `holes`: what is said of the call is said of the whole scratch that C lends, the numbers beyond the count among it.
pub fn clear_scratch(scratch: &mut [u32], count: usize)
    requires { count ≤ length scratch.old }
    ensures { scratch.new ≡ written (replicate count 0) scratch.old }
{
    scratch[..count].fill(0);
}

// Marks the block that a word names, where it is one of the window: false where it was marked already.
fn mark_block(scratch: &mut [u32], from: u32, count: u32, word: u32) -> bool
    requires { count ≤ length scratch.old }
    ensures value { result ≡ not (names_in from count word && is_marked scratch.old from (number_of word)) }
    ensures scratch_after { scratch.new ≡ pick (names_in from count word) (with_mark scratch.old from (number_of word)) scratch.old }
{
    if !is_allocated(word) {
        return true;
    }
    let block = number_of(word);
    let number = block / NUMBER_BITS;
    if number < from || count <= number - from {
        return true;
    }
    !bits::mark(scratch, (number - from) as usize, block % NUMBER_BITS)
}

// Whether no block of a window is named twice: the window is as many numbers as there are spares, from a first one on.
fn window_once(words: &[u32], scratch: &mut [u32], from: u32, count: u32) -> bool
    requires { count ≤ length scratch.old }
    ensures value { result ≡ all_below (first_in from count words.now) (length words.now) }
    ensures scratch_unchanged { drop count scratch.new ≡ drop count scratch.old }
{
    clear_scratch(scratch, count as usize);
    for word in words {
        if !mark_block(scratch, from, count, *word) {
            return false;
        }
    }
    true
}

// Whether no block is named twice by words that may stand where they do. Only the crate's other files call this.
pub fn named_once(layout: Layout, words: &[u32], scratch: &mut [u32]) -> bool
    requires spares_in_bounds { layout.drive.spares ≤ length scratch.old }
    requires stands { all_below (λ q. may_stand layout.drive q (get_or words.now q 0)) (length words.now) ≡ true }
    ensures value { result ≡ all_below (named_first words.now) (length words.now) }
    ensures scratch_unchanged { drop layout.drive.spares scratch.new ≡ drop layout.drive.spares scratch.old }
{
    let spares = layout.drive.spares;
    let marks = spares * NUMBER_BITS;
    for window in 0..layout.drive.blocks.div_ceil(marks) {
        if !window_once(words, scratch, window * spares, spares) {
            return false;
        }
    }
    true
}
