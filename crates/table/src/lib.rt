// The descriptor table of a revectored drive: the check of its rules, the place that names a block, where a block lies, what lies on a sector, and the census.
#![tactic(auto)]

ghost use Rattle.std.specs.Prelude.{◌≡◌, ◌<◌, ◌≤◌, ◌*◌, ◌^◌, length, get_or, drop};
ghost use Rattle.seek.specs.Every.{all_below};
ghost use Rattle.paper.specs.Promise.{GivesSuch};
ghost use Rattle.shape.specs.Shapes.{Shaped};
ghost use Rattle.layout.specs.Layouts.{drive_of, sectors_per_track};
ghost use Rattle.order.specs.Steps.{Finds};
ghost use Rattle.table.specs.Rules.{table_fault, block_fault};
ghost use Rattle.table.specs.Scratch.{scratch_after, Scratched};
ghost use Rattle.table.specs.Places.{table_length, code_at};
ghost use Rattle.table.specs.Steps.{may_stand, obeys, Obeys, Countable, counted};
ghost use Rattle.table.specs.Counting.{census_of};
ghost use Rattle.table.specs.Lookup.{place_of, lies_on, lying_on};

mod twice;

use layout::{
    AT_PRIMARY, CODE_UNIT, ELSEWHERE, FREE, Layout, NULL, UNUSABLE, code_of, is_allocated, names,
    number_of,
};
use paper::{Refusal, TABLE_BLOCK};
use shape::Shape;

// How many places of a table have each code.
#[derive(Clone, Copy, Debug, PartialEq, Eq)]
pub struct Census {
    pub free: u32,
    pub primary: u32,
    pub elsewhere: u32,
    pub unusable: u32,
    pub null: u32,
}

// How many places the table has. Only other crates call this.
pub fn table_length(layout: Layout) -> usize
    ensures { result ≡ table_length layout.drive }
{
    TABLE_BLOCK * ((layout.drive.spares as usize + (TABLE_BLOCK - 1)) / TABLE_BLOCK)
}

// A code stays a number here: it is held against that of a lent word, and put into one.
// The code under which a place names a block. Only other crates call this.
pub fn code_at(layout: Layout, place: usize, block: u32) -> u32
    requires { block < layout.drive.blocks }
    ensures { result ≡ code_at layout.drive place block }
{
    if place == layout.primary(block) as usize {
        return AT_PRIMARY;
    }
    ELSEWHERE
}

// Whether a word may stand at a place of the table.
fn may_stand(layout: Layout, place: usize, word: u32) -> bool
    ensures { result ≡ may_stand layout.drive place word }
{
    if layout.drive.spares as usize <= place {
        return word == NULL * CODE_UNIT;
    }
    if word == FREE * CODE_UNIT || word == UNUSABLE * CODE_UNIT {
        return true;
    }
    let number = number_of(word);
    number < layout.drive.blocks && code_of(word) == code_at(layout, place, number)
}

// Whether every word of a table may stand where it does.
fn all_stand(layout: Layout, words: &[u32]) -> bool
    ensures { result ≡ all_below (λ q. may_stand layout.drive q (get_or words.now q 0)) (length words.now) }
{
    (0..words.len()).all(|place| may_stand(layout, place, words[place]))
}

// That the scratch has a number for each spare stays a clause, here and in `twice` and `holes`: it is said of the scratch and a drive together, and the scratch is written.
// Whether a table breaks no rule. Of the scratch only the numbers for the spares are written.
fn obeys_rules(layout: Layout, words: &[u32], scratch: &mut [u32]) -> bool
    requires { layout.drive.spares ≤ length scratch.old }
    ensures value { result ≡ obeys layout.drive words.now }
    ensures scratch_unchanged { drop layout.drive.spares scratch.new ≡ drop layout.drive.spares scratch.old }
{
    words.len() == table_length(layout)
        && all_stand(layout, words)
        && twice::named_once(layout, words, scratch)
        && holes::no_holes(layout, words, scratch)
}

// A table that breaks no rule, with the drive whose table it is. Only other crates call its functions.
#[derive(Clone, Copy)]
pub struct Table<'a> {
    pub layout: Layout,
    pub words: &'a [u32],
    ghost obeys: { Obeys layout.drive words.now },
}

// Shape, r, words and scratch stay one by one: the C interface lends them so.
impl<'a> Table<'a> {
    // Checks 1 for the drive's numbers, 7 for scratch that is too short, 11 for a table that breaks its rules. Past 7 the numbers of scratch for the spares are zeros.
    pub fn check(
        shape: Shape,
        r: u32,
        words: &'a [u32],
        scratch: &mut [u32],
    ) -> Result<Table<'a>, Refusal>
        ensures value { GivesSuch (table_fault shape r words.now scratch.old) (λ table. Shaped shape × (table.layout.drive ≡ drive_of shape r) × (table.words.now ≡ words.now)) result }
        ensures scratch_after { scratch.new ≡ scratch_after shape r scratch.old }
    {
        let layout = Layout::new(shape, r)?;
        if scratch.len() < layout.drive.spares as usize {
            return Err(Refusal::NoRoom);
        }
        let obeyed = obeys_rules(layout, words, scratch);
        twice::clear_scratch(scratch, layout.drive.spares as usize);
        if !obeyed {
            return Err(Refusal::BadTable);
        }
        Ok(Table { layout, words })
    }

    // Checks 1, 7, 11, and 5 for a block number that is not below the number of blocks.
    pub fn check_block(
        shape: Shape,
        r: u32,
        words: &'a [u32],
        scratch: &mut [u32],
        block: u32,
    ) -> Result<Table<'a>, Refusal>
        ensures value { GivesSuch (block_fault shape r words.now scratch.old block) (λ table. Shaped shape × (table.layout.drive ≡ drive_of shape r) × (table.words.now ≡ words.now) × (block < table.layout.drive.blocks)) result }
        ensures scratched { Scratched shape r scratch.old scratch.new }
    {
        let table = Table::check(shape, r, words, scratch)?;
        if table.layout.drive.blocks <= block {
            return Err(Refusal::NoSuchBlock);
        }
        Ok(table)
    }

    // The place that names a block, or none where no place does: the search stops at the first free place.
    pub fn place_of(self, block: u32) -> Option<usize>
        requires { block < self.layout.drive.blocks }
        ensures { Finds (length self.entry.words.now) (place_of self.entry.words.now block) result }
    {
        let place = order::search(self.words, self.layout.primary(block) as usize, block)?;
        if names(self.words[place], block) {
            return Some(place);
        }
        None
    }

    // The sector that a block lies on.
    pub fn lies_on(self, block: u32) -> u32
        requires { block < self.layout.drive.blocks }
        ensures { result ≡ lies_on self.entry.layout.drive self.entry.words.now block }
    {
        match self.place_of(block) {
            Some(place) => self.layout.spare_sector(place as u32),
            None => self.layout.home_sector(block),
        }
    }

    // The block that lies on a sector, or none.
    pub fn lying_on(self, sector: u32) -> Option<u32>
        requires { sector < self.layout.drive.tracks * sectors_per_track self.layout.drive }
        ensures { result ≡ lying_on self.entry.layout.drive self.entry.words.now sector }
    {
        if self.layout.is_home(sector) {
            let block = self.layout.block_of_home(sector);
            return match self.place_of(block) {
                Some(_) => None,
                None => Some(block),
            };
        }
        let word = self.words[self.layout.place_of_spare(sector) as usize];
        if is_allocated(word) {
            return Some(number_of(word));
        }
        None
    }
}

// The census with one more descriptor that has this code.
fn count_code(census: Census, code: u32) -> Census
    requires { Countable census }
    ensures { result ≡ counted census code }
{
    Census {
        free: census.free + u32::from(code == FREE),
        primary: census.primary + u32::from(code == AT_PRIMARY),
        elsewhere: census.elsewhere + u32::from(code == ELSEWHERE),
        unusable: census.unusable + u32::from(code == UNUSABLE),
        null: census.null + u32::from(code == NULL),
    }
}

// How often each code stands in a table. Only other crates call this.
pub fn census_of(words: &[u32]) -> Census
    requires { length words.now < 2 ^ 32 }
    ensures { result ≡ census_of words.now }
{
    let mut census = Census {
        free: 0,
        primary: 0,
        elsewhere: 0,
        unusable: 0,
        null: 0,
    };
    for word in words {
        census = count_code(census, code_of(*word));
    }
    census
}
