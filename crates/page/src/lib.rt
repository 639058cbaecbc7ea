// The list page: its layout, read into a lent list and written into lent bytes.
#![tactic(auto)]

ghost use Rattle.std.specs.Prelude.{◌≡◌, ◌+◌, ◌*◌, ◌≤◌, ◌<◌, length};
ghost use Rattle.std.proofs.lemmas.List.Edits.{sets};
ghost use Rattle.paper.specs.Limits.{page_frame, entry_size};
ghost use Rattle.paper.specs.Promise.{Passes};
ghost use Rattle.words.specs.Words.{word32_at, entries_at, bytes_of};
ghost use Rattle.lists.specs.Proper.{rises_at, fault_at, lowest_fault};
ghost use Rattle.page.specs.Layout.{length_place, version_place, kind_place, units_place, entries_place, end_size, version, all_ones, kind_of, units_of, laid_out, entry_count};
ghost use Rattle.page.specs.Pages.{page_fault, write_fault, head_bytes};
ghost use Rattle.page.specs.Promises.{Reads, Writes};

use paper::{ENTRY_SIZE, KIND_MOST, PAGE_FRAME, PAGE_MOST, Refusal, UNITS_MOST};

const LENGTH_PLACE: usize = 0;

const VERSION_PLACE: usize = 4;

const KIND_PLACE: usize = 5;

const UNITS_PLACE: usize = 6;

const ENTRIES_PLACE: usize = 10;

const END_SIZE: usize = 4;

const VERSION: u8 = 1;

const ALL_ONES: u32 = 0xFFFF_FFFF;

// Each place and number of the code is that of the definitions, and the places make up the frame.
fn places_agree()
    ensures length_place_value { LENGTH_PLACE ≡ length_place }
    ensures version_place_value { VERSION_PLACE ≡ version_place }
    ensures kind_place_value { KIND_PLACE ≡ kind_place }
    ensures units_place_value { UNITS_PLACE ≡ units_place }
    ensures entries_place_value { ENTRIES_PLACE ≡ entries_place }
    ensures end_size_value { END_SIZE ≡ end_size }
    ensures version_value { VERSION ≡ version }
    ensures all_ones_value { ALL_ONES ≡ all_ones }
    ensures page_frame_value { page_frame ≡ entries_place + end_size }
{}

// The kind stays a number, as `write` takes it.
// A page as it was read: kind, N, entries.
#[derive(Clone, Copy, Debug, PartialEq, Eq)]
pub struct Paged {
    pub kind: u32,
    pub n: u32,
    pub entries: u32,
}

// Whether a page keeps its layout.
#[tactic(auto, unfolding(crate::specs::Layout::laid_out))]
fn laid_out(page: &[u8]) -> bool
    ensures { result ≡ laid_out page.now }
{
    (PAGE_FRAME..=PAGE_MOST).contains(&page.len())
        && words::word32_at(page, LENGTH_PLACE) as usize == page.len()
        && (page.len() - PAGE_FRAME) % ENTRY_SIZE == 0
        && page[VERSION_PLACE] == VERSION
        && u32::from(page[KIND_PLACE]) <= KIND_MOST
        && paper::within(1, UNITS_MOST, words::word32_at(page, UNITS_PLACE))
        && words::word32_at(page, page.len() - END_SIZE) == ALL_ONES
}

// So many entries of a page that is long enough for them. Only other crates call its functions.
#[derive(Clone, Copy)]
pub struct Entries<'a> {
    pub page: &'a [u8],
    pub count: usize,
    ghost inside: { entries_place + entry_size * count ≤ length page.now },
}

impl<'a> Entries<'a> {
    // All the entries of a page.
    pub fn of(page: &'a [u8]) -> Entries<'a>
        requires { page_frame ≤ length page.now }
        ensures same_page { result.page.now ≡ page.now }
        ensures counted { result.count ≡ entry_count page.now }
    {
        Entries {
            page,
            count: (page.len() - PAGE_FRAME) / ENTRY_SIZE,
        }
    }

    // The kind that the page says.
    fn kind(self) -> u32
        ensures { result ≡ kind_of self.entry.page.now }
    {
        u32::from(self.page[KIND_PLACE])
    }

    // N as the page says it.
    pub fn units(self) -> u32
        ensures { result ≡ units_of self.entry.page.now }
    {
        words::word32_at(self.page, UNITS_PLACE)
    }

    // The entry at a place of the list, as it stands in the page.
    pub fn entry_at(self, i: usize) -> u32
        requires { entries_place + entry_size * i + entry_size ≤ length self.page.now }
        ensures { result ≡ word32_at self.entry.page.now (entries_place + entry_size * i) }
    {
        words::word32_at(self.page, ENTRIES_PLACE + ENTRY_SIZE * i)
    }

    // Whether the entry at a place stands first or is greater than the one before.
    fn rises_at(self, i: usize) -> bool
        requires { i < self.count }
        ensures { result ≡ rises_at (entries_at self.entry.page.now entries_place self.entry.count) i }
    {
        i == 0 || self.entry_at(i - 1) < self.entry_at(i)
    }

    // The checks of an entry stay beside those of `lists`: they read bytes of a page where those read numbers.

    // What is wrong at one place of the entries: 3 before 4.
    fn check_place(self, n: u32, i: usize) -> Result<(), Refusal>
        requires { i < self.count }
        ensures { Passes (fault_at n (entries_at self.entry.page.now entries_place self.entry.count) i) result }
    {
        if !self.rises_at(i) {
            return Err(Refusal::NotRising);
        }
        if n <= self.entry_at(i) {
            return Err(Refusal::Outside);
        }
        Ok(())
    }

    // The fault of the lowest place at fault, for the entries as they stand in the page.
    fn check(self, n: u32) -> Result<(), Refusal>
        ensures { Passes (lowest_fault n (entries_at self.entry.page.now entries_place self.entry.count)) result }
    {
        for i in 0..self.count {
            self.check_place(n, i)?;
        }
        Ok(())
    }

    // Copies the entries into the first places of the room.
    fn copy(self, room: &mut [u32])
        requires { self.count ≤ length room.old }
        ensures { room.new ≡ sets room.old 0 (entries_at self.entry.page.now entries_place self.entry.count) }
    {
        for i in 0..self.count {
            room[i] = self.entry_at(i);
        }
    }
}

// The page's own checks, whatever the room: 8, then 3 and 4 by place. Only other crates call this.
pub fn check_page(page: &[u8]) -> Result<(), Refusal>
    ensures { Passes (page_fault page.now) result }
{
    if !laid_out(page) {
        return Err(Refusal::BadPage);
    }
    let entries = Entries::of(page);
    entries.check(entries.units())
}

// Reads a page: its kind, N and number of entries, and the entries into the first places of the room. Checks 8, 3 and 4, 7.
pub fn read(page: &[u8], room: &mut [u32]) -> Result<Paged, Refusal>
    ensures { Reads page.now room.old result room.new }
{
    check_page(page)?;
    let entries = Entries::of(page);
    if room.len() < entries.count {
        return Err(Refusal::NoRoom);
    }
    entries.copy(room);
    Ok(Paged {
        kind: entries.kind(),
        n: entries.units(),
        entries: entries.count as u32,
    })
}

// The checks of a page to write into a room: 1, 8, the list's, 7.
fn check_write(n: u32, kind: u32, list: &[u32], room: &[u8]) -> Result<(), Refusal>
    ensures { Passes (write_fault n kind list.now room.now) result }
{
    paper::check_size(n)?;
    if KIND_MOST < kind {
        return Err(Refusal::BadPage);
    }
    lists::check_list(n, list)?;
    if room.len() < PAGE_FRAME + ENTRY_SIZE * list.len() {
        return Err(Refusal::NoRoom);
    }
    Ok(())
}

// Writes what stands before the entries.
fn put_head(room: &mut [u8], long: u32, kind: u8, n: u32)
    requires { entries_place ≤ length room.old }
    ensures { room.new ≡ sets room.old 0 (head_bytes long kind n) }
{
    words::put32(room, LENGTH_PLACE, long);
    room[VERSION_PLACE] = VERSION;
    room[KIND_PLACE] = kind;
    words::put32(room, UNITS_PLACE, n);
}

// Writes the entries.
fn put_entries(list: &[u32], room: &mut [u8])
    requires { entries_place + entry_size * length list.now ≤ length room.old }
    ensures { room.new ≡ sets room.old entries_place (bytes_of list.now) }
{
    for i in 0..list.len() {
        words::put32(room, ENTRIES_PLACE + ENTRY_SIZE * i, list[i]);
    }
}

// Writes the page of N, a kind and a list into the first places of the room. Checks 1, 8, the list's, 7.
// The kind stays a number: any may be named, and all but two are refused.
pub fn write(n: u32, kind: u32, list: &[u32], room: &mut [u8]) -> Result<u32, Refusal>
    ensures { Writes n kind list.now room.old result room.new }
{
    check_write(n, kind, list, room)?;
    let long = PAGE_FRAME + ENTRY_SIZE * list.len();
    put_head(room, long as u32, kind as u8, n);
    put_entries(list, room);
    words::put32(room, long - END_SIZE, ALL_ONES);
    Ok(long as u32)
}
