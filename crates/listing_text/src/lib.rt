// The listing of a page as bytes: decimal numbers, one line for each.
#![tactic(auto)]

ghost use Rattle.std.specs.Prelude.{◌≡◌, ◌+◌, ◌*◌, ◌≤◌, length};
ghost use Rattle.paper.specs.Limits.{units_most, entry_size, listing_most};
ghost use Rattle.paper.specs.Promise.{Passes};
ghost use Rattle.words.specs.Words.{entries_at};
ghost use Rattle.lists.specs.Proper.{Inside};
ghost use Rattle.page.specs.Layout.{entries_place};
ghost use Rattle.page.specs.Pages.{page_fault};
ghost use Rattle.listing_text.specs.Decimal.{digit_zero, decimal};
ghost use Rattle.listing_text.specs.Text.{sectors_word, blocks_word, bad_word, refused_word, space, line_end, line, frame_text, entries_text, page_text, listing_fault, Lists};
ghost use Rattle.listing_text.specs.Steps.{digits_most, line_most, frame_most, listed_most, listing_room, Puts};

use page::Entries;
use paper::{ENTRY_SIZE, LISTING_MOST, PAGE_FRAME, Refusal};

const SECTORS: &[u8] = b"sectors";

const BLOCKS: &[u8] = b"blocks";

const BAD: &[u8] = b"bad";

const REFUSED: &[u8] = b"refused";

const SPACE: u8 = b' ';

const LINE_END: u8 = b'\n';

const DIGIT_ZERO: u8 = b'0';

const DIGITS_MOST: usize = 8;

// A space, a number and a line's end.
const LINE_EXTRA: usize = 1 + DIGITS_MOST + 1;

const LISTED_MOST: usize = (LISTING_MOST - PAGE_FRAME) / ENTRY_SIZE;

pub const LISTING_ROOM: usize = SECTORS.len()
    + LINE_EXTRA
    + (BLOCKS.len() + LINE_EXTRA)
    + (BAD.len() + LINE_EXTRA) * LISTED_MOST;

// Each word, byte and size of the code is that of the definitions.
fn words_agree()
    ensures sectors_value { SECTORS.now ≡ sectors_word }
    ensures blocks_value { BLOCKS.now ≡ blocks_word }
    ensures bad_value { BAD.now ≡ bad_word }
    ensures refused_value { REFUSED.now ≡ refused_word }
    ensures space_value { SPACE ≡ space }
    ensures line_end_value { LINE_END ≡ line_end }
    ensures digit_zero_value { DIGIT_ZERO ≡ digit_zero }
    ensures digits_most_value { DIGITS_MOST ≡ digits_most }
    ensures listed_most_value { LISTED_MOST ≡ listed_most }
    ensures listing_room_value { LISTING_ROOM ≡ listing_room }
{}

// Writes a word at a place, and answers the place after it.
// A room and a place stay, here and below: the room is lent, the text has no heap to grow on, and what is left of the room is said by its place.
fn put_word(room: &mut [u8], at: usize, word: &[u8]) -> usize
    requires { at + length word.now ≤ length room.old }
    ensures { Puts word.now at room.old result room.new }
{
    let end = at + word.len();
    room[at..end].copy_from_slice(word);
    end
}

// Writes a number at a place, and answers the place after it.
fn put_number(room: &mut [u8], at: usize, number: u32) -> usize
    requires { at + length (decimal number) ≤ length room.old }
    ensures { Puts (decimal number) at room.old result room.new }
{
    if number < 10 {
        room[at] = DIGIT_ZERO + number as u8;
        return at + 1;
    }
    let next = put_number(room, at, number / 10);
    room[next] = DIGIT_ZERO + (number % 10) as u8;
    next + 1
}

// Writes a line at a place, and answers the place after it.
fn put_line(room: &mut [u8], at: usize, word: &[u8], number: u32) -> usize
    requires { at + length (line word.now number) ≤ length room.old }
    ensures { Puts (line word.now number) at room.old result room.new }
{
    let gap = put_word(room, at, word);
    room[gap] = SPACE;
    let end = put_number(room, gap + 1, number);
    room[end] = LINE_END;
    end + 1
}

// Writes the lines of a page's frame at the start, and answers the place after them.
fn put_frame(room: &mut [u8], n: u32, entries: u32) -> usize
    requires { (n ≤ units_most) × (entries ≤ n) × (frame_most ≤ length room.old) }
    ensures { Puts (frame_text n entries) 0 room.old result room.new }
{
    let blocks = put_line(room, 0, SECTORS, n);
    put_line(room, blocks, BLOCKS, n - entries)
}

// Writes a line for each of a page's entries, and answers the place after them.
fn put_entries(room: &mut [u8], at: usize, entries: Entries) -> usize
    requires { Inside units_most (entries_at entries.page.now entries_place entries.count) × (at + line_most bad_word * entries.count ≤ length room.old) }
    ensures { Puts (entries_text (entries_at entries.entry.page.now entries_place entries.entry.count)) at room.old result room.new }
{
    let mut next = at;
    for i in 0..entries.count {
        next = put_line(room, next, BAD, entries.entry_at(i));
    }
    next
}

// Writes the listing of a page that passes its checks, and answers how long it is.
fn put_page(page: &[u8], room: &mut [u8]) -> usize
    requires { (page_fault page.now ≡ 0) × (length page.now ≤ listing_most) × (listing_room ≤ length room.old) }
    ensures { Puts (page_text page.now) 0 room.old result room.new }
{
    let entries = Entries::of(page);
    let next = put_frame(room, entries.units(), entries.count as u32);
    put_entries(room, next, entries)
}

// The checks of a listing: 8 above its own limit, then those of the page.
fn check_listing(page: &[u8]) -> Result<(), Refusal>
    ensures { Passes (listing_fault page.now) result }
{
    if LISTING_MOST < page.len() {
        return Err(Refusal::BadPage);
    }
    page::check_page(page)
}

// Writes the listing of a page, or the line of its refusal, into the first places of the room, and answers how long it is. Only other crates call this.
pub fn put_listing(page: &[u8], room: &mut [u8; LISTING_ROOM]) -> usize
    ensures { Lists page.now room.old result room.new }
{
    match check_listing(page) {
        Ok(()) => put_page(page, room),
        Err(refusal) => put_line(room, 0, REFUSED, refusal.number()),
    }
}
