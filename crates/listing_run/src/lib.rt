// The body of the listing program: standard input is a page, standard output its listing.
#![tactic(auto)]

use listing_text::LISTING_ROOM;
use paper::LISTING_MOST;

// The programs that call `run` stay one for each input: a program is run on the one input that lies beside it.

// The descriptors of standard input and of standard output. They and the kit's `io` stay: the runtime's reading and writing assume more of the system's functions than its read and its write.
const STDIN: i32 = 0;

const STDOUT: i32 = 1;

// One byte more than is listed, so that a longer input shows.
const PAGE_ROOM: usize = LISTING_MOST + 1;

// Reads standard input to its end or until it is too long for a listing, and writes the listing or the line of its refusal. What reaches standard output has no contract, since the kit's `io::write_all` promises nothing of it. Only other crates call this.
pub fn run() {
    let mut page = [0u8; PAGE_ROOM];
    let got = io::read_full(STDIN, &mut page);
    let mut text = [0u8; LISTING_ROOM];
    let long = listing_text::put_listing(&page[..got], &mut text);
    let _ = io::write_all(STDOUT, &text[..long]);
}
