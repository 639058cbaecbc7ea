// The image of a sector: four copies of a number, which says a code and a block, the data, and the 16-bit code of the data; written, read and judged for any number of data bytes, by the public calls for the two sizes that a sector has.
#![tactic(auto)]

ghost use Rattle.std.specs.Prelude.{◌≡◌, ◌+◌, ◌<◌, ◌≤◌, ◌^◌, length, replicate};
ghost use Rattle.std.proofs.lemmas.List.Edits.{sets};
ghost use Rattle.paper.specs.Promise.{Passes, GivesSuch, written};
ghost use Rattle.paper.specs.Limits.{header_size, image_extra, data_size_fault};
ghost use Rattle.words.specs.Words.{bytes_of};
ghost use Rattle.seek.specs.Count.{times};
ghost use Rattle.image.specs.Code.{code_after, data_code, carried};
ghost use Rattle.image.specs.Header.{at_home, is_known, may_head};
ghost use Rattle.image.specs.Image.{copies_made, copies, header_of, image_of, copies_fault, code_fault, contents_fault, pair_fault, header_fault, image_fault, write_fault};
ghost use Rattle.image.specs.Promises.{WriteSized, HeaderSized, DataSized, Write, Header, Judge, Data};

use paper::{HEADER_SIZE, IMAGE_EXTRA, Refusal, START_CODE};
use words::{AT_PRIMARY, CODE_UNIT, ELSEWHERE};

// The code of a header whose block is at home. The other two, which descriptors have too, stand in `words`.
// Stays a number, as they do.
pub const AT_HOME: u32 = 0;

const COPIES_LEAST: u32 = 3;

const CODE_MOST: u16 = 0xFFFF;

// The code stays a number, as the calls take it that are handed it next.
// What the number of a header says: the code, and the block.
#[derive(Clone, Copy, Debug, PartialEq, Eq)]
pub struct Head {
    pub code: u32,
    pub block: u32,
}

// The constant is that of the definitions.
fn code_agrees()
    ensures { AT_HOME ≡ at_home }
{}

// The code after one word more.
fn code_after(code: u16, word: u16) -> u16
    ensures { result ≡ code_after code word }
{
    ((code << 1) | (code >> 15)) ^ word
}

// The code of data; an odd last byte is no word.
fn data_code(bytes: &[u8]) -> u16
    ensures { result ≡ data_code bytes.now }
{
    let mut code = START_CODE;
    for word in bytes.chunks_exact(2) {
        code = code_after(code, words::word16_at(word, 0));
    }
    code
}

// The code that an image of the data carries.
#[tactic(auto, unfolding(crate::specs::Code::carried))]
fn carried(bytes: &[u8], forced: bool) -> u16
    ensures { result ≡ carried forced bytes.now }
{
    let code = data_code(bytes);
    if forced {
        return CODE_MOST - code;
    }
    code
}

// How many of the four copies are the number.
// That the image holds a header stays a clause of this function and of the two after it: the copies are defined of the whole image, and of 16 bytes taken from it each would first have to be shown to say the same.
fn times(image: &[u8], number: u32) -> u32
    requires { header_size ≤ length image.now }
    ensures { result ≡ times number (copies image.now) }
{
    let first = u32::from(words::word32_at(image, 0) == number);
    let second = u32::from(words::word32_at(image, 4) == number);
    let third = u32::from(words::word32_at(image, 8) == number);
    let fourth = u32::from(words::word32_at(image, 12) == number);
    first + (second + (third + fourth))
}

// The number of a header in which one stands three times.
fn header_of(image: &[u8]) -> u32
    requires { header_size ≤ length image.now }
    ensures { result ≡ header_of image.now }
{
    let first = words::word32_at(image, 0);
    if times(image, first) < COPIES_LEAST {
        return words::word32_at(image, 4);
    }
    first
}

// 15 for a header in which no number stands three times.
#[tactic(auto, unfolding(crate::specs::Image::copies_fault))]
fn check_copies(image: &[u8]) -> Result<(), Refusal>
    requires { header_size ≤ length image.now }
    ensures { Passes (copies_fault image.now) result }
{
    if times(image, header_of(image)) < COPIES_LEAST {
        return Err(Refusal::NoAddress);
    }
    Ok(())
}

// The code that was found passes; 17 for its complement, 18 for any other.
fn check_code(stored: u16, found: u16) -> Result<(), Refusal>
    ensures { Passes (code_fault stored found) result }
{
    if stored == found {
        return Ok(());
    }
    if stored == CODE_MOST - found {
        return Err(Refusal::ForcedError);
    }
    Err(Refusal::BadCode)
}

// 15, 16, 17 or 18 for an image of the right length. Only other crates call this.
#[tactic(auto, unfolding(crate::specs::Image::contents_fault))]
pub fn check_contents(size: usize, image: &[u8], number: u32) -> Result<(), Refusal>
    requires { length image.now ≡ size + image_extra }
    ensures { Passes (contents_fault size image.now number) result }
{
    check_copies(image)?;
    if header_of(image) != number {
        return Err(Refusal::OtherBlock);
    }
    let stored = words::word16_at(image, HEADER_SIZE + size);
    let found = data_code(&image[HEADER_SIZE..HEADER_SIZE + size]);
    check_code(stored, found)
}

// Whether a code is one of the three that a header may have.
fn is_known(code: u32) -> bool
    ensures { result ≡ is_known code }
{
    code == AT_HOME || code == AT_PRIMARY || code == ELSEWHERE
}

// Whether some number says the code and the block.
fn may_head(code: u32, block: u32) -> bool
    ensures { result ≡ may_head code block }
{
    is_known(code) && block < CODE_UNIT
}

// 15, 16, 17 or 18 for an image of the right length whose header is to say a block and a code. Only a pair that a number can say is made into one.
#[tactic(auto, unfolding(crate::specs::Image::pair_fault))]
fn check_pair(size: usize, image: &[u8], block: u32, code: u32) -> Result<(), Refusal>
    requires { length image.now ≡ size + image_extra }
    ensures { Passes (pair_fault size image.now block code) result }
{
    if may_head(code, block) {
        return check_contents(size, image, words::word_of(code, block));
    }
    check_copies(image)?;
    Err(Refusal::OtherBlock)
}

// Writes the four copies of a number.
fn put_header(room: &mut [u8], number: u32)
    requires { header_size ≤ length room.old }
    ensures { room.new ≡ sets room.old 0 (bytes_of (replicate copies_made number)) }
{
    words::put32(room, 0, number);
    words::put32(room, 4, number);
    words::put32(room, 8, number);
    words::put32(room, 12, number);
}

// Writes bytes at a place. Other crates may call this too.
// A room and a place stay, as in `words`: the definitions write a list at a place.
pub fn put_bytes(room: &mut [u8], at: usize, bytes: &[u8])
    requires { at + length bytes.now ≤ length room.old }
    ensures { room.new ≡ sets room.old at bytes.now }
{
    let mut i = 0;
    // Stays: for a copy of the library's, whose length is known only when it runs, the archive would ask a board for `memmove` too.
    while i < bytes.len() {
        room[at + i] = bytes[i];
        i += 1;
    }
}

// Writes the image of data into the first places of a room.
fn put_image(number: u32, bytes: &[u8], forced: bool, room: &mut [u8])
    requires { length bytes.now + image_extra ≤ length room.old }
    ensures { room.new ≡ written (image_of number bytes.now forced) room.old }
{
    let code = carried(bytes, forced);
    put_header(room, number);
    put_bytes(room, HEADER_SIZE, bytes);
    words::put16(room, HEADER_SIZE + bytes.len(), code);
}

// How many data bytes an image has, few enough that its own length fits 32 bits.
#[derive(Clone, Copy)]
struct DataSize {
    bytes: usize,
    ghost fits: { bytes + image_extra < 2 ^ 32 },
}

impl DataSize {
    // The size of a sector's data: 1 for one that it does not have.
    fn check(size: u32) -> Result<DataSize, Refusal>
        ensures { GivesSuch (data_size_fault size) (λ checked. checked.bytes ≡ size) result }
    {
        paper::check_data_size(size)?;
        Ok(DataSize {
            bytes: size as usize,
        })
    }

    // 14, 15 or 16 for the header of an image.
    #[tactic(auto, unfolding(crate::specs::Image::header_fault))]
    fn check_header(self, image: &[u8]) -> Result<(), Refusal>
        ensures { Passes (header_fault self.bytes image.now) result }
    {
        if image.len() != self.bytes + IMAGE_EXTRA {
            return Err(Refusal::WrongLength);
        }
        check_copies(image)?;
        if !is_known(words::code_of(header_of(image))) {
            return Err(Refusal::OtherBlock);
        }
        Ok(())
    }

    // 14 to 18 for an image.
    #[tactic(auto, unfolding(crate::specs::Image::image_fault))]
    fn check_image(self, image: &[u8], block: u32, code: u32) -> Result<(), Refusal>
        ensures { Passes (image_fault self.bytes image.now block code) result }
    {
        if image.len() != self.bytes + IMAGE_EXTRA {
            return Err(Refusal::WrongLength);
        }
        check_pair(self.bytes, image, block, code)
    }

    // 14, 5, 22 or 7 for the data to write, its block and code, and the room for its image.
    #[tactic(auto, unfolding(crate::specs::Image::write_fault))]
    fn check_write(self, block: u32, code: u32, bytes: &[u8], room: &[u8]) -> Result<(), Refusal>
        ensures { Passes (write_fault self.bytes block code bytes.now room.now) result }
    {
        if bytes.len() != self.bytes {
            return Err(Refusal::WrongLength);
        }
        if CODE_UNIT <= block {
            return Err(Refusal::NoSuchBlock);
        }
        if !is_known(code) {
            return Err(Refusal::UnknownCode);
        }
        if room.len() < self.bytes + IMAGE_EXTRA {
            return Err(Refusal::NoRoom);
        }
        Ok(())
    }

    // Writes the image of data of the size. Checks 14, 5, 22, 7.
    fn write(
        self,
        block: u32,
        code: u32,
        bytes: &[u8],
        forced: bool,
        room: &mut [u8],
    ) -> Result<u32, Refusal>
        ensures { WriteSized self.bytes block code bytes.now forced room.old result room.new }
    {
        self.check_write(block, code, bytes, room)?;
        put_image(words::word_of(code, block), bytes, forced, room);
        Ok((self.bytes + IMAGE_EXTRA) as u32)
    }

    // The code and the block that the header of an image says. Checks 14, 15, 16.
    fn header(self, image: &[u8]) -> Result<Head, Refusal>
        ensures { HeaderSized self.bytes image.now result }
    {
        self.check_header(image)?;
        let number = header_of(image);
        Ok(Head {
            code: words::code_of(number),
            block: words::number_of(number),
        })
    }

    // The data of a good image where it lies, else the empty part at the image's start.
    fn data(self, image: &[u8], block: u32, code: u32) -> &[u8]
        ensures { DataSized self.bytes image.entry block code result }
    {
        match self.check_image(image, block, code) {
            Ok(()) => &image[HEADER_SIZE..HEADER_SIZE + self.bytes],
            Err(_) => &image[0..0],
        }
    }
}

// Writes the image of a block's data, good or forced, with the code that tells where the block is. Checks 1, 14, 5, 22, 7.
// The code stays a number, here and where it is compared: any may be named, and all but three are refused.
pub fn write(
    size: u32,
    block: u32,
    code: u32,
    data: &[u8],
    forced: bool,
    room: &mut [u8],
) -> Result<u32, Refusal>
    ensures { Write size block code «data».now forced room.old result room.new }
{
    DataSize::check(size)?.write(block, code, data, forced, room)
}

// The code and the block that the header of an image says. Checks 1, 14, 15, 16.
pub fn header(size: u32, image: &[u8]) -> Result<Head, Refusal>
    ensures { Header size image.now result }
{
    DataSize::check(size)?.header(image)
}

// The verdict on the image of a block with a code. Checks 1, 14, 15, 16, then 17 or 18.
pub fn judge(size: u32, image: &[u8], block: u32, code: u32) -> Result<(), Refusal>
    ensures { Judge size image.now block code result }
{
    DataSize::check(size)?.check_image(image, block, code)
}

// The data of a good image of a block with a code where it lies; the empty part at the image's start exactly when the verdict refuses.
// Stays a part and no `Result`: this call cannot fail, and `judge` beside it says why a part is empty.
pub fn data(size: u32, image: &[u8], block: u32, code: u32) -> &[u8]
    ensures { Data size image.entry block code result }
{
    match DataSize::check(size) {
        Ok(checked) => checked.data(image, block, code),
        Err(_) => &image[0..0],
    }
}
