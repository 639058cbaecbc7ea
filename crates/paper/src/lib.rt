// The paper's numbers: refusals, limits and sizes, the range of N, and the two sizes of a sector's data.
#![tactic(auto)]

ghost use Rattle.std.specs.Prelude.{◌≡◌, ◌≤◌};
ghost use Rattle.paper.specs.Numbers.{number};
ghost use Rattle.paper.specs.Promise.{Passes};
ghost use Rattle.paper.specs.Limits.{units_most, cylinders_most, heads_most, sectors_least, sectors_most, list_most, spares_most, table_block, data_size, wide_size, header_size, image_extra, page_frame, entry_size, page_most, option_most, space_most, kind_most, listing_most, start_code, within, size_fault, is_size, data_size_fault};

use std::error::Error;
use std::fmt;

// Why a call refuses, by the paper's refusal numbers. 12 is no longer given, and no other refusal takes the number.
#[derive(Clone, Copy, Debug, PartialEq, Eq)]
pub enum Refusal {
    OutOfRange = 1,
    TooLong = 2,
    NotRising = 3,
    Outside = 4,
    NoSuchBlock = 5,
    NoSuchSector = 6,
    NoRoom = 7,
    BadPage = 8,
    StrayCursor = 9,
    BadOption = 10,
    BadTable = 11,
    NoSpare = 13,
    WrongLength = 14,
    NoAddress = 15,
    OtherBlock = 16,
    ForcedError = 17,
    BadCode = 18,
    NoMode = 21,
    UnknownCode = 22,
}

impl Refusal {
    // The paper's number of a refusal.
    pub fn number(self) -> u32
        ensures { result ≡ number self }
    {
        self as u32
    }
}

// What a refusal means, in words.
impl fmt::Display for Refusal {
    fn fmt<W: fmt::Write>(&self, f: &mut fmt::Formatter<W>) -> fmt::Result {
        f.write_str(match self {
            Refusal::OutOfRange => "a number of the drive is out of range",
            Refusal::TooLong => "the list is too long",
            Refusal::NotRising => "the list does not rise",
            Refusal::Outside => "the list leaves its space",
            Refusal::NoSuchBlock => "there is no such block",
            Refusal::NoSuchSector => "there is no such sector",
            Refusal::NoRoom => "the room or the scratch is too short",
            Refusal::BadPage => "the page is broken",
            Refusal::StrayCursor => "the cursor is of another list",
            Refusal::BadOption => "the option and its list do not fit",
            Refusal::BadTable => "the table breaks its rules",
            Refusal::NoSpare => "no spare is free",
            Refusal::WrongLength => "the length is wrong",
            Refusal::NoAddress => "no three copies of the header agree",
            Refusal::OtherBlock => "the header says another block or another code",
            Refusal::ForcedError => "the data was bad when it was written",
            Refusal::BadCode => "the code does not fit the data",
            Refusal::NoMode => "no copy of the format table says the size",
            Refusal::UnknownCode => "there is no such code",
        })
    }
}

impl Error for Refusal {}

pub const UNITS_MOST: u32 = 16_777_216;

pub const CYLINDERS_MOST: u32 = 4_096;

pub const HEADS_MOST: u32 = 64;

pub const SECTORS_LEAST: u32 = 2;

pub const SECTORS_MOST: u32 = 64;

pub const LIST_MOST: usize = 65_536;

pub const SPARES_MOST: u32 = 65_536;

pub const TABLE_BLOCK: usize = 128;

pub const DATA_SIZE: usize = 512;

pub const WIDE_SIZE: usize = 576;

pub const HEADER_SIZE: usize = 16;

pub const IMAGE_EXTRA: usize = 18;

pub const PAGE_FRAME: usize = 14;

pub const ENTRY_SIZE: usize = 4;

pub const PAGE_MOST: usize = PAGE_FRAME + ENTRY_SIZE * LIST_MOST;

pub const OPTION_MOST: u32 = 7;

pub const SPACE_MOST: u32 = 3;

pub const KIND_MOST: u32 = 1;

pub const LISTING_MOST: usize = 16_398;

pub const START_CODE: u16 = 0x5A3C;

// Each limit and size of the code is that of the definitions.
fn limits_agree()
    ensures units_most_value { UNITS_MOST ≡ units_most }
    ensures cylinders_most_value { CYLINDERS_MOST ≡ cylinders_most }
    ensures heads_most_value { HEADS_MOST ≡ heads_most }
    ensures sectors_least_value { SECTORS_LEAST ≡ sectors_least }
    ensures sectors_most_value { SECTORS_MOST ≡ sectors_most }
    ensures list_most_value { LIST_MOST ≡ list_most }
    ensures spares_most_value { SPARES_MOST ≡ spares_most }
    ensures table_block_value { TABLE_BLOCK ≡ table_block }
    ensures data_size_value { DATA_SIZE ≡ data_size }
    ensures wide_size_value { WIDE_SIZE ≡ wide_size }
    ensures header_size_value { HEADER_SIZE ≡ header_size }
    ensures image_extra_value { IMAGE_EXTRA ≡ image_extra }
    ensures page_frame_value { PAGE_FRAME ≡ page_frame }
    ensures entry_size_value { ENTRY_SIZE ≡ entry_size }
    ensures page_most_value { PAGE_MOST ≡ page_most }
    ensures option_most_value { OPTION_MOST ≡ option_most }
    ensures space_most_value { SPACE_MOST ≡ space_most }
    ensures kind_most_value { KIND_MOST ≡ kind_most }
    ensures listing_most_value { LISTING_MOST ≡ listing_most }
    ensures start_code_value { START_CODE ≡ start_code }
{}

// Whether a number lies in a range, both ends included. Only other crates call this.
pub fn within(least: u32, most: u32, number: u32) -> bool
    ensures { result ≡ within least most number }
{
    (least..=most).contains(&number)
}

// Refusal 1 for an N outside its range. Only other crates call this.
pub fn check_size(n: u32) -> Result<(), Refusal>
    ensures { Passes (size_fault n) result }
{
    if !within(1, UNITS_MOST, n) {
        return Err(Refusal::OutOfRange);
    }
    Ok(())
}

// Whether a number is one of the two sizes of a sector's data. Only other crates call this.
pub fn is_size(size: u32) -> bool
    ensures { result ≡ is_size size }
{
    size as usize == DATA_SIZE || size as usize == WIDE_SIZE
}

// Refusal 1 for a size that a sector's data does not have. Only other crates call this.
#[tactic(auto, unfolding(crate::specs::Limits::data_size_fault))]
pub fn check_data_size(size: u32) -> Result<(), Refusal>
    ensures { Passes (data_size_fault size) result }
{
    if !is_size(size) {
        return Err(Refusal::OutOfRange);
    }
    Ok(())
}
