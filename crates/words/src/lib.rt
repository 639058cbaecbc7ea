// Words in lent bytes: numbers of two and four bytes, the most significant byte first, read and written at a place; and the word of a code and a number.
#![tactic(auto)]

ghost use Rattle.std.specs.Prelude.{◌≡◌, ◌+◌, ◌<◌, ◌≤◌, length};
ghost use Rattle.std.proofs.lemmas.List.Edits.{sets};
ghost use Rattle.words.specs.Coded.{code_unit, word_of, code_of, number_of, at_primary, elsewhere};
ghost use Rattle.words.specs.Words.{bytes16, bytes32, word16_at, word32_at};

// 2²⁸: the low 28 bits of a word of a code and a number are the number.
pub const CODE_UNIT: u32 = 268_435_456;

// Stay numbers: a word lies in memory that C lends, and a caller may name any number for a code, which is then refused.
pub const AT_PRIMARY: u32 = 2;

pub const ELSEWHERE: u32 = 3;

// The constants are those of the definitions.
fn codes_agree()
    ensures code_unit_value { CODE_UNIT ≡ code_unit }
    ensures at_primary_value { AT_PRIMARY ≡ at_primary }
    ensures elsewhere_value { ELSEWHERE ≡ elsewhere }
{}

// Two bytes and four stay functions of their own, since each is one call of the library's for its type; and a place stays beside the bytes, since the definitions read a list at a place.

// The number that stands in the two bytes at a place. Only other crates call this.
#[tactic(auto, unfolding(crate::specs::Words::word16_at))]
pub fn word16_at(bytes: &[u8], at: usize) -> u16
    requires { at + 2 ≤ length bytes.now }
    ensures { result ≡ word16_at bytes.now at }
{
    u16::from_be_bytes([bytes[at], bytes[at + 1]])
}

// The number that stands in the four bytes at a place. Only other crates call this.
#[tactic(auto, unfolding(crate::specs::Words::word32_at))]
pub fn word32_at(bytes: &[u8], at: usize) -> u32
    requires { at + 4 ≤ length bytes.now }
    ensures { result ≡ word32_at bytes.now at }
{
    u32::from_be_bytes([bytes[at], bytes[at + 1], bytes[at + 2], bytes[at + 3]])
}

// Writes a number into the two bytes at a place. Only other crates call this.
pub fn put16(room: &mut [u8], at: usize, word: u16)
    requires { at + 2 ≤ length room.old }
    ensures { room.new ≡ sets room.old at (bytes16 word) }
{
    room[at..at + 2].copy_from_slice(&word.to_be_bytes());
}

// Writes a number into the four bytes at a place. Only other crates call this.
pub fn put32(room: &mut [u8], at: usize, word: u32)
    requires { at + 4 ≤ length room.old }
    ensures { room.new ≡ sets room.old at (bytes32 word) }
{
    room[at..at + 4].copy_from_slice(&word.to_be_bytes());
}

// The word of a code and a number. Only other crates call this.
pub fn word_of(code: u32, number: u32) -> u32
    requires code_bound { code < 16 }
    requires number_lt_code_unit { number < code_unit }
    ensures { result ≡ word_of code number }
{
    code * CODE_UNIT + number
}

// The code of a word. Only other crates call this.
pub fn code_of(word: u32) -> u32
    ensures { result ≡ code_of word }
{
    word / CODE_UNIT
}

// The number of a word. Only other crates call this.
pub fn number_of(word: u32) -> u32
    ensures { result ≡ number_of word }
{
    word % CODE_UNIT
}
