// One bit of a lent number.
#![tactic(auto)]

ghost use Rattle.std.specs.Prelude.{◌≡◌, ◌<◌, length, get_or, set};
ghost use Rattle.bits.specs.Steps.{number_bits, bit_at, with_bit};

// Bits of a number.
pub const NUMBER_BITS: u32 = 32;

// The number of bits of the code is that of the definitions.
fn bits_agree()
    ensures { NUMBER_BITS ≡ number_bits }
{}

// Turns one bit of a number on, and answers whether it was on. Only other crates call this.
pub fn mark(numbers: &mut [u32], slot: usize, bit: u32) -> bool
    requires slot_in_bounds { slot < length numbers.old }
    requires bit_lt_number_bits { bit < number_bits }
    ensures value { result ≡ bit_at (get_or numbers.old slot 0) bit }
    ensures numbers_after { numbers.new ≡ set numbers.old slot (with_bit (get_or numbers.old slot 0) bit) }
{
    let number = numbers[slot];
    numbers[slot] = number | (1 << bit);
    (number >> bit) % 2 == 1
}
