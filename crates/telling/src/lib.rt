// Lines for a person: the answers of the public calls in words, rows of numbers and of bytes, and shapes; and the two sizes that trials are made at. A write that fails is not reported. No contract can say what is written; the file `stdout` of each program has it.
#![tactic(auto)]

use std::fmt;

pub mod answers;
pub mod asking;
pub mod rows;
pub mod shapes;
pub mod sizes;

// The number of the file that standard output is.
const STANDARD_OUTPUT: i32 = 1;

// Standard output, over the kit's `io`. The runtime's printing needs no type of ours, but assumes one more of the system's functions, the number of the last error. A piece that cannot be written is passed over, and the next one is tried. Only other crates make this.
#[derive(Drop)]
pub struct Output;

impl fmt::Write for Output {
    fn write_str(&mut self, s: &str) -> fmt::Result {
        let _ = io::write_all(STANDARD_OUTPUT, s.as_bytes());
        Ok(())
    }
}
