// The answer of each public call in words: what it answers, or the number of its refusal.
use image::{AT_HOME, Head};
use paper::Refusal;
use reading::{Pair, Spot};
use shape::Address;
use skip::Cursor;
use std::fmt;
use table::Census;
use words::{AT_PRIMARY, ELSEWHERE};

// Writes the number of a refusal.
fn refused<W: fmt::Write>(f: &mut fmt::Formatter<W>, refusal: Refusal) -> fmt::Result {
    let number = refusal.number();
    write!(f, "refused {number}")
}

// A number after the word for it: a sector, a length, a place, a size, or a shift with its sign. Only other crates make this.
#[derive(Clone, Copy)]
pub struct Told<T>(pub &'static str, pub Result<T, Refusal>);

impl<T: fmt::Display> fmt::Display for Told<T> {
    fn fmt<W: fmt::Write>(&self, f: &mut fmt::Formatter<W>) -> fmt::Result {
        let word = self.0;
        match &self.1 {
            Ok(number) => write!(f, "{word} {number}"),
            Err(refusal) => refused(f, *refusal),
        }
    }
}

// The block of a sector. Only other crates make this.
#[derive(Clone, Copy)]
pub struct Block(pub Result<Option<u32>, Refusal>);

impl fmt::Display for Block {
    fn fmt<W: fmt::Write>(&self, f: &mut fmt::Formatter<W>) -> fmt::Result {
        match self.0 {
            Ok(Some(block)) => write!(f, "block {block}"),
            Ok(None) => write!(f, "no block"),
            Err(refusal) => refused(f, refusal),
        }
    }
}

// An address with its angle. Only other crates make this.
#[derive(Clone, Copy)]
pub struct Location(pub Result<Address, Refusal>);

impl fmt::Display for Location {
    fn fmt<W: fmt::Write>(&self, f: &mut fmt::Formatter<W>) -> fmt::Result {
        match self.0 {
            Ok(
                Address {
                    cylinder,
                    head,
                    sector,
                    angle,
                },
            ) => write!(
                f,
                "cylinder {cylinder}, head {head}, sector {sector}, angle {angle}"
            ),
            Err(refusal) => refused(f, refusal),
        }
    }
}

// A cursor: the next block and the skipped count. Only other crates make this.
#[derive(Clone, Copy)]
pub struct Next(pub Cursor);

impl fmt::Display for Next {
    fn fmt<W: fmt::Write>(&self, f: &mut fmt::Formatter<W>) -> fmt::Result {
        let Cursor { block, skipped } = self.0;
        write!(f, "cursor {block}, {skipped}")
    }
}

// The cursor of a job that is ready. A refusal is followed by the cursor of block 0.
#[derive(Clone, Copy)]
pub struct Job(pub Result<Cursor, Refusal>);

impl fmt::Display for Job {
    fn fmt<W: fmt::Write>(&self, f: &mut fmt::Formatter<W>) -> fmt::Result {
        match self.0 {
            Ok(next) => write!(f, "{}", Next(next)),
            Err(refusal) => {
                refused(f, refusal)?;
                write!(f, ", cursor 0, 0")
            }
        }
    }
}

// What a page says before its entries, and how many it has. Only other crates make this.
#[derive(Clone, Copy)]
pub struct Paged(pub Result<page::Paged, Refusal>);

impl fmt::Display for Paged {
    fn fmt<W: fmt::Write>(&self, f: &mut fmt::Formatter<W>) -> fmt::Result {
        match self.0 {
            Ok(page::Paged { kind, n, entries }) => {
                write!(f, "kind {kind}, N {n}, entries {entries}")
            }
            Err(refusal) => refused(f, refusal),
        }
    }
}

// What Format made: both lengths and the space. Only other crates make this.
#[derive(Clone, Copy)]
pub struct Formatted(pub Result<format::Formatted, Refusal>);

impl fmt::Display for Formatted {
    fn fmt<W: fmt::Write>(&self, f: &mut fmt::Formatter<W>) -> fmt::Result {
        match self.0 {
            Ok(format::Formatted { grown, list, space }) => {
                write!(f, "grown list of {grown}, list of {list}, space {space}")
            }
            Err(refusal) => refused(f, refusal),
        }
    }
}

// A census. Only other crates make this.
#[derive(Clone, Copy)]
pub struct Counts(pub Result<Census, Refusal>);

impl fmt::Display for Counts {
    fn fmt<W: fmt::Write>(&self, f: &mut fmt::Formatter<W>) -> fmt::Result {
        match self.0 {
            Ok(
                Census {
                    free,
                    primary,
                    elsewhere,
                    unusable,
                    null,
                },
            ) => write!(
                f,
                "free {free}, primary {primary}, elsewhere {elsewhere}, unusable {unusable}, null {null}"
            ),
            Err(refusal) => refused(f, refusal),
        }
    }
}

// A code and a block, and what the code says of the block. Only other crates make this.
#[derive(Clone, Copy)]
pub struct Coded(pub Head);

impl fmt::Display for Coded {
    fn fmt<W: fmt::Write>(&self, f: &mut fmt::Formatter<W>) -> fmt::Result {
        let Head { code, block } = self.0;
        match code {
            AT_HOME => write!(f, "block {block} at home"),
            AT_PRIMARY => write!(f, "block {block} replaced at its primary"),
            ELSEWHERE => write!(f, "block {block} replaced elsewhere"),
            _ => write!(f, "block {block} with code {code}"),
        }
    }
}

// The block and the code that a header says. Only other crates make this.
#[derive(Clone, Copy)]
pub struct Header(pub Result<Head, Refusal>);

impl fmt::Display for Header {
    fn fmt<W: fmt::Write>(&self, f: &mut fmt::Formatter<W>) -> fmt::Result {
        match self.0 {
            Ok(head) => write!(f, "{}", Coded(head)),
            Err(refusal) => refused(f, refusal),
        }
    }
}

// A verdict. Only other crates make this.
#[derive(Clone, Copy)]
pub struct Verdict(pub Result<(), Refusal>);

impl fmt::Display for Verdict {
    fn fmt<W: fmt::Write>(&self, f: &mut fmt::Formatter<W>) -> fmt::Result {
        match self.0 {
            Ok(()) => write!(f, "good"),
            Err(refusal) => refused(f, refusal),
        }
    }
}

// In which image, and how far inside it, the data of a block begins. Only other crates make this.
#[derive(Clone, Copy)]
pub struct Start(pub Result<Spot, Refusal>);

impl fmt::Display for Start {
    fn fmt<W: fmt::Write>(&self, f: &mut fmt::Formatter<W>) -> fmt::Result {
        match self.0 {
            Ok(Spot::InHome(offset)) => write!(f, "home image, byte {offset}"),
            Ok(Spot::InSpare(offset)) => write!(f, "second image, byte {offset}"),
            Err(refusal) => refused(f, refusal),
        }
    }
}

// The cylinder and the head of a block's home track, those of the track that it lies on, and how many cylinders it is moved, with the sign. Only other crates make this.
#[derive(Clone, Copy)]
pub struct Tracks(pub Result<Pair, Refusal>);

impl fmt::Display for Tracks {
    fn fmt<W: fmt::Write>(&self, f: &mut fmt::Formatter<W>) -> fmt::Result {
        match self.0 {
            Ok(Pair { home, there, shift }) => write!(
                f,
                "cylinder {}, head {} and cylinder {}, head {}, shift {shift}",
                home.cylinder, home.head, there.cylinder, there.head
            ),
            Err(refusal) => refused(f, refusal),
        }
    }
}
