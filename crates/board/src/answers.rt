// The results of the C face, and for each how it is made of an answer: `refusal` first, 0 where the call accepts, and all else 0 where it refuses.
ghost use Rattle.std.specs.Prelude.{◌≡◌};
ghost use Rattle.paper.specs.Answers.{said_number, said_named, said_verdict};
ghost use Rattle.shape.specs.Promises.{said_located};
ghost use Rattle.skip.specs.Promises.{said_job, said_step};
ghost use Rattle.page.specs.Promises.{said_paged};
ghost use Rattle.format.specs.Promises.{said_formatted};
ghost use Rattle.spares.specs.Promises.{said_shifted, said_counted};
ghost use Rattle.image.specs.Promises.{said_head};
ghost use Rattle.reading.specs.Promises.{said_tracks, said_spot};
ghost use Rattle.board.specs.Promises.{placed_fields, named_fields, written_fields, located_fields, job_fields, paged_fields, formatted_fields, shifted_fields, replaced_fields, counted_fields, headed_fields, judged_fields, sized_fields, tracks_fields, spotted_fields};

use format::Formatted;
use image::Head;
use page::Paged;
use paper::Refusal;
use reading::{Pair, Spot};
use shape::Address;
use skip::Cursor;
use table::Census;

// Where a block lies, as a sector number.
#[repr(C)]
#[derive(Clone, Copy, Debug, PartialEq, Eq)]
pub struct TbPlaced {
    pub refusal: u32,
    pub sector: u32,
}

// Whether a block lies on a sector, 1 or 0, and the block.
#[repr(C)]
#[derive(Clone, Copy, Debug, PartialEq, Eq)]
pub struct TbNamed {
    pub refusal: u32,
    pub found: u32,
    pub block: u32,
}

// How many places of the lent room a result fills.
#[repr(C)]
#[derive(Clone, Copy, Debug, PartialEq, Eq)]
pub struct TbWritten {
    pub refusal: u32,
    pub length: u32,
}

// Where a sector or a block lies, as an address.
#[repr(C)]
#[derive(Clone, Copy, Debug, PartialEq, Eq)]
pub struct TbLocated {
    pub refusal: u32,
    pub address: Address,
}

// The sector of a block, and the cursor of the job.
#[repr(C)]
#[derive(Clone, Copy, Debug, PartialEq, Eq)]
pub struct TbJob {
    pub refusal: u32,
    pub sector: u32,
    pub next: Cursor,
}

// A page as it was read.
#[repr(C)]
#[derive(Clone, Copy, Debug, PartialEq, Eq)]
pub struct TbPaged {
    pub refusal: u32,
    pub kind: u32,
    pub n: u32,
    pub entries: u32,
}

// The lengths of the new grown list and of the new list, and the new space.
#[repr(C)]
#[derive(Clone, Copy, Debug, PartialEq, Eq)]
pub struct TbFormatted {
    pub refusal: u32,
    pub grown: u32,
    pub list: u32,
    pub space: u32,
}

// How many cylinders a block is moved, negative toward cylinder 0.
#[repr(C)]
#[derive(Clone, Copy, Debug, PartialEq, Eq)]
pub struct TbShifted {
    pub refusal: u32,
    pub shift: i32,
}

// The place that a replacement wrote.
#[repr(C)]
#[derive(Clone, Copy, Debug, PartialEq, Eq)]
pub struct TbReplaced {
    pub refusal: u32,
    pub place: u32,
}

// How many places of a table have each code.
#[repr(C)]
#[derive(Clone, Copy, Debug, PartialEq, Eq)]
pub struct TbCounted {
    pub refusal: u32,
    pub free: u32,
    pub primary: u32,
    pub elsewhere: u32,
    pub unusable: u32,
    pub null: u32,
}

// What the number of a header says: the code, and the block.
#[repr(C)]
#[derive(Clone, Copy, Debug, PartialEq, Eq)]
pub struct TbHeaded {
    pub refusal: u32,
    pub code: u32,
    pub block: u32,
}

// A verdict.
#[repr(C)]
#[derive(Clone, Copy, Debug, PartialEq, Eq)]
pub struct TbJudged {
    pub refusal: u32,
}

// The size of a sector's data.
#[repr(C)]
#[derive(Clone, Copy, Debug, PartialEq, Eq)]
pub struct TbSized {
    pub refusal: u32,
    pub size: u32,
}

// The home track of a block, the track that it lies on, and how many cylinders the arm moves between them, negative toward cylinder 0.
#[repr(C)]
#[derive(Clone, Copy, Debug, PartialEq, Eq)]
pub struct TbTracks {
    pub refusal: u32,
    pub home_cylinder: u32,
    pub home_head: u32,
    pub cylinder: u32,
    pub head: u32,
    pub shift: i32,
}

// Where the data of a block begins: in image 0, that of its home track, or in image 1, the second one, and how far inside it.
#[repr(C)]
#[derive(Clone, Copy, Debug, PartialEq, Eq)]
pub struct TbSpotted {
    pub refusal: u32,
    pub image: u32,
    pub offset: u32,
}

// Structs that differ in the name of a field alone stay structs of their own: C names them.

impl From<Result<u32, Refusal>> for TbPlaced {
    ghost from_gives = { λ answer r. placed_fields r ≡ said_number answer };

    fn from(answer: Result<u32, Refusal>) -> TbPlaced {
        match answer {
            Ok(sector) => TbPlaced { refusal: 0, sector },
            Err(refusal) => TbPlaced {
                refusal: refusal.number(),
                sector: 0,
            },
        }
    }
}

impl From<Result<Option<u32>, Refusal>> for TbNamed {
    ghost from_gives = { λ answer r. named_fields r ≡ said_named answer };

    fn from(answer: Result<Option<u32>, Refusal>) -> TbNamed {
        match answer {
            Ok(Some(block)) => TbNamed {
                refusal: 0,
                found: 1,
                block,
            },
            Ok(None) => TbNamed {
                refusal: 0,
                found: 0,
                block: 0,
            },
            Err(refusal) => TbNamed {
                refusal: refusal.number(),
                found: 0,
                block: 0,
            },
        }
    }
}

impl From<Result<u32, Refusal>> for TbWritten {
    ghost from_gives = { λ answer r. written_fields r ≡ said_number answer };

    fn from(answer: Result<u32, Refusal>) -> TbWritten {
        match answer {
            Ok(length) => TbWritten { refusal: 0, length },
            Err(refusal) => TbWritten {
                refusal: refusal.number(),
                length: 0,
            },
        }
    }
}

impl From<Result<Address, Refusal>> for TbLocated {
    ghost from_gives = { λ answer r. located_fields r ≡ said_located answer };

    fn from(answer: Result<Address, Refusal>) -> TbLocated {
        match answer {
            Ok(address) => TbLocated {
                refusal: 0,
                address,
            },
            Err(refusal) => TbLocated {
                refusal: refusal.number(),
                address: Address {
                    cylinder: 0,
                    head: 0,
                    sector: 0,
                    angle: 0,
                },
            },
        }
    }
}

impl From<Result<Cursor, Refusal>> for TbJob {
    ghost from_gives = { λ answer r. job_fields r ≡ said_job answer };

    fn from(answer: Result<Cursor, Refusal>) -> TbJob {
        match answer {
            Ok(next) => TbJob {
                refusal: 0,
                sector: 0,
                next,
            },
            Err(refusal) => TbJob {
                refusal: refusal.number(),
                sector: 0,
                next: Cursor {
                    block: 0,
                    skipped: 0,
                },
            },
        }
    }
}

// The answer of a step, and the cursor that it leaves.
impl From<(Result<u32, Refusal>, Cursor)> for TbJob {
    ghost from_gives = { λ answer r. job_fields r ≡ said_step answer.0 answer.1 };

    fn from((answer, next): (Result<u32, Refusal>, Cursor)) -> TbJob {
        match answer {
            Ok(sector) => TbJob {
                refusal: 0,
                sector,
                next,
            },
            Err(refusal) => TbJob {
                refusal: refusal.number(),
                sector: 0,
                next,
            },
        }
    }
}

impl From<Result<Paged, Refusal>> for TbPaged {
    ghost from_gives = { λ answer r. paged_fields r ≡ said_paged answer };

    fn from(answer: Result<Paged, Refusal>) -> TbPaged {
        match answer {
            Ok(paged) => TbPaged {
                refusal: 0,
                kind: paged.kind,
                n: paged.n,
                entries: paged.entries,
            },
            Err(refusal) => TbPaged {
                refusal: refusal.number(),
                kind: 0,
                n: 0,
                entries: 0,
            },
        }
    }
}

impl From<Result<Formatted, Refusal>> for TbFormatted {
    ghost from_gives = { λ answer r. formatted_fields r ≡ said_formatted answer };

    fn from(answer: Result<Formatted, Refusal>) -> TbFormatted {
        match answer {
            Ok(formatted) => TbFormatted {
                refusal: 0,
                grown: formatted.grown,
                list: formatted.list,
                space: formatted.space,
            },
            Err(refusal) => TbFormatted {
                refusal: refusal.number(),
                grown: 0,
                list: 0,
                space: 0,
            },
        }
    }
}

impl From<Result<i32, Refusal>> for TbShifted {
    ghost from_gives = { λ answer r. shifted_fields r ≡ said_shifted answer };

    fn from(answer: Result<i32, Refusal>) -> TbShifted {
        match answer {
            Ok(shift) => TbShifted { refusal: 0, shift },
            Err(refusal) => TbShifted {
                refusal: refusal.number(),
                shift: 0,
            },
        }
    }
}

impl From<Result<u32, Refusal>> for TbReplaced {
    ghost from_gives = { λ answer r. replaced_fields r ≡ said_number answer };

    fn from(answer: Result<u32, Refusal>) -> TbReplaced {
        match answer {
            Ok(place) => TbReplaced { refusal: 0, place },
            Err(refusal) => TbReplaced {
                refusal: refusal.number(),
                place: 0,
            },
        }
    }
}

impl From<Result<Census, Refusal>> for TbCounted {
    ghost from_gives = { λ answer r. counted_fields r ≡ said_counted answer };

    fn from(answer: Result<Census, Refusal>) -> TbCounted {
        match answer {
            Ok(census) => TbCounted {
                refusal: 0,
                free: census.free,
                primary: census.primary,
                elsewhere: census.elsewhere,
                unusable: census.unusable,
                null: census.null,
            },
            Err(refusal) => TbCounted {
                refusal: refusal.number(),
                free: 0,
                primary: 0,
                elsewhere: 0,
                unusable: 0,
                null: 0,
            },
        }
    }
}

impl From<Result<Head, Refusal>> for TbHeaded {
    ghost from_gives = { λ answer r. headed_fields r ≡ said_head answer };

    fn from(answer: Result<Head, Refusal>) -> TbHeaded {
        match answer {
            Ok(head) => TbHeaded {
                refusal: 0,
                code: head.code,
                block: head.block,
            },
            Err(refusal) => TbHeaded {
                refusal: refusal.number(),
                code: 0,
                block: 0,
            },
        }
    }
}

impl From<Result<(), Refusal>> for TbJudged {
    ghost from_gives = { λ answer r. judged_fields r ≡ said_verdict answer };

    fn from(answer: Result<(), Refusal>) -> TbJudged {
        match answer {
            Ok(()) => TbJudged { refusal: 0 },
            Err(refusal) => TbJudged {
                refusal: refusal.number(),
            },
        }
    }
}

impl From<Result<u32, Refusal>> for TbSized {
    ghost from_gives = { λ answer r. sized_fields r ≡ said_number answer };

    fn from(answer: Result<u32, Refusal>) -> TbSized {
        match answer {
            Ok(size) => TbSized { refusal: 0, size },
            Err(refusal) => TbSized {
                refusal: refusal.number(),
                size: 0,
            },
        }
    }
}

impl From<Result<Pair, Refusal>> for TbTracks {
    ghost from_gives = { λ answer r. tracks_fields r ≡ said_tracks answer };

    fn from(answer: Result<Pair, Refusal>) -> TbTracks {
        match answer {
            Ok(pair) => TbTracks {
                refusal: 0,
                home_cylinder: pair.home.cylinder,
                home_head: pair.home.head,
                cylinder: pair.there.cylinder,
                head: pair.there.head,
                shift: pair.shift,
            },
            Err(refusal) => TbTracks {
                refusal: refusal.number(),
                home_cylinder: 0,
                home_head: 0,
                cylinder: 0,
                head: 0,
                shift: 0,
            },
        }
    }
}

impl From<Result<Spot, Refusal>> for TbSpotted {
    ghost from_gives = { λ answer r. spotted_fields r ≡ said_spot answer };

    fn from(answer: Result<Spot, Refusal>) -> TbSpotted {
        match answer {
            Ok(Spot::InHome(offset)) => TbSpotted {
                refusal: 0,
                image: 0,
                offset,
            },
            Ok(Spot::InSpare(offset)) => TbSpotted {
                refusal: 0,
                image: 1,
                offset,
            },
            Err(refusal) => TbSpotted {
                refusal: refusal.number(),
                image: 0,
                offset: 0,
            },
        }
    }
}
