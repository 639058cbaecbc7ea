// The two sizes of a sector's data.
ghost use Rattle.std.specs.Prelude.{◌≤◌};

// How many bytes the data of a sector has: at least the two of a word, and at most the larger size.
#[derive(Clone, Copy)]
pub struct DataSize {
    pub bytes: u32,
    ghost word: { 2 ≤ bytes },
    ghost small: { bytes ≤ 576 },
}

pub const PLAIN: DataSize = DataSize {
    bytes: paper::DATA_SIZE as u32,
};

pub const WIDE: DataSize = DataSize {
    bytes: paper::WIDE_SIZE as u32,
};
