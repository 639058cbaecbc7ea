// The answers that `reading` gives beside those of the crates under it.
// Where the data of a block begins: how far inside the image of its home track, or inside the second one.
#[derive(Clone, Copy, Debug, PartialEq, Eq)]
pub enum Spot {
    InHome(u32),
    InSpare(u32),
}

// A track by its cylinder and head.
#[derive(Clone, Copy, Debug, PartialEq, Eq)]
pub struct Track {
    pub cylinder: u32,
    pub head: u32,
}

// The two tracks of a block, its home track and the one that it lies on; and how many cylinders the arm moves from the first to the second, negative toward cylinder 0.
#[derive(Clone, Copy, Debug, PartialEq, Eq)]
pub struct Pair {
    pub home: Track,
    pub there: Track,
    pub shift: i32,
}
