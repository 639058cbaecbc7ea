// The walk along P, G and D together: at each step it takes the least entry that is left, and says which lists take it. It goes twice, to count and then to write.
ghost use Rattle.std.specs.Prelude.{◌≡◌, true, ◌&&◌, ◌||◌, ◌+◌, ◌<◌, ◌≤◌, length, get_or, set};
ghost use Rattle.paper.specs.Checks.{pick, one_if};
ghost use Rattle.paper.specs.Limits.{units_most, list_most};
ghost use Rattle.paper.specs.Promise.{written};
ghost use Rattle.lists.specs.Proper.{Inside};
ghost use Rattle.format.specs.Steps.{Walkable, Walks, Stepped, grown_of, listed_of};

// What stands where a list has ended: more than any entry.
const ENDED: u32 = u32::MAX;

// Of P and of the grown list: which are meant.
#[derive(Clone, Copy, Debug, PartialEq, Eq)]
pub struct Sides {
    pub p: bool,
    pub g: bool,
}

impl Sides {
    // Whether one that is meant of two tests holds.
    fn meets(self, from_p: bool, from_g: bool) -> bool
        ensures { result ≡ ((self.p && from_p) || (self.g && from_g)) }
    {
        self.p && from_p || self.g && from_g
    }
}

// How far the walk along P, G and D has come, and how many entries of the list that D is mapped over it has skipped.
#[derive(Clone, Copy, Debug, PartialEq, Eq)]
pub struct Walker {
    pub p: usize,
    pub g: usize,
    pub d: usize,
    pub skipped: u32,
}

// Where the walk begins.
const START: Walker = Walker {
    p: 0,
    g: 0,
    d: 0,
    skipped: 0,
};

// Whether a list takes the entry stays a flag for each: the entry is one, and either list may take it, or both.
// The least entry that was left, whether the grown list and the new list take it, and how far the walk then is.
#[derive(Clone, Copy, Debug, PartialEq, Eq)]
pub struct Taken {
    pub entry: u32,
    pub grown: bool,
    pub listed: bool,
    pub next: Walker,
}

// How many entries the grown list and the new list have.
#[derive(Clone, Copy, Debug, PartialEq, Eq)]
pub struct Lengths {
    pub grown: u32,
    pub listed: u32,
}

// The entry at a place, moved on by the entries that are skipped before it, or the end.
fn head(list: &[u32], i: usize, skipped: u32) -> u32
    requires inside { Inside units_most list.now }
    requires skipped_bound { skipped ≤ list_most + list_most }
    ensures value { i < length list.now → result ≡ get_or list.now i 0 + skipped }
    ensures lower_bound { length list.now ≤ i → units_most + list_most + list_most ≤ result }
{
    match list.get(i) {
        Some(entry) => *entry + skipped,
        None => ENDED,
    }
}

// Writes an entry at the count where it is taken, and answers the count after it.
// A room and a count stay: the room is lent, and nothing here may grow on a heap.
fn put(room: &mut [u32], count: usize, entry: u32, taken: bool) -> usize
    requires { taken ≡ true → count < length room.old }
    ensures value { result ≡ count + one_if taken }
    ensures room_after { room.new ≡ pick taken (set room.old count entry) room.old }
{
    if !taken {
        return count;
    }
    room[count] = entry;
    count + 1
}

// What the walk goes along: P, what is kept of G, and D; the sides that D is mapped over, and those that the new list takes. Only this crate calls its functions.
#[derive(Clone, Copy)]
pub struct Merge<'a> {
    pub over: Sides,
    pub takes: Sides,
    pub p: &'a [u32],
    pub g: &'a [u32],
    pub d: &'a [u32],
    ghost walkable: { Walkable p.now g.now d.now },
}

impl<'a> Merge<'a> {
    // One step of the walk. An entry of the list that D is mapped over is skipped, and a block of D lies where none is.
    fn step(self, at: Walker) -> Taken
        requires walks { Walks self.over self.p.now self.g.now self.d.now at }
        requires entry_left { at.p + at.g + at.d < length self.p.now + length self.g.now + length self.d.now }
        ensures { Stepped self.entry.over self.entry.takes self.entry.p.now self.entry.g.now self.entry.d.now at result }
    {
        let head_p = head(self.p, at.p, 0);
        let head_g = head(self.g, at.g, 0);
        let head_d = head(self.d, at.d, at.skipped);
        let entry = head_p.min(head_g).min(head_d);
        let from_p = head_p == entry;
        let from_g = head_g == entry;
        let skipped = self.over.meets(from_p, from_g);
        let from_d = head_d == entry && !skipped;
        let grown = from_g || from_d;
        Taken {
            entry,
            grown,
            listed: self.takes.meets(from_p, grown),
            next: Walker {
                p: at.p + usize::from(from_p),
                g: at.g + usize::from(from_g),
                d: at.d + usize::from(from_d),
                skipped: at.skipped + u32::from(skipped),
            },
        }
    }

    // The first pass: it counts, and writes nothing.
    pub fn count(self) -> Lengths
        ensures grown_value { result.grown ≡ length (grown_of self.entry.over self.entry.p.now self.entry.g.now self.entry.d.now) }
        ensures listed_value { result.listed ≡ length (listed_of self.entry.over self.entry.takes self.entry.p.now self.entry.g.now self.entry.d.now) }
    {
        let mut at = START;
        let mut grown = 0;
        let mut listed = 0;
        // Stays: a step moves three places at once, as a merge of three lists does.
        while at.p + at.g + at.d < self.p.len() + self.g.len() + self.d.len() {
            let taken = self.step(at);
            grown += u32::from(taken.grown);
            listed += u32::from(taken.listed);
            at = taken.next;
        }
        Lengths { grown, listed }
    }

    // The second pass: it writes both lists into rooms that have place for them.
    pub fn fill(self, grown: &mut [u32], listed: &mut [u32])
        requires grown_room { length (grown_of self.over self.p.now self.g.now self.d.now) ≤ length grown.old }
        requires listed_room { length (listed_of self.over self.takes self.p.now self.g.now self.d.now) ≤ length listed.old }
        ensures grown_after { grown.new ≡ written (grown_of self.entry.over self.entry.p.now self.entry.g.now self.entry.d.now) grown.old }
        ensures listed_after { listed.new ≡ written (listed_of self.entry.over self.entry.takes self.entry.p.now self.entry.g.now self.entry.d.now) listed.old }
    {
        let mut at = START;
        let mut grown_count = 0;
        let mut listed_count = 0;
        // Stays: a step moves three places at once, as a merge of three lists does.
        while at.p + at.g + at.d < self.p.len() + self.g.len() + self.d.len() {
            let taken = self.step(at);
            grown_count = put(grown, grown_count, taken.entry, taken.grown);
            listed_count = put(listed, listed_count, taken.entry, taken.listed);
            at = taken.next;
        }
    }
}
