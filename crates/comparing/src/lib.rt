// Rows of numbers to try: filled, cut and compared.
#![tactic(auto)]

ghost use Rattle.std.specs.Prelude.{◌≡◌, ◌==◌, ◌+◌, ◌*◌, ◌^◌, ◌<◌, ◌≤◌, not, length, take, replicate, count_by, zip};
ghost use Rattle.comparing.specs.Spread.{spread};
ghost use Rattle.comparing.specs.Differing.{differing};

// Fills a room with numbers, each so much more than the one before. Only other crates call this.
pub fn spread(room: &mut [u32], first: u32, gap: u32)
    requires { first + gap * length room.old < 2 ^ 32 }
    ensures { room.new ≡ spread first gap (length room.old) }
{
    let mut next = first;
    for place in room.iter_mut() {
        *place = next;
        next += gap;
    }
}

// At how many of the places that both rows have they differ.
fn unlike(a: &[u32], b: &[u32]) -> usize
    ensures value { result ≡ count_by (λ both. not (both.0 == both.1)) (zip a.now b.now) }
    ensures upper_bound { result ≤ length a.now }
{
    let mut count = 0;
    for (x, y) in a.iter().zip(b) {
        count += usize::from(*x != *y);
    }
    count
}

// At how many places two rows differ; a place that one of them lacks differs too. Only other crates call this.
pub fn differing(a: &[u32], b: &[u32]) -> usize
    ensures { result ≡ differing a.now b.now }
{
    unlike(a, b) + a.len().abs_diff(b.len())
}

// How many places of a room that was full of one value hold another. Only other crates call this.
pub fn changed<T: Copy + PartialEq>(room: &[T], before: T) -> usize
    ensures { result ≡ count_by (λ x. not (T.eq x before)) room.now }
{
    let mut count = 0;
    for x in room {
        count += usize::from(*x != before);
    }
    count
}

// Of numbers and of bytes, these are the places where the room differs from one that is full of that value.
fn changed_agrees(numbers: &[u32], number: u32, bytes: &[u8], byte: u8) -> (usize, usize)
    ensures of_numbers { result.0 ≡ differing numbers.now (replicate (length numbers.now) number) }
    ensures of_bytes { result.1 ≡ differing bytes.now (replicate (length bytes.now) byte) }
{
    (changed(numbers, number), changed(bytes, byte))
}

// The first so many of a row, or all where it has fewer. Only other crates call this.
pub fn first<T>(row: &[T], count: u32) -> &[T]
    ensures { result.now ≡ take count row.now }
{
    &row[..row.len().min(count as usize)]
}
