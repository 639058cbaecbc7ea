// The mode sector: how many data bytes the drive's sectors have, as the copies of the format table in the XBN area say it.
#![tactic(auto)]

ghost use Rattle.std.specs.Prelude.{◌≡◌, ◌+◌, ◌*◌, ◌<◌, ◌≤◌, length};
ghost use Rattle.words.specs.Coded.{code_unit};
ghost use Rattle.mode.specs.Modes.{xbn_bytes, xbn_image, size_in, mode_of};
ghost use Rattle.mode.specs.Promises.{Finds};
ghost use Rattle.mode.specs.Steps.{IfSaid, headable};

use paper::{DATA_SIZE, HEADER_SIZE, IMAGE_EXTRA, Refusal};
use words::CODE_UNIT;

// Bytes of a sector image of the XBN area, whose sectors always have 512 data bytes.
const XBN_BYTES: usize = DATA_SIZE + IMAGE_EXTRA;

// The size that a whole image says under an XBN, if any. The word of code 0 and the XBN, which its header is to carry, is the XBN itself.
fn size_in(image: &[u8], xbn: u32) -> Option<u32>
    requires image_len { length image.now ≡ xbn_bytes }
    requires xbn_lt_code_unit { xbn < code_unit }
    ensures { IfSaid (size_in image.now xbn) result }
{
    let Ok(()) = image::check_contents(DATA_SIZE, image, xbn) else {
        return None;
    };
    let word = u32::from(words::word16_at(image, HEADER_SIZE));
    if paper::is_size(word) {
        return Some(word);
    }
    None
}

// The size that the sector image of an XBN says where it lies, if any.
fn size_at(images: &[u8], xbn: usize) -> Option<u32>
    requires xbn_bytes_in_bounds { (xbn + 1) * xbn_bytes ≤ length images.now }
    requires xbn_lt_code_unit { xbn < code_unit }
    ensures { IfSaid (size_in (xbn_image images.now xbn) xbn) result }
{
    let start = xbn * XBN_BYTES;
    size_in(&images[start..start + XBN_BYTES], xbn as u32)
}

// How many whole sector images there are, but no more than a header has numbers for.
fn headable(images: &[u8]) -> usize
    ensures { result ≡ headable images.now }
{
    (images.len() / XBN_BYTES).min(CODE_UNIT as usize)
}

// The size of the first copy that says one, if any does.
fn mode_of(images: &[u8], apart: u32) -> Option<u32>
    requires { 0 < apart }
    ensures { IfSaid (mode_of images.now apart) result }
{
    let most = headable(images);
    for xbn in (0..most).step_by(apart as usize) {
        if let Some(size) = size_at(images, xbn) {
            return Some(size);
        }
    }
    None
}

// The size of the drive's sectors, from the sector images of the XBN area, one after another from XBN 0 on, in which copies of the format table begin at XBN 0 and each so many sectors after the one before it. Checks 1, 21.
pub fn find(images: &[u8], apart: u32) -> Result<u32, Refusal>
    ensures { Finds images.now apart result }
{
    if apart == 0 {
        return Err(Refusal::OutOfRange);
    }
    mode_of(images, apart).ok_or(Refusal::NoMode)
}
