#![tactic(auto)]
// Where the areas of an image stand, and whether its header is in order (document 01, "The image"). Stores nothing.
ghost use Rattle.std.specs.Prelude.{◌≡◌, true, ◌/◌, ◌≤◌, eqb, length, get_or};
ghost use Rattle.boards.specs.Lists.{every};
ghost use Rattle.protocol.specs.Image.{Current, Recovery, Tentative, Checkpoint, mark, header, byte};
ghost use Rattle.protocol.specs.Image.{allowed, exponent, shape_of, base, total};
ghost use Rattle.layout.specs.Headers.{HeaderOf, decision_at};

use protocol::{Refusal, Shape};

// The mark, hexadecimal 52 53 4D 31: what every header test compares and formatting stores.
pub const MARK: [u8; 4] = *b"RSM1";

// The decision, 0 or 1: the first byte past mark and shape.
pub const DECISION: usize = 9;

// The deciding group's low byte.
pub const GROUP_LOW: usize = 10;

// Its high byte.
pub const GROUP_HIGH: usize = 11;

// Where the tags begin.
pub const TAGS: usize = 12;

// The power of two that a block size is; 7 for a number that is none of the seven.
#[tactic(auto, unfolding(protocol::specs::Image::exponent, protocol::specs::Image::exponent_from))]
pub fn exponent(size: usize) -> u8
    ensures { result ≡ exponent size }
{
    match size {
        1 => 0,
        2 => 1,
        4 => 2,
        8 => 3,
        16 => 4,
        32 => 5,
        64 => 6,
        _ => 7,
    }
}

// Whether a shape is within the limits. The factors are tested before they are multiplied.
pub fn allowed(s: Shape) -> bool
    ensures { result ≡ allowed s }
{
    if s.boards < 1 {
        return false;
    }
    if s.boards > 16 {
        return false;
    }
    let size = s.size;
    let power = exponent(size);
    if power > 6 {
        return false;
    }
    if s.blocks < 1 {
        return false;
    }
    if s.blocks > 1024 {
        return false;
    }
    if s.blocks * s.size > 16384 {
        return false;
    }
    s.context <= 64
}

// Whether the first four bytes are the mark.
fn mark_ok(image: &[u8]) -> bool
    requires { 4 ≤ length image.now }
    ensures { result ≡ every 4 (λ i. eqb (byte image.now i) (byte mark i)) }
{
    image.starts_with(&MARK)
}

// The shape that a header names.
#[tactic(auto, unfolding(protocol::specs::Image::shape_of))]
fn shape_of(image: &[u8]) -> Shape
    requires { (decision_at ≤ length image.now) × (byte image.now 5 ≤ 6) }
    ensures { result ≡ shape_of image.now }
{
    let power = image[5];
    Shape {
        boards: image[4] as usize,
        size: 1 << power,
        blocks: image[6] as usize + 256 * (image[7] as usize),
        context: image[8] as usize,
    }
}

// The block of a cell. S is 2 to the power that byte 5 holds, so a shift by that byte divides by S.
#[tactic(auto, unfolding(protocol::specs::Image::shape_of))]
pub fn block_of(image: &[u8], cell: usize) -> usize
    requires { (decision_at ≤ length image.now) × (byte image.now 5 ≤ 6) }
    ensures { result ≡ cell / (shape_of image.now).size }
{
    let power = image[5];
    cell >> power
}

// Where the current bank begins: past the header, the decision, its group and the tags.
pub fn current_at(s: Shape) -> usize
    requires { allowed s ≡ true }
    ensures { result ≡ base s Current }
{
    TAGS + s.blocks
}

// Each area begins where the one before it ends.
#[tactic(auto, using(crate::proofs::Laws::bounded), unfolding(protocol::specs::Image::base))]
pub fn recovery_at(s: Shape) -> usize
    requires { allowed s ≡ true }
    ensures { result ≡ base s Recovery }
{
    current_at(s) + s.blocks * s.size
}

#[tactic(auto, using(crate::proofs::Laws::bounded), unfolding(protocol::specs::Image::base))]
pub fn tentative_at(s: Shape) -> usize
    requires { allowed s ≡ true }
    ensures { result ≡ base s Tentative }
{
    recovery_at(s) + s.blocks * s.size
}

#[tactic(auto, using(crate::proofs::Laws::bounded), unfolding(protocol::specs::Image::base))]
pub fn checkpoint_at(s: Shape) -> usize
    requires { allowed s ≡ true }
    ensures { result ≡ base s Checkpoint }
{
    tentative_at(s) + s.boards * s.context
}

// The length of an image.
pub fn total(s: Shape) -> usize
    requires { allowed s ≡ true }
    ensures { result ≡ total s }
{
    checkpoint_at(s) + s.boards * s.context
}

// The shape that the header of an image names: the mark, an allowed shape, the exact length, byte 9 at most `most`; or
// the image is not in order.
pub fn read_header(image: &[u8], most: u8) -> Result<Shape, Refusal>
    ensures { HeaderOf most image.now result }
{
    if image.len() < TAGS {
        return Err(Refusal::Disordered);
    }
    if !mark_ok(image) {
        return Err(Refusal::Disordered);
    }
    if image[5] > 6 {
        return Err(Refusal::Disordered);
    }
    let s = shape_of(image);
    if !allowed(s) {
        return Err(Refusal::Disordered);
    }
    if image.len() != total(s) {
        return Err(Refusal::Disordered);
    }
    if image[DECISION] > most {
        return Err(Refusal::Disordered);
    }
    Ok(s)
}

// The byte that formatting stores at i of the header.
pub fn header_byte(s: Shape, i: usize) -> u8
    requires { allowed s ≡ true }
    ensures { result ≡ get_or (header s) i 0 }
{
    if i < 4 {
        return MARK[i];
    }
    let size = s.size;
    match i {
        4 => s.boards as u8,
        5 => exponent(size),
        6 => (s.blocks % 256) as u8,
        7 => (s.blocks / 256) as u8,
        8 => s.context as u8,
        _ => 0,
    }
}
