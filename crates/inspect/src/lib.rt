#![tactic(auto)]
// The two calls that only look at images: a board's recovery context, and whether two images are the same.
ghost use Rattle.std.specs.Prelude.{◌≡◌, true, [], ◌+◌, ◌≤◌, length, MatchResult};
ghost use Rattle.protocol.specs.Image.{allowed, total, view};
ghost use Rattle.protocol.specs.Calls.{context_part, context_status};
ghost use Rattle.protocol.specs.Replies.{refusal_number};
ghost use Rattle.inspect.specs.Same.{same_shape, same_bytes, same_areas, compared_says, compare};

use layout::{checkpoint_at, read_header, recovery_at};
use protocol::{Refusal, Shape};

// A board's recovery context, as that part of the image itself, or the refusal.
pub fn recovery_context(image: &[u8], board: usize) -> Result<&[u8], Refusal>
    ensures { MatchResult result
        (λ part. (context_status image.now board ≡ 0) × (part.now ≡ context_part image.now board))
        (λ why. context_status image.now board ≡ refusal_number why) }
{
    let s = read_header(image, 0)?;
    if board >= s.boards {
        return Err(Refusal::NoSuchBoard);
    }
    let at = checkpoint_at(s) + board * s.context;
    let end = at + s.context;
    Ok(&image[at..end])
}

// The same with a number lent for the answer: `status` becomes 0 or the refusal, whose part is empty.
pub fn context<'a>(image: &'a [u8], board: usize, status: &mut u8) -> &'a [u8]
    ensures { (result.now ≡ context_part image.now board)
        × (status.new ≡ context_status image.now board) }
{
    match recovery_context(image, board) {
        Ok(part) => {
            *status = 0;
            part
        }
        Err(why) => {
            *status = why.number();
            &image[..0]
        }
    }
}

// Whether P, S, B and K agree.
fn same_shape(s: Shape, t: Shape) -> bool
    ensures { result ≡ same_shape s t }
{
    s == t
}

// Whether n bytes from an offset on are the same in both images.
fn same_bytes(image: &[u8], other: &[u8], at: usize, n: usize) -> bool
    requires { (at + n ≤ length image.now) × (at + n ≤ length other.now) }
    ensures { result ≡ same_bytes image.now other.now at n }
{
    image[at..at + n] == other[at..at + n]
}

// Whether the recovery bank and the recovery contexts of two images of one shape are the same.
fn same_areas(image: &[u8], other: &[u8], s: Shape) -> bool
    requires { (allowed s ≡ true) × (length image.now ≡ total s) × (length other.now ≡ total s) }
    ensures { result ≡ same_areas s (view s image.now) (view s other.now) }
{
    same_bytes(image, other, recovery_at(s), s.blocks * s.size)
        && same_bytes(image, other, checkpoint_at(s), s.boards * s.context)
}

// Whether two images agree in shape, recovery bank and recovery contexts; both are tested first.
pub fn same(image: &[u8], other: &[u8]) -> Result<bool, Refusal>
    ensures { compared_says result ≡ compare image.now other.now }
{
    let s = read_header(image, 0)?;
    let t = read_header(other, 0)?;
    Ok(same_shape(s, t) && same_areas(image, other, s))
}
