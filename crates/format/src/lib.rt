#![tactic(auto)]
// Formatting: the public call that makes an image of a shape. Every store is made by `store`.
ghost use Rattle.std.specs.Prelude.{◌≡◌, ℕ, true, ◌-◌, ◌<◌, ◌≤◌, length};
ghost use Rattle.protocol.specs.Image.{Store, allowed, total};
ghost use Rattle.protocol.specs.Calls.{formatting};
ghost use Rattle.store.specs.Budget.{Makes, one};
ghost use Rattle.store.specs.Promise.{Formatted};
ghost use Rattle.boards.specs.Lists.{span};

use layout::{DECISION, MARK, allowed, header_byte, total};
use protocol::{Refusal, Reply, Shape};
use store::answers::{finish, refusal};
use store::{Budget, store};
use volatile::Record;

// The bytes from `from` to the one before `to`, ascending: at each offset what `byte_at` answers.
fn fill<F: Fn(usize) -> u8>(
    image: &mut [u8],
    from: usize,
    to: usize,
    byte_at: F,
    k: Budget,
) -> Budget
    requires callable { F.IsAlwaysCallable byte_at }
    requires within { (from ≤ to) × (to ≤ length image.old) }
    ensures { (f : ℕ → Store) → ((i y : ℕ) → i < to → F.post byte_at i y → one i y ≡ f i)
        → Makes (span f from (to - from)) k image.old result image.new }
{
    let mut left = k;
    for i in from..to {
        left = store(image, i, byte_at(i), left);
    }
    left
}

// All stores of a format: byte 0 to 0, the others, then byte 0 to the mark's first byte.
fn lay_out(image: &mut [u8], s: Shape, k: Budget) -> Budget
    requires { (allowed s ≡ true) × (length image.old ≡ total s) }
    ensures { Makes (formatting s) k image.old result image.new }
{
    let unmarked = store(image, 0, 0, k);
    let named = fill(image, 1, DECISION, |i| header_byte(s, i), unmarked);
    let end = image.len();
    let filled = fill(image, DECISION, end, |_| 0, named);
    let first = MARK[0];
    store(image, 0, first, filled)
}

// Format: any bytes become an image of shape s, or the call is refused, or cut after k stores.
pub fn format(image: &mut [u8], state: Record, s: Shape, k: usize) -> Reply
    ensures { Formatted s image.old state k result image.new }
{
    let next = Record::fresh();
    if !allowed(s) {
        return refusal(Refusal::ShapeNotAllowed, state);
    }
    if image.len() != total(s) {
        return refusal(Refusal::WrongLength, state);
    }
    let whole = Budget::new(k);
    let left = lay_out(image, s, whole);
    finish(k, left, false, 0, next)
}
