#![tactic(auto)]
// Power-up: a decided commit is completed, then every block still tagged is rolled back.
ghost use Rattle.std.specs.Prelude.{◌≡◌, true, ◌≤◌, length};
ghost use Rattle.protocol.specs.Image.{allowed, total, view, shape_of};
ghost use Rattle.protocol.specs.Calls.{PowerUp, first, power_tests, bad_tags, bad_decision, completed_first};
ghost use Rattle.volatile.specs.declared.Record.{Record as State};
ghost use Rattle.layout.specs.Headers.{tags_at};
ghost use Rattle.store.specs.Budget.{WellBudget};
ghost use Rattle.store.specs.Puts.{Puts};
ghost use Rattle.store.specs.Promise.{Performed};
ghost use Rattle.entry.specs.Tested.{Tested};
ghost use Rattle.recovery.specs.Recoverable.{Recoverable, Decides};

use blocks::{Copying, complete, copy_blocks};
use boards::sets::beyond;
use layout::{DECISION, GROUP_HIGH, GROUP_LOW, TAGS, read_header};
use protocol::{Refusal, Reply, Shape};
use store::Budget;
use store::answers::{finish, refusal};
use volatile::Record;

// The group of a decided commit, low byte first; none if byte 9 is not 1.
fn read_decision(image: &[u8]) -> Option<u16>
    requires { tags_at ≤ length image.now }
    ensures { Decides image.now result }
{
    if image[DECISION] != 1 {
        return None;
    }
    Some(u16::from_le_bytes([image[GROUP_LOW], image[GROUP_HIGH]]))
}

// Whether a tag is above P.
fn bad_tags(image: &[u8], s: Shape) -> bool
    requires { (allowed s ≡ true) × (length image.now ≡ total s) }
    ensures { result ≡ bad_tags s (view s image.now) }
{
    let tags = &image[TAGS..TAGS + s.blocks];
    tags.iter().any(|tag| *tag as usize > s.boards)
}

// Whether a commit is decided for a group that is empty or has a board at or above P.
fn bad_decision(image: &[u8], s: Shape) -> bool
    requires { (allowed s ≡ true) × (length image.now ≡ total s) }
    ensures { result ≡ bad_decision s (view s image.now) }
{
    let Some(g) = read_decision(image) else {
        return false;
    };
    g == 0 || beyond(s.boards as u8, g)
}

// The tests of a power-up, each of which refuses with 11.
fn power_entry(image: &[u8]) -> Result<Shape, Refusal>
    ensures { Tested (first (power_tests image.now (shape_of image.now)
        (view (shape_of image.now) image.now)))
        (Recoverable image.now) result }
{
    let s = read_header(image, 1)?;
    if bad_tags(image, s) {
        return Err(Refusal::Disordered);
    }
    if bad_decision(image, s) {
        return Err(Refusal::Disordered);
    }
    Ok(s)
}

// A decided commit is completed.
fn complete_first(image: &mut [u8], s: Shape, k: Budget) -> Budget
    requires { (allowed s ≡ true) × (length image.old ≡ total s) × WellBudget k }
    ensures { Puts s (completed_first s (view s image.old)) k
        image.old result image.new }
{
    let Some(g) = read_decision(image) else {
        return k;
    };
    complete(image, s, g, k)
}

// A power-up takes no record: whatever the record was, the answer is the same.
pub fn power_up(image: &mut [u8], k: usize) -> Reply
    ensures { (state : State) → Performed PowerUp k image.old state result image.new }
{
    let s = match power_entry(image) {
        Ok(s) => s,
        Err(why) => {
            let none = Record::off();
            return refusal(why, none);
        }
    };
    let whole = Budget::new(k);
    let first = complete_first(image, s, whole);
    let done = copy_blocks(image, s, 65535, Copying::Restore, first);
    let next = Record::fresh();
    finish(k, done, false, 0, next)
}
