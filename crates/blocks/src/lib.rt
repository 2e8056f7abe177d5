#![tactic(auto)]
// The loops that a commit, a fault and a power-up are made of. Every store is made by `store`.
ghost use Rattle.std.specs.Prelude.{◌≡◌, true, ◌⊎◌, ◌≢◌, ℕ, ◌+◌, ◌≤◌, ◌<◌, length, get_or};
ghost use Rattle.boards.specs.Lists.{for};
ghost use Rattle.protocol.specs.Image.{allowed, total, view};
ghost use Rattle.protocol.specs.Calls.{context_saved, completing};
ghost use Rattle.layout.specs.Headers.{tags_at};
ghost use Rattle.store.specs.Budget.{WellBudget};
ghost use Rattle.store.specs.Puts.{Puts};
ghost use Rattle.blocks.specs.Banks.{block_puts, blocks_puts};

use boards::sets::{has, tagged_in};
use layout::{DECISION, TAGS, current_at, tentative_at};
use protocol::Shape;
use store::{Budget, copy_at, store};

// Which way blocks are copied: to the recovery bank, which a save does, or back from it.
#[derive(Clone, Copy, Debug, PartialEq, Eq)]
pub enum Copying {
    Save,
    Restore,
}

// One block, if its tag names a member of g: its bytes from one bank to the other, then its tag 0.
// The part of the image from the block on is handed to the copier.
fn copy_block(image: &mut [u8], s: Shape, g: u16, how: Copying, b: usize, k: Budget) -> Budget
    requires { (allowed s ≡ true) × (length image.old ≡ total s) × (b < s.blocks) }
    ensures { Puts s (block_puts s (view s image.old) g how b) k
        image.old result image.new }
{
    let tag = image[TAGS + b];
    if !tagged_in(g, tag) {
        return k;
    }
    let size = s.size;
    let cells = s.blocks * size;
    let at = current_at(s) + b * size;
    let (from, to) = match how {
        Copying::Save => (0, cells),
        Copying::Restore => (cells, 0),
    };
    let copied = copy_at(image, at, from, to, size, k);
    store(image, TAGS + b, 0, copied)
}

// Whether eight tags are all 0.
fn eight_zeros(tags: &[u8; 8]) -> bool
    ensures { result ≡ true → (x : ℕ) → x < 8 → get_or tags.now x 0 ≡ 0 }
{
    let low = tags[0] | tags[1] | tags[2] | tags[3];
    let high = tags[4] | tags[5] | tags[6] | tags[7];
    low | high == 0
}

// Passes over blocks without a writer from b on, eight at a time.
fn past_eights(image: &[u8], s: Shape, b: usize) -> usize
    requires { (allowed s ≡ true) × (length image.now ≡ total s) × (b ≤ s.blocks) }
    ensures { (b ≤ result) × (result ≤ s.blocks)
        × ((j : ℕ) → b ≤ j → j < result → get_or image.now (tags_at + j) 0 ≡ 0) }
{
    let (eights, _) = image[TAGS + b..TAGS + s.blocks].as_chunks::<8>();
    for (i, tags) in eights.iter().enumerate() {
        if !eight_zeros(tags) {
            return b + 8 * i;
        }
    }
    b + 8 * eights.len()
}

// The first block from b on that has an active writer, or B.
pub fn next_tagged(image: &[u8], s: Shape, b: usize) -> usize
    requires { (allowed s ≡ true) × (length image.now ≡ total s) × (b ≤ s.blocks) }
    ensures { (b ≤ result) × (result ≤ s.blocks)
        × ((j : ℕ) → b ≤ j → j < result → get_or image.now (tags_at + j) 0 ≡ 0)
        × ((result ≡ s.blocks) ⊎ (get_or image.now (tags_at + result) 0 ≢ 0)) }
{
    for i in past_eights(image, s, b)..s.blocks {
        if image[TAGS + i] != 0 {
            return i;
        }
    }
    s.blocks
}

// All blocks, ascending; those without a writer are passed over.
pub fn copy_blocks(image: &mut [u8], s: Shape, g: u16, how: Copying, k: Budget) -> Budget
    requires { (allowed s ≡ true) × (length image.old ≡ total s) × WellBudget k }
    ensures { Puts s (blocks_puts s (view s image.old) g how) k
        image.old result image.new }
{
    let mut left = k;
    let mut b = next_tagged(image, s, 0);
    while b < s.blocks {
        left = copy_block(image, s, g, how, b, left);
        b = next_tagged(image, s, b + 1);
    }
    left
}

// A member's tentative context to recovery.
fn copy_context(image: &mut [u8], s: Shape, g: u16, i: usize, k: Budget) -> Budget
    requires { (allowed s ≡ true) × (length image.old ≡ total s) × (i < s.boards) }
    ensures { Puts s (context_saved s (view s image.old) g i) k
        image.old result image.new }
{
    if !has(g, i as u8) {
        return k;
    }
    let size = s.context;
    let all = s.boards * size;
    let at = tentative_at(s) + i * size;
    copy_at(image, at, 0, all, size, k)
}

// Every member's, boards ascending.
pub fn copy_contexts(image: &mut [u8], s: Shape, g: u16, k: Budget) -> Budget
    requires { (allowed s ≡ true) × (length image.old ≡ total s) × WellBudget k }
    ensures { Puts s (for s.boards (context_saved s (view s image.old) g)) k
        image.old result image.new }
{
    let mut left = k;
    for i in 0..s.boards {
        left = copy_context(image, s, g, i, left);
    }
    left
}

// All that follows the deciding store: blocks, contexts, byte 9 set to 0.
pub fn complete(image: &mut [u8], s: Shape, g: u16, k: Budget) -> Budget
    requires { (allowed s ≡ true) × (length image.old ≡ total s) × WellBudget k }
    ensures { Puts s (completing s (view s image.old) g) k
        image.old result image.new }
{
    let saved = copy_blocks(image, s, g, Copying::Save, k);
    let kept = copy_contexts(image, s, g, saved);
    store(image, DECISION, 0, kept)
}
