#![tactic(auto)]
// The one function that stores a byte of the image, and the leaves that store runs of bytes with it.
pub mod answers;

ghost use Rattle.std.specs.Prelude.{◌≡◌, [], ◌∷◌, ◌+◌, ◌≤◌, ◌<◌, length, drop, ◌⊎◌};
ghost use Rattle.store.specs.Budget.{Makes, one, start};
ghost use Rattle.store.specs.Runs.{put_stores, copy_stores, shifted};

// How many stores are left, and whether one was refused for want of them.
#[derive(Clone, Copy)]
pub struct Budget {
    pub left: usize,
    pub cut: bool,
}

impl Budget {
    // A call's budget of k stores as it begins.
    pub fn new(k: usize) -> Budget
        ensures { result ≡ start k }
    {
        Budget {
            left: k,
            cut: false,
        }
    }
}

// Stores a byte, if the budget allows one more store.
pub fn store(image: &mut [u8], at: usize, byte: u8, k: Budget) -> Budget
    requires { at < length image.old }
    ensures { Makes (one at byte ∷ []) k image.old result image.new }
{
    let left = k.left;
    if left == 0 {
        return Budget { left: 0, cut: true };
    }
    image[at] = byte;
    Budget {
        left: left - 1,
        cut: k.cut,
    }
}

// Copies `count` bytes from one offset to another; the two runs do not overlap.
pub fn copy(part: &mut [u8], from: usize, to: usize, count: usize, k: Budget) -> Budget
    requires within { (from + count ≤ length part.old) × (to + count ≤ length part.old) }
    requires apart { (from + count ≤ to) ⊎ (to + count ≤ from) }
    ensures { Makes (copy_stores part.old from to count) k
        part.old result part.new }
{
    let mut b = k;
    for x in 0..count {
        let byte = part[from + x];
        b = store(part, to + x, byte, b);
    }
    b
}

// The same in the part of the image from `base` on.
pub fn copy_at(
    image: &mut [u8],
    base: usize,
    from: usize,
    to: usize,
    count: usize,
    k: Budget,
) -> Budget
    requires within { (base + from + count ≤ length image.old) × (base + to + count ≤ length image.old) }
    requires apart { (from + count ≤ to) ⊎ (to + count ≤ from) }
    ensures { Makes (shifted base (copy_stores (drop base image.old) from to count)) k
        image.old result image.new }
{
    copy(&mut image[base..], from, to, count, k)
}

// Stores all the bytes, ascending from `at` on.
pub fn put_all(image: &mut [u8], at: usize, bytes: &[u8], k: Budget) -> Budget
    requires { at + length bytes.now ≤ length image.old }
    ensures { Makes (put_stores at bytes.now) k image.old result image.new }
{
    let mut b = k;
    for (x, byte) in bytes.iter().enumerate() {
        b = store(image, at + x, *byte, b);
    }
    b
}
