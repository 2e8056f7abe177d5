// A call cut at every k and powered up, where the power-up is cut at every k too and made again.
ghost use Rattle.std.specs.Prelude.{◌≤◌, ◌≡◌, length};

use bench::calls::Call;
use bench::tell::{Hex, Told};
use layout::TAGS;
use protocol::{Answer, Refusal};
use recovery::power_up;
use std::alloc::{AllocError, Global};
use std::fmt;
use volatile::Record;

// The most bytes of an image that `cases` lends: `tell_in_arrays` makes copies of one in arrays of that size.
pub const ROOM: usize = 36000;

// More than any call stores.
const ENOUGH: usize = 99999;

// What the recovery state came out as: as before the call, as after it, or as neither.
#[derive(Clone, Copy, Debug, PartialEq, Eq)]
enum Outcome {
    Before,
    After,
    Neither,
}

// How often it came out as each.
#[derive(Clone, Copy, Debug, Default, PartialEq, Eq)]
struct Tally {
    before: usize,
    after: usize,
    neither: usize,
}

impl Tally {
    fn count(&mut self, outcome: Outcome) {
        let count = match outcome {
            Outcome::Before => &mut self.before,
            Outcome::After => &mut self.after,
            Outcome::Neither => &mut self.neither,
        };
        *count = count.saturating_add(1);
    }
}

impl fmt::Display for Tally {
    fn fmt<W: fmt::Write>(&self, f: &mut fmt::Formatter<W>) -> fmt::Result {
        write!(
            f,
            "before {}, after {}, neither {}",
            self.before, self.after, self.neither
        )
    }
}

fn was_cut(answer: Result<Answer, Refusal>) -> bool {
    answer.is_ok_and(|answer| answer.cut)
}

fn was_done(answer: Result<Answer, Refusal>) -> bool {
    answer.is_ok_and(|answer| !answer.cut)
}

// Power-up cut at k and, if it was, made again; whether the first was cut.
fn power_up_twice(image: &mut [u8], k: usize) -> bool {
    let cut = was_cut(power_up(image, k).answer);
    if cut {
        power_up(image, ENOUGH);
    }
    cut
}

// Whether the current bank is the recovery bank: B x S bytes each, past the header and B tags.
fn banks_agree(image: &[u8]) -> bool {
    let [_, _, _, _, _, power @ 0..=6, low, high, ..] = image else {
        return false;
    };
    let blocks = usize::from(u16::from_le_bytes([*low, *high]));
    let Some(banks) = image.get(TAGS + blocks..) else {
        return false;
    };
    let Some((current, rest)) = banks.split_at_checked(blocks << *power) else {
        return false;
    };
    rest.starts_with(current)
}

// Whether the image has the recovery state of the other, nothing is left to recover, and its banks agree.
fn recovered(image: &mut [u8], other: &[u8]) -> bool {
    was_done(power_up(image, 0).answer)
        && banks_agree(image)
        && inspect::same(image, other) == Ok(true)
}

// A call of a record on an image; the image before it, and the one after it, uncut and powered up.
#[derive(Clone, Copy)]
pub struct Cuts<'a> {
    pub call: Call,
    pub state: Record,
    pub before: &'a [u8],
    pub after: &'a [u8],
}

impl Cuts<'_> {
    // Tells the call cut at 0, 1, .. until it is not cut; with `shown`, the images that it leaves too. Where there is
    // no memory for two copies of the image, nothing is told.
    pub fn tell(&self, rt: &impl Print, alloc: Global, shown: bool) -> Result<(), AllocError> {
        let mut left = self.before.to_vec(alloc)?;
        let mut image = self.before.to_vec(alloc)?;
        for k in 0..1000 {
            if !self.tell_cut(rt, k, shown, &mut left, &mut image) {
                break;
            }
        }
        Ok(())
    }

    // The same of an image of at most `ROOM` bytes, whose copies are made in arrays: it asks for no memory.
    pub fn tell_in_arrays(&self, rt: &impl Print, shown: bool)
        requires { length self.now.before.now ≤ 36000 }
    {
        let n = self.before.len();
        let mut left = [0; ROOM];
        let mut image = [0; ROOM];
        for k in 0..1000 {
            if !self.tell_cut(rt, k, shown, &mut left[..n], &mut image[..n]) {
                break;
            }
        }
    }

    // Tells the call cut at k, made on a copy in `left`, and its power-ups; whether it was cut.
    fn tell_cut(
        &self,
        rt: &impl Print,
        k: usize,
        shown: bool,
        left: &mut [u8],
        image: &mut [u8],
    ) -> bool
        requires { (length left.old ≡ length self.now.before.now) × (length left.old ≡ length image.old) }
    {
        left.copy_from_slice(self.before);
        let answer = self.call.make(left, self.state, k, &mut []).answer;
        let tally = self.every_power_up(left, image);
        let told = Told(answer);
        let _ = print!(rt; " : {told}, powered up: {tally}");
        if shown {
            let left = Hex(left);
            let _ = print!(rt; ", image {left}");
        }
        let _ = rt.write_all(b"\n");
        was_cut(answer)
    }

    // Power-ups of what the cut call left, cut at 0, 1, .. until one is done or refused, each of a copy in `image`.
    fn every_power_up(&self, left: &[u8], image: &mut [u8]) -> Tally
        requires { length left.now ≡ length image.old }
    {
        let mut tally = Tally::default();
        for k in 0..1000 {
            image.copy_from_slice(left);
            let cut = power_up_twice(image, k);
            tally.count(self.outcome(image));
            if !cut {
                break;
            }
        }
        tally
    }

    fn outcome(&self, image: &mut [u8]) -> Outcome {
        if recovered(image, self.before) {
            Outcome::Before
        } else if recovered(image, self.after) {
            Outcome::After
        } else {
            Outcome::Neither
        }
    }
}

// The call of a record on an image, uncut and powered up.
pub fn make_whole(call: Call, image: &mut [u8], state: Record) {
    call.make(image, state, ENOUGH, &mut []);
    power_up(image, ENOUGH);
}

#[cfg(test)]
mod tests {
    use super::*;
    use protocol::{Requester, Shape};
    use std::cell::RefCell;
    use std::fmt::Display;
    use std::io;
    use std::test::Fail;

    // Keeps what is printed.
    #[derive(Drop)]
    struct Kept {
        text: RefCell<String>,
    }

    impl Print for Kept {
        fn print<D: Display + Drop>(&self, value: D) -> io::Result<()> {
            if let Ok(mut text) = self.text.try_borrow_mut() {
                let _ = write!(text, "{value}");
            }
            Ok(())
        }

        fn println<D: Display + Drop>(&self, value: D) -> io::Result<()> {
            self.print(value)?;
            self.print("\n")
        }

        fn write_all(&self, bytes: &[u8]) -> io::Result<()> {
            self.print(str::from_utf8(bytes).unwrap_or("?"))
        }
    }

    const SHAPE: Shape = Shape {
        boards: 2,
        size: 1,
        blocks: 2,
        context: 1,
    };

    // A write by board 0 of the byte 7 into cell 0 stores the block's tag and the byte; a power-up the byte again, and
    // that the block has no tag. The tags are bytes 12 and 13, the current bank 14 and 15.
    #[test]
    fn tells_a_write(rt: HostRuntime) -> Result<(), Fail> {
        let mut image = [0; 22];
        let format = Call::Format {
            shape: SHAPE,
            length: 22,
        };
        let state = format.make(&mut image, Record::off(), ENOUGH, &mut []).next;
        let call = Call::Write {
            by: Requester::Board(0),
            cell: 0,
            n: 1,
            first: 7,
        };
        let mut after = image;
        make_whole(call, &mut after, state);
        let cuts = Cuts {
            call,
            state,
            before: &image,
            after: &after,
        };
        let kept = Kept {
            text: RefCell::new(String::new(rt.alloc())),
        };
        cuts.tell(&kept, rt.alloc(), true)?;
        let told = kept.text.into_inner();
        assert_eq!(rt;
            told.as_str(),
            " : 9 0 0000 0, powered up: before 1, after 0, neither 0, image \
             52534d31020002000100000000000000000000000000\n\
             \x20: 9 0 0000 1, powered up: before 3, after 0, neither 0, image \
             52534d31020002000100000001000000000000000000\n\
             \x20: 0 0 0000 2, powered up: before 3, after 0, neither 0, image \
             52534d31020002000100000001000700000000000000\n"
        );
        Ok(())
    }

    // More bytes than any shape has, all 0: every power-up is refused, so nothing is recovered.
    #[test]
    fn tells_of_any_length(rt: HostRuntime) -> Result<(), Fail> {
        let image = [0; 36001];
        let cuts = Cuts {
            call: Call::PowerUp,
            state: Record::off(),
            before: &image,
            after: &image,
        };
        let kept = Kept {
            text: RefCell::new(String::new(rt.alloc())),
        };
        cuts.tell(&kept, rt.alloc(), false)?;
        let told = kept.text.into_inner();
        assert_eq!(rt;
            told.as_str(),
            " : 11 0 0000 0, powered up: before 0, after 0, neither 1\n"
        );
        Ok(())
    }
}
