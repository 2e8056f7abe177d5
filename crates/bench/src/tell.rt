// How answers, bytes, and what a call changed are told.
use protocol::{Answer, Refusal, status_of};
use std::fmt;
use volatile::Record;

// An answer: status, decided, group, stores.
#[derive(Clone, Copy)]
pub struct Told(pub Result<Answer, Refusal>);

impl fmt::Display for Told {
    fn fmt<W: fmt::Write>(&self, f: &mut fmt::Formatter<W>) -> fmt::Result {
        let status = status_of(self.0);
        let answer = self.0.unwrap_or_default();
        let decided = u8::from(answer.decided);
        write!(
            f,
            "{status} {decided} {:04x} {}",
            answer.group, answer.stores
        )
    }
}

// Bytes as pairs of hexadecimal digits.
#[derive(Clone, Copy)]
pub struct Hex<'a>(pub &'a [u8]);

impl fmt::Display for Hex<'_> {
    fn fmt<W: fmt::Write>(&self, f: &mut fmt::Formatter<W>) -> fmt::Result {
        for byte in self.0 {
            write!(f, "{byte:02x}")?;
        }
        Ok(())
    }
}

// Masks of boards, each as a blank and four hexadecimal digits.
#[derive(Clone, Copy)]
pub struct Masks<'a>(pub &'a [u16]);

impl fmt::Display for Masks<'_> {
    fn fmt<W: fmt::Write>(&self, f: &mut fmt::Formatter<W>) -> fmt::Result {
        for mask in self.0 {
            write!(f, " {mask:04x}")?;
        }
        Ok(())
    }
}

// What a buffer is filled with before a call.
pub const FILL: u8 = 238;

// A buffer after a read of n bytes: that it is as it was, or these bytes and whether all others are as they were.
#[derive(Clone, Copy)]
pub struct Buffer<'a> {
    pub bytes: &'a [u8],
    pub n: usize,
}

impl fmt::Display for Buffer<'_> {
    fn fmt<W: fmt::Write>(&self, f: &mut fmt::Formatter<W>) -> fmt::Result {
        if untouched(self.bytes) {
            return write!(f, "same");
        }
        let (read, rest) = self.bytes.split_at(self.n.min(self.bytes.len()));
        let read = Hex(read);
        let rest = same_or_changed(untouched(rest));
        write!(f, "{read} and the rest {rest}")
    }
}

fn untouched(bytes: &[u8]) -> bool {
    bytes.iter().all(|byte| *byte == FILL)
}

pub fn same_or_changed(same: bool) -> &'static str {
    if same { "same" } else { "changed" }
}

// What a call made of the record.
pub fn record_change(next: Record, before: Record) -> &'static str {
    if next == before {
        "same"
    } else if next.on {
        "changed"
    } else {
        "off"
    }
}
