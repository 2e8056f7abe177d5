#![tactic(auto)]
// Texts, numbers and bytes written into a lent buffer.
ghost use Rattle.std.specs.Prelude.{◌≡◌, [], ◌∷◌, ◌*◌, ◌≤◌, ◌<◌, length};
ghost use Rattle.text.specs.Rows.{digit_at, decimal, hexadecimal, byte_text, bytes_text, group_text};
ghost use Rattle.digits.specs.Append.{HasRoom, Writes};

// A lent buffer, and how much of it is written.
#[derive(Drop)]
pub struct Output<'a> {
    pub buffer: &'a mut [u8],
    pub end: usize,
}

impl Output<'_> {
    // One character.
    pub fn put(&mut self, c: u8)
        requires { HasRoom 1 self.old }
        ensures { Writes (c ∷ []) self.old self.new }
    {
        self.buffer[self.end] = c;
        self.end += 1;
    }

    // A text as it is.
    pub fn put_text(&mut self, text: &[u8])
        requires { HasRoom (length text.now) self.old }
        ensures { Writes text.now self.old self.new }
    {
        let end = self.end + text.len();
        self.buffer[self.end..end].copy_from_slice(text);
        self.end = end;
    }

    // A decimal digit, where the number is not smaller than its place.
    fn put_digit(&mut self, place: usize, n: usize)
        requires { HasRoom 1 self.old × (1 ≤ place) }
        ensures { Writes (digit_at place n) self.old self.new }
    {
        if n < place {
            return;
        }
        let digit = (n / place % 10) as u8;
        self.put(b'0' + digit);
    }

    // A number up to 99,999. Most have one digit.
    #[tactic(auto, using(crate::proofs::Laws::length_digit_at))]
    pub fn put_decimal(&mut self, n: usize)
        requires { HasRoom 5 self.old }
        ensures { Writes (decimal n) self.old self.new }
    {
        if n < 10 {
            let digit = n as u8;
            return self.put(b'0' + digit);
        }
        self.put_digit(10000, n);
        self.put_digit(1000, n);
        self.put_digit(100, n);
        self.put_digit(10, n);
        let last = (n % 10) as u8;
        self.put(b'0' + last);
    }

    // A byte: two hexadecimal digits.
    fn put_byte(&mut self, byte: u8)
        requires { HasRoom 2 self.old }
        ensures { Writes (byte_text byte) self.old self.new }
    {
        self.put(hexadecimal(byte / 16));
        self.put(hexadecimal(byte % 16));
    }

    // A group: four hexadecimal digits. Most are empty.
    pub fn put_group(&mut self, group: u16)
        requires { HasRoom 4 self.old }
        ensures { Writes (group_text group) self.old self.new }
    {
        if group == 0 {
            return self.put_text(b"0000");
        }
        let high = (group / 256) as u8;
        let low = (group % 256) as u8;
        self.put_byte(high);
        self.put_byte(low);
    }

    // Bytes: two hexadecimal digits each.
    pub fn put_bytes(&mut self, bytes: &[u8])
        requires { HasRoom (2 * length bytes.now) self.old }
        ensures { Writes (bytes_text bytes.now) self.old self.new }
    {
        let end = self.end + 2 * bytes.len();
        fill_digits(&mut self.buffer[self.end..end], bytes);
        self.end = end;
    }
}

// A buffer becomes the digits of bytes. A loop over the buffer alone: digit by digit behind an `Output` a read of 64
// bytes took twice the time.
fn fill_digits(out: &mut [u8], bytes: &[u8])
    requires { length out.old ≡ 2 * length bytes.now }
    ensures { out.new ≡ bytes_text bytes.now }
{
    for (x, byte) in bytes.iter().enumerate() {
        out[2 * x] = hexadecimal(*byte / 16);
        out[2 * x + 1] = hexadecimal(*byte % 16);
    }
}

// A hexadecimal digit, in capitals ('A' is 65).
fn hexadecimal(d: u8) -> u8
    requires { d < 16 }
    ensures { result ≡ hexadecimal d }
{
    if d < 10 {
        return b'0' + d;
    }
    55 + d
}
