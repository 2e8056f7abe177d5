#![tactic(auto)]
// The bytes of an event line, read.
ghost use Rattle.std.specs.Prelude.{◌≡◌, true, ◌*◌, ◌≤◌, length};
ghost use Rattle.protocol.specs.Calls.{filled};
ghost use Rattle.text.specs.Fields.{digit, pairs, decoded};
ghost use Rattle.hexadecimal.specs.Reading.{BytesRead};

// The value of a hexadecimal digit, 16 for any other character. As one `match` the digits of a line cost half as much
// again: it branches by each of them.
#[tactic(auto, unfolding(text::specs::Fields::digit))]
fn digit(c: u8) -> u8
    ensures { result ≡ digit c }
{
    if c.is_ascii_digit() {
        return c - b'0';
    }
    if matches!(c, b'A'..=b'F') {
        return c - b'A' + 10;
    }
    16
}

// Whether a field is pairs of hexadecimal digits.
fn pairs(s: &[u8]) -> bool
    ensures { result ≡ pairs s.now }
{
    let (pairs, rest) = s.as_chunks::<2>();
    rest.is_empty() && pairs.iter().all(|p| digit(p[0]) <= 15 && digit(p[1]) <= 15)
}

// The bytes that pairs of digits name, from the buffer's start on.
fn decode(s: &[u8], out: &mut [u8])
    requires { (pairs s.now ≡ true) × (length s.now ≤ 2 * length out.old) }
    ensures { out.new ≡ filled (decoded s.now) out.old }
{
    let (pairs, _) = s.as_chunks::<2>();
    for (i, p) in pairs.iter().enumerate() {
        out[i] = 16 * digit(p[0]) + digit(p[1]);
    }
}

// A field of pairs of hexadecimal digits becomes bytes at the buffer's start, so many; any other changes nothing.
pub fn read_bytes(s: &[u8], out: &mut [u8]) -> Option<usize>
    requires { length s.now ≤ 2 * length out.old }
    ensures { BytesRead s.now out.old result out.new }
{
    if !pairs(s) {
        return None;
    }
    decode(s, out);
    Some(s.len() / 2)
}
