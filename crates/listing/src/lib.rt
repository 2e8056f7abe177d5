#![tactic(auto)]
// The order of the boards' components, written into a lent buffer.
ghost use Rattle.std.specs.Prelude.{◌*◌, length};
ghost use Rattle.digits.specs.Append.{HasRoom, Writes};
ghost use Rattle.listing.specs.Listing.{component_lines, order_text};

use digits::Output;
use order::order;
use volatile::Record;

// A line for each mask.
#[tactic(auto, using(digits::proofs::Laws::length_group, crate::proofs::Lines::length_lines))]
fn put_lines(out: &mut Output, masks: &[u16])
    requires { HasRoom (5 * length masks.now) out.old }
    ensures { Writes (component_lines masks.now) out.old out.new }
{
    for component in masks {
        out.put_group(*component);
        out.put(b'\n');
    }
}

// The order: a line for each component, or the refusal's number.
#[tactic(auto, using(digits::proofs::Laws::length_decimal))]
pub fn put_order(image: &[u8], state: Record, out: &mut Output)
    requires { HasRoom 80 out.old }
    ensures { Writes (order_text image.now state) out.old out.new }
{
    let mut masks = [0u16; 16];
    match order(image, state, &mut masks) {
        Ok(count) => put_lines(out, &masks[..count]),
        Err(why) => {
            out.put_decimal(why.number() as usize);
            out.put(b'\n');
        }
    }
}
