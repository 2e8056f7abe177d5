#![tactic(auto)]
// Forecasts: what a commit that a board starts next, or a fault of it made next, will answer and store (document 02,
// Req 02). Nothing is stored, and the record stays as it is.
ghost use Rattle.std.specs.Prelude.{◌≡◌, true, length};
ghost use Rattle.protocol.specs.Image.{allowed, total, view};
ghost use Rattle.costs.specs.Forecasts.{boards_of, tagged_blocks, blocks_cost, commit_cost};
ghost use Rattle.costs.specs.Forecasts.{forecast_says, commit_forecast, fault_forecast};

use blocks::next_tagged;
use boards::sets::{has, tagged_in};
use costs::Forecast;
use entry::enter;
use groups::{commit_closure, fault_closure};
use layout::TAGS;
use protocol::{Refusal, Shape};
use volatile::Record;

// How many boards a group has. Public, as is the next one: document 02's Req 05 counts the same.
pub fn member_count(s: Shape, g: u16) -> usize
    requires { allowed s ≡ true }
    ensures { result ≡ length (boards_of s g) }
{
    let mut n = 0;
    for i in 0..s.boards {
        n += usize::from(has(g, i as u8));
    }
    n
}

// How many blocks are tagged by a board of the group; those without a writer are passed over.
pub fn tagged_count(image: &[u8], s: Shape, g: u16) -> usize
    requires { (allowed s ≡ true) × (length image.now ≡ total s) }
    ensures { result ≡ length (tagged_blocks s (view s image.now) g) }
{
    let mut n = 0;
    let mut b = next_tagged(image, s, 0);
    while b < s.blocks {
        n += usize::from(tagged_in(g, image[TAGS + b]));
        b = next_tagged(image, s, b + 1);
    }
    n
}

// The stores that copy these blocks: S bytes and the tag of each.
fn blocks_cost(image: &[u8], s: Shape, g: u16) -> usize
    requires { (allowed s ≡ true) × (length image.now ≡ total s) }
    ensures { result ≡ blocks_cost s (view s image.now) g }
{
    tagged_count(image, s, g) * (s.size + 1)
}

// The stores of a whole commit: the contexts given; group and decision, the blocks, the contexts saved, byte 9 again.
fn commit_cost(image: &[u8], s: Shape, g: u16) -> usize
    requires { (allowed s ≡ true) × (length image.now ≡ total s) }
    ensures { result ≡ commit_cost s (view s image.now) g }
{
    let contexts = member_count(s, g) * s.context;
    let blocks = blocks_cost(image, s, g);
    contexts + (4 + blocks + contexts)
}

// Refused 11, 12, 1, 14: as a start with a context of K bytes.
pub fn commit_forecast(image: &[u8], state: Record, board: usize) -> Result<Forecast, Refusal>
    ensures { forecast_says result ≡ commit_forecast image.now state board }
{
    let s = enter(image, state, board)?;
    if state.engaged() != 0 {
        return Err(Refusal::CommitOpen);
    }
    let rows = state.rows;
    let group = commit_closure(rows, board as u8).members;
    let stores = commit_cost(image, s, group);
    Ok(Forecast { group, stores })
}

// Refused 11, 12, 1: as a fault.
pub fn fault_forecast(image: &[u8], state: Record, board: usize) -> Result<Forecast, Refusal>
    ensures { forecast_says result ≡ fault_forecast image.now state board }
{
    let s = enter(image, state, board)?;
    let rows = state.rows;
    let group = fault_closure(rows, board as u8).members;
    let stores = blocks_cost(image, s, group);
    Ok(Forecast { group, stores })
}
