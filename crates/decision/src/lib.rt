#![tactic(auto)]
// The end of a start and of an acknowledgement: the context is stored and, when all members have acknowledged, the
// commit is decided and completed.
ghost use Rattle.std.specs.Prelude.{◌≡◌, true, [], ◌∷◌, ◌%◌, ◌/◌, ◌<◌, length};
ghost use Rattle.protocol.specs.Image.{allowed, total, view, put, Decision, Group};
ghost use Rattle.boards.specs.Rows.{Grouped};
ghost use Rattle.volatile.specs.Volatile.{commit_of, acknowledge};
ghost use Rattle.protocol.specs.Calls.{acknowledging};
ghost use Rattle.volatile.specs.declared.Record.{Record};
ghost use Rattle.store.specs.Puts.{Puts};
ghost use Rattle.decision.specs.Executed.{Executed};

use blocks::complete;
use boards::Closure;
use layout::{DECISION, GROUP_HIGH, GROUP_LOW, tentative_at};
use protocol::{Reply, Shape};
use store::answers::finish;
use store::{Budget, put_all, store};
use volatile::Record;

// Bytes 10 and 11, then byte 9 set to 1, which decides.
fn announce(image: &mut [u8], s: Shape, g: u16, k: Budget) -> Budget
    requires { (allowed s ≡ true) × (length image.old ≡ total s) }
    ensures { Puts s (put Group 0 (g % 256) ∷ put Group 1 (g / 256) ∷ put Decision 0 1 ∷ []) k
        image.old result image.new }
{
    let low = store(image, GROUP_LOW, (g % 256) as u8, k);
    let high = store(image, GROUP_HIGH, (g / 256) as u8, low);
    store(image, DECISION, 1, high)
}

// Board i has acknowledged, which gave the record r; the group is the members of i's commit, with r's rows when their
// rows and columns are emptied. The board's context is stored; if i was the last member, the commit is decided and
// completed, and the group is cleared from the record.
pub fn give(
    image: &mut [u8],
    s: Shape,
    r: Record,
    group: Closure,
    i: usize,
    context: &[u8],
    k: usize,
) -> Reply
    requires { (allowed s ≡ true) × (length image.old ≡ total s) × (i < s.boards)
        × (length context.now ≡ s.context) × Grouped r.rows (commit_of r i).members group }
    ensures { (before : Record) → r ≡ acknowledge before i →
        Executed s (acknowledging s (view s image.old) before i context.now) k
        image.old result image.new }
{
    let at = tentative_at(s) + i * s.context;
    let whole = Budget::new(k);
    let given = put_all(image, at, context, whole);
    let g = group.members;
    let open = r.commit_of(i as u8);
    if open.acknowledged != g {
        return finish(k, given, false, g, r);
    }
    let told = announce(image, s, g, given);
    let left = complete(image, s, g, told);
    let next = r.clear(group);
    finish(k, left, !told.cut, g, next)
}
