#![tactic(auto)]
// The lines of a page, written into a lent buffer, and its totals.
ghost use Rattle.std.specs.Prelude.{◌≡◌, cond, ◌+◌, ◌%◌, ◌≤◌, eqb};
ghost use Rattle.digits.specs.Append.{HasRoom, Writes};
ghost use Rattle.page.specs.Columns.{blank, leading, padded, amounts_text, commit_line, total_line};
ghost use Rattle.page.specs.Page.{no_totals, full_status, added};
ghost use Rattle.sheet.specs.Sums.{Small, added_status};

use digits::Output;
use page::{Saved, Totals};
use protocol::Refusal;

// The commits that are printed at most.
pub const MOST_COMMITS: usize = 9999;

// Before the first commit.
pub fn no_totals() -> Totals
    ensures { (result ≡ no_totals) × Small result }
{
    Totals::default()
}

// A decided commit is counted and, if it is to be printed, summed; else refused, and counted all the same.
pub fn add(totals: &mut Totals, c: Saved) -> Result<(), Refusal>
    requires { Small totals.old × (totals.old.commits ≤ 9999) × (c.blocks ≤ 1024) × (c.bytes ≤ 17408) }
    ensures { (added_status result ≡ full_status totals.old) × (totals.new ≡ added totals.old c) × Small totals.new }
{
    totals.commits += 1;
    if totals.commits > MOST_COMMITS {
        return Err(Refusal::PageFull);
    }
    totals.blocks += c.blocks;
    totals.bytes += c.bytes;
    Ok(())
}

// The last digit of a number; a blank for 0.
fn digit_or_blank(n: usize) -> u8
    ensures { result ≡ cond (eqb n 0) blank (48 + n % 10) }
{
    if n == 0 {
        return b' ';
    }
    let digit = (n % 10) as u8;
    b'0' + digit
}

// The digits of a number, right-aligned with blanks in w characters; of 0 none.
#[tactic(auto, using(page::proofs::Columns::length_leading))]
fn put_leading(out: &mut Output, w: usize, n: usize)
    requires { HasRoom w out.old }
    ensures { Writes (leading w n) out.old out.new }
{
    if w == 0 {
        return;
    }
    put_leading(out, w - 1, n / 10);
    out.put(digit_or_blank(n));
}

// Likewise, and of 0 one.
#[tactic(auto, using(page::proofs::Columns::length_leading))]
fn put_padded(out: &mut Output, w: usize, n: usize)
    requires { (1 ≤ w) × HasRoom w out.old }
    ensures { Writes (padded w n) out.old out.new }
{
    put_leading(out, w - 1, n / 10);
    let digit = (n % 10) as u8;
    out.put(b'0' + digit);
}

// Blocks and bytes in their columns, a blank before each; the line feed.
#[tactic(auto, using(page::proofs::Columns::length_padded))]
fn put_amounts(out: &mut Output, blocks: usize, bytes: usize)
    requires { HasRoom 21 out.old }
    ensures { Writes (amounts_text blocks bytes) out.old out.new }
{
    out.put(b' ');
    put_padded(out, 8, blocks);
    out.put(b' ');
    put_padded(out, 10, bytes);
    out.put(b'\n');
}

// The line of the commit that has this count.
#[tactic(auto, using(page::proofs::Columns::length_padded, digits::proofs::Laws::length_group))]
pub fn put_commit(out: &mut Output, count: usize, c: Saved)
    requires { HasRoom 32 out.old }
    ensures { Writes (commit_line count c) out.old out.new }
{
    put_padded(out, 6, count);
    out.put(b' ');
    out.put_group(c.members);
    put_amounts(out, c.blocks, c.bytes);
}

// The last line: TOTAL and a blank in the count's place, four hyphens for members, the sums.
pub fn put_total(out: &mut Output, t: Totals)
    requires { HasRoom 32 out.old }
    ensures { Writes (total_line t.blocks t.bytes) out.old out.new }
{
    out.put_text(b"TOTAL  ----");
    put_amounts(out, t.blocks, t.bytes);
}
