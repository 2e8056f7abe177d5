#![tactic(auto)]
// What a task plays and prints when no text comes any more.
ghost use Rattle.std.specs.Prelude.{◌≡◌, ◌≤◌, length, take};
ghost use Rattle.text.specs.Whole.{lines, output_by};
ghost use Rattle.pieces.specs.Pieces.{Unbroken};
ghost use Rattle.pieces.specs.Answers.{Over};
ghost use Rattle.reports.specs.Reports.{reporting};
ghost use Rattle.reports.specs.Tasks.{state_of, Fits};
ghost use Rattle.rest.specs.Rest.{LastStepped, Last};

use reports::{Stepped, Task, close, step};
use std::io;

// At the input's end what is kept is a line, unless it is empty.
fn last_step(rest: &[u8], area: &mut [u8], task: Task, out: &mut [u8]) -> Stepped
    requires { (Unbroken rest.now) × Fits task × (35852 ≤ length area.old) × (320 ≤ length out.old) }
    ensures { LastStepped (state_of task area.old) rest.now result
        area.new out.new }
{
    if rest.len() == 0 {
        return Stepped { task, written: 0 };
    }
    if !task.goes_on() {
        return Stepped { task, written: 0 };
    }
    let mut buffer = [0u8; 80];
    step(rest, area, task, out, 0, &mut buffer)
}

// How much output the last line gave, with what is printed behind it.
fn play_last(rest: &[u8], area: &mut [u8], task: Task, out: &mut [u8]) -> usize
    requires { (Unbroken rest.now) × Fits task × (35852 ≤ length area.old) × (400 ≤ length out.old) }
    ensures { (result ≤ length out.new) × (output_by reporting (state_of task area.old)
        (lines rest.now) ≡ take result out.new) }
{
    let stepped = last_step(rest, area, task, out);
    let last = stepped.task;
    close(last, area, out, stepped.written)
}

// How much output is left when no text comes any more: that of the last line and what is printed behind it, and none
// after a read that failed.
#[tactic(auto, unfolding(crate::specs::Rest::still_due))]
pub fn play_rest(
    got: io::Result<Option<usize>>,
    rest: &[u8],
    area: &mut [u8],
    task: Task,
    out: &mut [u8],
) -> usize
    requires { (Over got rest.now) × Fits task × (35852 ≤ length area.old) × (400 ≤ length out.old) }
    ensures { Last got (state_of task area.old) rest.now result out.new }
{
    match got {
        Ok(Some(_)) => 0,
        Ok(None) => play_last(rest, area, task, out),
        Err(_) => 0,
    }
}
