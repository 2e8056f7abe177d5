#![tactic(auto)]
// What a program prints of the lines that it plays: their rows, as `rsmrun` does, a page, as `rsmpage` does, or, after
// the last line, the boards' order, as `rsmorder` does. A line is played in one way, whatever is printed of it.
ghost use Rattle.std.specs.Prelude.{◌≡◌, List, ℕ, ◌+◌, ◌≤◌, length};
ghost use Rattle.digits.specs.Append.{Appends, HasRoom, Writes};
ghost use Rattle.text.specs.Events.{counted, meant, taken};
ghost use Rattle.text.specs.Whole.{start};
ghost use Rattle.page.specs.Page.{first_page};
ghost use Rattle.sheet.specs.Sums.{Small};
ghost use Rattle.turns.specs.Turned.{player_of};
ghost use Rattle.reports.specs.Reports.{RowsState, PageState, OrderState, goes, report_close};
ghost use Rattle.reports.specs.Tasks.{by_report, state_of, SmallReport, Fits, Able, SteppedOn};
ghost use Rattle.reports.specs.Tasks.{ToBeDecided, AmountsFit, DecidedPrinted, CanPrint, Printed};

use digits::Output;
use events::take_apart;
use listing::put_order;
use page::{Saved, Totals};
use printing::put_rows;
use protocol::Refusal;
use runner::{MOST_LINES, Played, Run, play_event};
use saving::decided_by;
use sheet::{MOST_COMMITS, add, no_totals, put_commit, put_total};
use text::Event;
use turns::Session;

// The rows of each line, a line of the page for each decided commit, or the order alone.
#[derive(Clone, Copy)]
pub enum Report {
    Rows,
    Page(Totals),
    Order,
}

// A run, and what is printed of it.
#[derive(Clone, Copy)]
pub struct Task {
    pub run: Run,
    pub report: Report,
}

// The task after a line, and where its text ends in the output.
#[derive(Clone, Copy)]
pub struct Stepped {
    pub task: Task,
    pub written: usize,
}

impl Task {
    // Before the first line.
    fn new(report: Report) -> Task
        requires { SmallReport report }
        ensures { Fits result × ((area : List ℕ) → state_of result area ≡ by_report report start) }
    {
        let run = Run::new();
        Task { run, report }
    }

    // `rsmrun` before its first line.
    pub fn rows() -> Task
        ensures { Fits result × ((area : List ℕ) → state_of result area ≡ RowsState start) }
    {
        Task::new(Report::Rows)
    }

    // `rsmpage` before its first line.
    pub fn page() -> Task
        ensures { Fits result × ((area : List ℕ) → state_of result area ≡ PageState first_page) }
    {
        Task::new(Report::Page(no_totals()))
    }

    // `rsmorder` before its first line.
    pub fn order() -> Task
        ensures { Fits result × ((area : List ℕ) → state_of result area ≡ OrderState start) }
    {
        Task::new(Report::Order)
    }

    // Whether a next line is played.
    pub fn goes_on(self) -> bool
        ensures { (area : List ℕ) → result ≡ goes (state_of self area) }
    {
        if self.run.played >= MOST_LINES {
            return false;
        }
        let report = self.report;
        match report {
            Report::Rows => true,
            Report::Page(totals) => totals.commits <= MOST_COMMITS,
            Report::Order => true,
        }
    }
}

// Before a line is played: the commit that it will decide, if a page is printed.
fn to_be_decided(
    report: Report,
    area: &[u8],
    session: Session,
    line: Result<Event, Refusal>,
    buffer: &[u8],
) -> Option<Saved>
    requires { (session.length ≤ length area.now) × (counted line ≤ length buffer.now) }
    ensures { ToBeDecided report (player_of session area.now)
        (meant line buffer.now) result }
{
    match report {
        Report::Rows => None,
        Report::Page(_) => {
            decided_by(
                &area[..session.length],
                session.state,
                session.k,
                line,
                buffer,
            )
        }
        Report::Order => None,
    }
}

// The commit that a line decided, if it did, is counted, and printed unless that is answered 18.
fn print_decided(t: Totals, d: Option<Saved>, out: &mut Output) -> Totals
    requires { Small t × (t.commits ≤ 9999) × AmountsFit d × HasRoom 320 out.old }
    ensures { DecidedPrinted t d result out.old out.new }
{
    let Some(c) = d else {
        return t;
    };
    let mut totals = t;
    if add(&mut totals, c).is_err() {
        return totals;
    }
    put_commit(out, totals.commits, c);
    totals
}

// Prints what is to be printed of a line that was played, and hands back what is to be printed of the next.
fn print(
    report: Report,
    played: Played,
    d: Option<Saved>,
    out: &mut Output,
    buffer: &[u8],
) -> Report
    requires { CanPrint report d × HasRoom 320 out.old × (played.rows.first.count ≤ 64) × (64 ≤ length buffer.now) }
    ensures { Printed report played d buffer.now result out.old out.new }
{
    match report {
        Report::Rows => {
            put_rows(out, played.run.played, played.rows, buffer);
            Report::Rows
        }
        Report::Page(t) => {
            let totals = print_decided(t, d, out);
            Report::Page(totals)
        }
        Report::Order => Report::Order,
    }
}

// Plays a line and prints what is to be printed of it, from a place of the output on.
pub fn step(
    line: &[u8],
    area: &mut [u8],
    task: Task,
    out: &mut [u8],
    at: usize,
    buffer: &mut [u8],
) -> Stepped
    requires { Able task area.old × (at + 320 ≤ length out.old) × (80 ≤ length buffer.old) }
    ensures { SteppedOn (state_of task area.old) (taken line.now) at
        out.old result area.new out.new }
{
    let parsed = take_apart(line, buffer);
    let d = to_be_decided(task.report, area, task.run.session, parsed, buffer);
    let played = play_event(parsed, area, task.run, buffer);
    let run = played.run;
    let mut text = Output {
        buffer: out,
        end: at,
    };
    let report = print(task.report, played, d, &mut text, buffer);
    let task = Task { run, report };
    Stepped {
        task,
        written: text.end,
    }
}

// What is printed behind the last line.
fn print_closing(task: Task, area: &[u8], out: &mut Output)
    requires { (task.run.session.length ≤ length area.now) × HasRoom 80 out.old }
    ensures { Writes (report_close (state_of task area.now)) out.old out.new }
{
    match task.report {
        Report::Rows => {}
        Report::Page(totals) => put_total(out, totals),
        Report::Order => {
            let session = task.run.session;
            put_order(&area[..session.length], session.state, out);
        }
    }
}

// Likewise, from a place of the output on.
pub fn close(task: Task, area: &[u8], out: &mut [u8], at: usize) -> usize
    requires { (task.run.session.length ≤ length area.now) × (at + 80 ≤ length out.old) }
    ensures { Appends (report_close (state_of task area.now)) at out.old result
        out.new }
{
    let mut text = Output {
        buffer: out,
        end: at,
    };
    print_closing(task, area, &mut text);
    text.end
}
