#![tactic(auto)]
// The types that the definitions in specs/ and the promises of the module share.
ghost use Rattle.std.specs.Prelude.{◌≡◌};
ghost use Rattle.protocol.specs.Replies.{answer_says};
ghost use Rattle.protocol.specs.Replies.{refusal_number};

use volatile::Record;

// P boards, blocks of S bytes, B blocks, K context bytes a board (document 01, "The image").
#[derive(Clone, Copy, PartialEq, Eq, Debug)]
pub struct Shape {
    pub boards: usize,
    pub size: usize,
    pub blocks: usize,
    pub context: usize,
}

// Who makes an access: a board, by its number, or the fitter's port (document 02, Req 03).
#[derive(Clone, Copy, PartialEq, Eq, Debug)]
pub enum Requester {
    Board(usize),
    Port,
}

// How an access of board i binds it and another board j, the block's active writer: i comes to depend on j, each on the
// other, or j on i (document 004's "opposite dependency").
#[derive(Clone, Copy, PartialEq, Eq, Debug)]
pub enum Binding {
    OneWay,
    TwoWay,
    Opposite,
}

// Why a call or an event line is refused, and, `PageFull`, why a decided commit is not printed in a page, which is no
// refusal of the call; each has the number that documents 01 and 02 give it. The definitions speak of these numbers, by
// `refusal_number`. The last three come with requests that are still to land (document 02, Req 08, 10 and 12).
#[derive(Clone, Copy, Debug, PartialEq, Eq)]
pub enum Refusal {
    NoSuchBoard = 1,
    OutOfRange = 2,
    WrongContext = 3,
    ShapeNotAllowed = 4,
    WrongLength = 5,
    Unreadable = 6,
    Disordered = 11,
    RecordDisordered = 12,
    Engaged = 13,
    CommitOpen = 14,
    NoMember = 15,
    Acknowledged = 16,
    OverPortLimit = 17,
    PageFull = 18,
    AllCommitsOpen = 19,
    NoCounterpart = 20,
    BadPlan = 21,
}

impl Refusal {
    // The number that is answered and printed.
    pub fn number(self) -> u8
        ensures { result ≡ refusal_number self }
    {
        self as u8
    }
}

// What a call answers that is not refused: whether it was cut, and whether it decided a commit; the members of the
// commit or the boards rolled back; how many bytes it stored. The default is no and 0 for all of these.
#[derive(Clone, Copy, Debug, PartialEq, Eq, Default)]
pub struct Answer {
    pub cut: bool,
    pub decided: bool,
    pub group: u16,
    pub stores: usize,
}

// The number that is printed for an answer: 0 for done, 9 for cut, or that of the refusal.
pub fn status_of(answer: Result<Answer, Refusal>) -> u8
    ensures { result ≡ (answer_says answer).status }
{
    match answer {
        Ok(answer) if answer.cut => 9,
        Ok(_) => 0,
        Err(why) => why.number(),
    }
}

// The answer of a call and the record that follows it.
#[derive(Clone, Copy, PartialEq, Eq, Debug)]
pub struct Reply {
    pub answer: Result<Answer, Refusal>,
    pub next: Record,
}
