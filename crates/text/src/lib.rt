#![tactic(auto)]
// Event lines: the letters, what a line asks for, and the rows that it gives.
ghost use Rattle.std.specs.Prelude.{◌≡◌};
ghost use Rattle.text.specs.Letters.{character_of, row_character};

use protocol::{Answer, Refusal, Shape};

// The letters of event lines.
#[derive(Clone, Copy, Debug, PartialEq, Eq)]
pub enum Letter {
    Format,
    Read,
    Write,
    Start,
    Acknowledge,
    Fault,
    PowerUp,
    Allow,
}

impl Letter {
    // The character that stands for it in a line.
    pub fn character(self) -> u8
        ensures { result ≡ character_of self }
    {
        match self {
            Letter::Format => b'F',
            Letter::Read => b'R',
            Letter::Write => b'W',
            Letter::Start => b'C',
            Letter::Acknowledge => b'A',
            Letter::Fault => b'X',
            Letter::PowerUp => b'U',
            Letter::Allow => b'Z',
        }
    }
}

// A letter and how many commas its lines have.
#[derive(Clone, Copy)]
pub struct Listing {
    pub letter: Letter,
    pub commas: u8,
}

// Document 01: F 4, R 3, W 3, C 2, A 2, X 1, U 0, Z 1.
pub const TABLE: [Listing; 8] = [
    Listing {
        letter: Letter::Format,
        commas: 4,
    },
    Listing {
        letter: Letter::Read,
        commas: 3,
    },
    Listing {
        letter: Letter::Write,
        commas: 3,
    },
    Listing {
        letter: Letter::Start,
        commas: 2,
    },
    Listing {
        letter: Letter::Acknowledge,
        commas: 2,
    },
    Listing {
        letter: Letter::Fault,
        commas: 1,
    },
    Listing {
        letter: Letter::PowerUp,
        commas: 0,
    },
    Listing {
        letter: Letter::Allow,
        commas: 1,
    },
];

// What a line asks for. The bytes of a write and of a context stand in a buffer, `count` of them.
#[derive(Clone, Copy)]
pub enum Event {
    Format {
        shape: Shape,
    },
    Read {
        board: usize,
        cell: usize,
        n: usize,
    },
    Write {
        board: usize,
        cell: usize,
        count: usize,
    },
    Start {
        board: usize,
        count: usize,
    },
    Acknowledge {
        board: usize,
        count: usize,
    },
    Fault {
        board: usize,
    },
    PowerUp,
    Allow {
        k: usize,
    },
}

// A row: the letter of its line, unless that can't be taken apart, what was answered, and how many bytes were read,
// which stand in a buffer.
#[derive(Clone, Copy)]
pub struct Row {
    pub letter: Option<Letter>,
    pub answer: Result<Answer, Refusal>,
    pub count: usize,
}

impl Row {
    // The character that stands for its letter, `?` where there is none.
    pub fn character(self) -> u8
        ensures { result ≡ row_character self.letter }
    {
        match self.letter {
            Some(letter) => letter.character(),
            None => b'?',
        }
    }
}

// The rows of a line: that of its call and, after a cut, what the power-up answered.
#[derive(Clone, Copy)]
pub struct Rows {
    pub first: Row,
    pub after: Option<Result<Answer, Refusal>>,
}
