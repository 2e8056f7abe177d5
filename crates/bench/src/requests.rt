// The lines of a request file.
use crate::calls::Call;
use fields::read_number;
use protocol::{Requester, Shape};

// What a line asks for.
#[derive(Clone, Copy)]
pub enum Request {
    // A call with the allowance k.
    Call(Call, usize),
    // A call with every allowance until it is not cut.
    EveryCut(Call),
    // Whether calls with every allowance show the image that they leave.
    Show(bool),
    Image,
    CommitForecast(usize),
    FaultForecast(usize),
    Order,
    Context(usize),
    Same,
    Remember,
    // How long the image is that is lent.
    Lend(usize),
    // A byte of the image becomes another.
    SetByte(usize, u8),
    // A number of the record becomes another.
    SetNumber(usize, u16),
    // A remark, or no letter that is known.
    Remark,
}

impl Request {
    // The request of a line: a letter and its numbers, 0 where the line has fewer.
    pub fn parse(line: &[u8]) -> Request {
        let Some((letter, behind)) = line.split_first() else {
            return Request::Remark;
        };
        let mut fields = Fields { behind };
        let k = fields.number();
        match letter {
            b'F' => Request::Call(fields.format(), k),
            b'R' => Request::Call(fields.read(), k),
            b'W' => Request::Call(fields.write(), k),
            b'C' => Request::Call(fields.start(), k),
            b'A' => Request::Call(fields.acknowledge(), k),
            b'X' => Request::Call(fields.fault(), k),
            b'U' => Request::Call(Call::PowerUp, k),
            b'f' => Request::EveryCut(fields.format()),
            b'w' => Request::EveryCut(fields.write()),
            b'c' => Request::EveryCut(fields.start()),
            b'a' => Request::EveryCut(fields.acknowledge()),
            b'x' => Request::EveryCut(fields.fault()),
            b'I' => Request::Show(k == 1),
            b'D' => Request::Image,
            b'E' => Request::CommitForecast(fields.number()),
            b'G' => Request::FaultForecast(fields.number()),
            b'O' => Request::Order,
            b'K' => Request::Context(fields.number()),
            b'S' => Request::Same,
            b'M' => Request::Remember,
            b'L' => Request::Lend(k),
            b'P' => Request::SetByte(k, (fields.number() % 256) as u8),
            b'Q' => Request::SetNumber(k, (fields.number() % 65536) as u16),
            _ => Request::Remark,
        }
    }
}

// What stands for the board in an access by the port. It is told by its first letter; no number begins with one.
const PORT: &[u8] = b"port";

// A field of a line: a number, or the word for the port.
#[derive(Clone, Copy)]
enum Field {
    Number(usize),
    Port,
}

// The fields of a line that are still to be read: a comma's place, and the next one behind it.
#[derive(Clone, Copy)]
struct Fields<'a> {
    behind: &'a [u8],
}

impl Fields<'_> {
    // The next field, if there is one. Behind a field that is neither a number nor the word nothing is read.
    fn next(&mut self) -> Option<Field> {
        let (_, field) = self.behind.split_first()?;
        self.behind = &[];
        let (value, length) = read_field(field)?;
        self.behind = field.get(length..).unwrap_or(&[]);
        Some(value)
    }

    fn number(&mut self) -> usize {
        match self.next() {
            Some(Field::Number(value)) => value,
            Some(Field::Port) | None => 0,
        }
    }

    fn requester(&mut self) -> Requester {
        match self.next() {
            Some(Field::Number(board)) => Requester::Board(board),
            Some(Field::Port) => Requester::Port,
            None => Requester::Board(0),
        }
    }

    fn format(&mut self) -> Call {
        let shape = Shape {
            boards: self.number(),
            size: self.number(),
            blocks: self.number(),
            context: self.number(),
        };
        Call::Format {
            shape,
            length: self.number(),
        }
    }

    fn read(&mut self) -> Call {
        Call::Read {
            by: self.requester(),
            cell: self.number(),
            n: self.number(),
            room: self.number(),
        }
    }

    fn write(&mut self) -> Call {
        Call::Write {
            by: self.requester(),
            cell: self.number(),
            n: self.number(),
            first: self.number(),
        }
    }

    fn start(&mut self) -> Call {
        Call::Start {
            board: self.number(),
            n: self.number(),
            first: self.number(),
        }
    }

    fn acknowledge(&mut self) -> Call {
        Call::Acknowledge {
            board: self.number(),
            n: self.number(),
            first: self.number(),
        }
    }

    fn fault(&mut self) -> Call {
        Call::Fault {
            board: self.number(),
        }
    }
}

// The field at the front, with its length.
fn read_field(s: &[u8]) -> Option<(Field, usize)> {
    if s.starts_with(&PORT[..1]) {
        return Some((Field::Port, PORT.len()));
    }
    let number = read_number(s)?;
    Some((Field::Number(number.value), number.length))
}
