// The calls of the module, as requests ask them.
use protocol::{Reply, Requester, Shape};
use volatile::Record;

// A call with its arguments. Where it gives bytes, these are n from `first` on: first, first + 1, ..
#[derive(Clone, Copy)]
pub enum Call {
    // An image of that length is lent.
    Format {
        shape: Shape,
        length: usize,
    },
    // Into a buffer with room for so many bytes.
    Read {
        by: Requester,
        cell: usize,
        n: usize,
        room: usize,
    },
    Write {
        by: Requester,
        cell: usize,
        n: usize,
        first: usize,
    },
    Start {
        board: usize,
        n: usize,
        first: usize,
    },
    Acknowledge {
        board: usize,
        n: usize,
        first: usize,
    },
    Fault {
        board: usize,
    },
    PowerUp,
}

impl Call {
    // Makes the call with the allowance k; the bytes of a read go into the buffer.
    pub fn make(self, image: &mut [u8], state: Record, k: usize, buffer: &mut [u8]) -> Reply {
        let bytes = sequence();
        match self {
            Call::Format { shape, .. } => format::format(image, state, shape, k),
            Call::Read { by, cell, n, room } => {
                let room = room.min(buffer.len());
                read(image, state, by, cell, n, &mut buffer[..room])
            }
            Call::Write { by, cell, n, first } => {
                write(image, state, by, cell, part(&bytes, first, n), k)
            }
            Call::Start { board, n, first } => {
                commit::start(image, state, board, part(&bytes, first, n), k)
            }
            Call::Acknowledge { board, n, first } => {
                commit::acknowledge(image, state, board, part(&bytes, first, n), k)
            }
            Call::Fault { board } => fault::fault(image, state, board, k),
            Call::PowerUp => recovery::power_up(image, k),
        }
    }

    // How many bytes it reads.
    pub fn read_length(self) -> usize {
        match self {
            Call::Read { n, .. } => n,
            _ => 0,
        }
    }
}

fn read(
    image: &[u8],
    state: Record,
    by: Requester,
    cell: usize,
    n: usize,
    buffer: &mut [u8],
) -> Reply {
    match by {
        Requester::Board(board) => access::read(image, state, board, cell, n, buffer),
        Requester::Port => access::port_read(image, state, cell, n, buffer),
    }
}

fn write(
    image: &mut [u8],
    state: Record,
    by: Requester,
    cell: usize,
    bytes: &[u8],
    k: usize,
) -> Reply {
    match by {
        Requester::Board(board) => access::write(image, state, board, cell, bytes, k),
        Requester::Port => access::port_write(image, state, cell, bytes, k),
    }
}

// The bytes 0, 1, .. 255.
fn sequence() -> [u8; 256] {
    std::array::from_fn(|i| i as u8)
}

// n of these bytes from `first` on, or as many as there are.
fn part(bytes: &[u8], first: usize, n: usize) -> &[u8] {
    let rest = bytes.get(first..).unwrap_or(&[]);
    rest.get(..n).unwrap_or(rest)
}
