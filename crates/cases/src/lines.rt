// Plays one line.
ghost use Rattle.std.specs.Prelude.{◌≤◌};

use bench::calls::Call;
use bench::records::changed;
use bench::requests::Request;
use bench::tell::{Buffer, FILL, Hex, Masks, Told, record_change, same_or_changed};
use costs::Forecast;
use cuts::every::{Cuts, ROOM, make_whole};
use protocol::Refusal;
use volatile::Record;

// What stands between two requests.
#[derive(Clone, Copy)]
pub struct Bench {
    // The image lent is the first part of it.
    image: [u8; ROOM],
    // The image remembered or, from the last call that was cut at every k on, the one that it leaves uncut.
    other: [u8; ROOM],
    // How many bytes of the image are to be lent.
    length: usize,
    state: Record,
    // Whether a call cut at every k shows the images that it leaves.
    shown: bool,
}

impl Bench {
    pub fn new() -> Bench {
        Bench {
            image: [0; ROOM],
            other: [0; ROOM],
            length: 0,
            state: Record::off(),
            shown: false,
        }
    }

    // Writes a line and its answer. That they could not be written is told by the output alone.
    pub fn play(&mut self, rt: &impl Print, line: &[u8]) {
        let _ = rt.write_all(line);
        let request = Request::parse(line);
        self.set(request);
        match request {
            Request::Call(call, k) => self.call(rt, call, k),
            Request::EveryCut(call) => self.every_cut(rt, call),
            Request::CommitForecast(board) => {
                tell_forecast(
                    rt,
                    forecast::commit_forecast(self.lent(), self.state, board),
                );
            }
            Request::FaultForecast(board) => {
                tell_forecast(rt, forecast::fault_forecast(self.lent(), self.state, board));
            }
            Request::Order => tell_order(rt, self.lent(), self.state),
            Request::Context(board) => tell_context(rt, self.lent(), board),
            Request::Same => tell_same(rt, self.lent(), &self.other[..self.lent_length()]),
            Request::Image => tell_image(rt, self.lent()),
            _ => {
                let _ = rt.write_all(b"\n");
            }
        }
    }

    // What a line sets before it is answered.
    fn set(&mut self, request: Request) {
        match request {
            Request::Call(Call::Format { length, .. }, _)
            | Request::EveryCut(Call::Format { length, .. })
            | Request::Lend(length) => self.length = length,
            Request::Show(shown) => self.shown = shown,
            Request::Remember => self.other.copy_from_slice(&self.image),
            Request::SetByte(at, byte) => self.set_byte(at, byte),
            Request::SetNumber(place, number) => self.state = changed(self.state, place, number),
            _ => {}
        }
    }

    fn set_byte(&mut self, at: usize, byte: u8) {
        if let Some(old) = self.image.get_mut(at) {
            *old = byte;
        }
    }

    // How many bytes are lent: as many as are to be, or all.
    fn lent_length(&self) -> usize
        ensures { result ≤ 36000 }
    {
        self.length.min(ROOM)
    }

    fn lent(&self) -> &[u8] {
        &self.image[..self.lent_length()]
    }

    // A call, its answer, and what changed.
    fn call(&mut self, rt: &impl Print, call: Call, k: usize) {
        let n = self.lent_length();
        let state = self.state;
        let before = self.image;
        let mut bytes = [FILL; 80];
        let reply = call.make(&mut self.image[..n], state, k, &mut bytes);
        let answer = Told(reply.answer);
        let image = same_or_changed(self.image == before);
        let record = record_change(reply.next, state);
        let buffer = Buffer {
            bytes: &bytes,
            n: call.read_length(),
        };
        let _ = println!(rt; " : {answer} image {image}, record {record}, buffer {buffer}");
        self.state = reply.next;
    }

    // A call cut at every k. Image and record stay as they were.
    fn every_cut(&mut self, rt: &impl Print, call: Call) {
        let n = self.lent_length();
        let state = self.state;
        let before = &self.image[..n];
        let other = &mut self.other[..];
        let after = &mut other[..n];
        after.copy_from_slice(before);
        make_whole(call, after, state);
        let cuts = Cuts {
            call,
            state,
            before,
            after,
        };
        let _ = rt.write_all(b"\n");
        cuts.tell_in_arrays(rt, self.shown);
    }
}

// A forecast: status, group, stores.
fn tell_forecast(rt: &impl Print, forecast: Result<Forecast, Refusal>) {
    let (status, group, stores) = match forecast {
        Ok(forecast) => (0, forecast.group, forecast.stores),
        Err(why) => (why.number(), 0, 0),
    };
    let _ = println!(rt; " : {status} {group:04x} {stores}");
}

// The order: status, count, all masks that were lent.
fn tell_order(rt: &impl Print, image: &[u8], state: Record) {
    let mut masks = [0xeeee; 16];
    let (status, count) = match order::order(image, state, &mut masks) {
        Ok(count) => (0, count),
        Err(why) => (why.number(), 0),
    };
    let masks = Masks(&masks);
    let _ = println!(rt; " : {status} {count}{masks}");
}

fn tell_context(rt: &impl Print, image: &[u8], board: usize) {
    let mut status = 255;
    let context = Hex(inspect::context(image, board, &mut status));
    let _ = println!(rt; " : {status} {context}");
}

fn tell_same(rt: &impl Print, image: &[u8], other: &[u8]) {
    let (status, same) = match inspect::same(image, other) {
        Ok(same) => (0, u8::from(same)),
        Err(why) => (why.number(), 0),
    };
    let _ = println!(rt; " : {status} {same}");
}

fn tell_image(rt: &impl Print, image: &[u8]) {
    let image = Hex(image);
    let _ = println!(rt; " : {image}");
}
