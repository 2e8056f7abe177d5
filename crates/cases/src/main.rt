#![tactic(auto)]
// Plays the requests of standard input on the module and writes each with its answer. A request is a line: a letter
// and numbers of 0 to 65,535 without leading zeros, parted by commas, the first of which is the allowance k. Lines that
// begin with '#' are remarks.
//
//   F,k,P,S,B,K,length      format an image of that length
//   W,k,board,cell,n,first  write n bytes: first, first + 1, ..
//   C,k,board,n,first       start, with such bytes as context
//   A,k,board,n,first       acknowledge
//   X,k,board               fault
//   U,k                     power-up
//   w, c, a, x, f           as W, C, A, X, F with k = 0, 1, .. until the call is not cut, each from the same image,
//                           which stays as it was. What a call left is powered up with k = 0, 1, .. until the
//                           power-up is not cut; a cut one is made again. Its line counts what came out: the
//                           recovery state from before the call, that after it, or neither; neither also where a
//                           further power-up with k = 0 is not done, or the current bank is not the recovery bank
//   I,n                     1: each such line ends in the image that its call left, before any power-up; 0: no more
//   D,0                     the bytes of the image
//   R,0,board,cell,n,room   read into a buffer of that length
//                           R, W and w with the word `port` for the board: by the port
//   E,0,board               the commit forecast: status, group, stores
//   G,0,board               the fault forecast, likewise
//   O,0                     the boards' order: status, count, and the sixteen masks that were lent as hexadecimal eeee
//   K,0,board               context
//   S,0                     same: the image and the remembered one
//   M,0                     remember the image
//   L,length                the image lent from now on has that length
//   P,at,byte               that byte of the image becomes this
//   Q,place,number          0 to 15: that row of the record; 16 on, 17 starter, 18 members, 19 acknowledged
mod lines;

ghost use Rattle.std.specs.Prelude.{◌≤◌, length};

use lines::Bench;
use std::io::Read;

// Reads until the text is full, the input ends or a read fails; how many bytes it put at the text's start.
fn read_full<R: Read>(from: &mut R, text: &mut [u8]) -> usize
    ensures { result ≤ length text.new }
{
    let mut done = 0;
    while done < text.len() {
        let n = from.read(&mut text[done..]).unwrap_or(0);
        if n == 0 {
            break;
        }
        done += n;
    }
    done
}

fn main(rt: HostRuntime) {
    let mut text = [0u8; 65536];
    let n = read_full(&mut rt.stdin(), &mut text);
    let mut bench = Bench::new();
    for line in text[..n].split_inclusive(|byte| *byte == b'\n') {
        bench.play(&rt, line.strip_suffix(b"\n").unwrap_or(line));
    }
}
