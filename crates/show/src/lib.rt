// What the programs share: an input is read, listed and written out, and where opening, reading or writing fails, a line says so.
#![tactic(auto)]

ghost use Rattle.std.specs.Prelude.{take, ◌≡◌, ◌<◌, ◌≤◌, length, IfOk};
ghost use Rattle.std.specs.Io.KnownBytes.{Consumes, IsAtEnd};
ghost use Rattle.show.specs.inner.FullReads.{count_read};

use dss_frame::Rules;
use std::io::Read;

// One byte more than is listed, so that a longer input shows.
const INPUT: usize = 65537;

// More than the list of 65,536 bytes can have: ten for each byte, and the last two lines (listing/proofs/Fits).
const TEXT: usize = 720000;

// Of what it holds only the length is told, so that no proof goes through it.
pub fn zeros<const N: usize>() -> [u8; N]
    ensures { N ≡ length result }
{
    [0; N]
}

// A read failed behind so many bytes.
#[derive(Clone, Copy)]
pub struct CutShort {
    pub count: usize,
}

// Reads until the input ends, the buffer is full or a read fails; std's `read_to_end` would read on behind the buffer's end, and
// `read_exact` doesn't tell how much it read.
pub fn read_full<R: Read>(from: &mut R, buf: &mut [u8]) -> Result<usize, CutShort>
    ensures within { count_read result ≤ length buf.new }
    ensures prefix { count_read result ≡ length (take (count_read result) buf.new) }
    ensures bytes { Consumes (R.remaining from.old) (R.remaining from.new) (take (count_read result) buf.new) }
    ensures end { IfOk result (λ n. n < length buf.new → IsAtEnd (R.remaining from.new)) }
{
    let mut count = 0;
    while count < buf.len() {
        match from.read(&mut buf[count..]) {
            Ok(0) => break,
            Ok(more) => count += more,
            Err(_) => return Err(CutShort { count }),
        }
    }
    Ok(count)
}

// Writes to standard output. Where that fails, standard error is what is left to say it on.
fn write_out(rt: &(impl Print + Eprint), text: &[u8]) {
    if rt.write_all(text).is_err() {
        let _ = rt.eprintln("output can't be written");
    }
}

// Reads an open file and writes the list of it to standard output.
pub fn show<R: Read>(rt: &(impl Print + Eprint), from: &mut R, rules: Rules) {
    let mut input = zeros::<INPUT>();
    let Ok(count) = read_full(from, &mut input) else {
        write_out(rt, b"input can't be read\n");
        return;
    };
    let mut room = zeros::<TEXT>();
    if let Ok(count) = listing::list(rules, &input[..count], &mut room) {
        write_out(rt, &room[..count]);
    }
}
