// Runs the vectors from standard input through the proved code, and prints the answer of each.
// A code case is a byte below 32 that says what is asked (`ask`), the number of its bytes, five words, the highest byte first, and the bytes.
// A payload case is the byte 32, the party's byte, six words (table words, payload bytes, root name, root type, event words and text bytes lent), the table,
// and the payload (`payload`).
#![tactic(auto)]

mod ask;
mod payload;

ghost use Rattle.std.specs.Prelude.{◌≡◌, ◌<◌, ◌≤◌, length, IfOk};

use ask::{Case, tell};
use buffers::word;
use payload::tell_reading;
use std::io;
use std::io::Read;

// Nothing more can be told.
fn cut_off(rt: &impl Print, s: &[u8]) -> io::Result<usize>
    ensures { IfOk result (λ past. past ≡ length s.now) }
{
    println!(rt; "cut off")?;
    Ok(s.len())
}

// Tells the code case at a place, and answers the place past it; one that is cut off is the last.
fn code_case(rt: &impl Print, s: &[u8], at: usize) -> io::Result<usize>
    requires { at < length s.now }
    ensures { IfOk result (λ past. at < past) }
{
    let left = s.len() - at;
    if left < 22 {
        return cut_off(rt, s);
    }
    let n = usize::from(s[at + 1]);
    if left - 22 < n {
        return cut_off(rt, s);
    }
    let from = at + 22;
    let end = from + n;
    let case = Case {
        asked: s[at],
        x: word(s, at + 2),
        y: word(s, at + 6),
        a: word(s, at + 10),
        b: word(s, at + 14),
        c: word(s, at + 18),
    };
    tell(rt, case, &s[from..end])?;
    Ok(end)
}

// The payload case at a place, likewise.
fn payload_case(rt: &impl Print, s: &[u8], at: usize) -> io::Result<usize>
    requires { at < length s.now }
    ensures { IfOk result (λ past. at < past) }
{
    let left = s.len() - at;
    if left < 26 {
        return cut_off(rt, s);
    }
    let words = word(s, at + 2) as usize;
    let bytes = word(s, at + 6) as usize;
    if (left - 26) / 4 < words {
        return cut_off(rt, s);
    }
    let table = at + 26;
    let from = table + 4 * words;
    if s.len() - from < bytes {
        return cut_off(rt, s);
    }
    let end = from + bytes;
    let party = u32::from(s[at + 1]);
    let name = word(s, at + 10);
    let t = word(s, at + 14);
    let events = word(s, at + 18) as usize;
    let texts = word(s, at + 22) as usize;
    tell_reading(
        rt,
        &s[table..from],
        party,
        name,
        t,
        &s[from..end],
        4 * events,
        texts,
    )?;
    Ok(end)
}

fn one(rt: &impl Print, s: &[u8], at: usize) -> io::Result<usize>
    requires { at < length s.now }
    ensures { IfOk result (λ past. at < past) }
{
    if s[at] < 32 {
        return code_case(rt, s, at);
    }
    payload_case(rt, s, at)
}

fn every(rt: &impl Print, s: &[u8]) -> io::Result<()> {
    let mut at: usize = 0;
    while at < s.len() {
        at = one(rt, s, at)?;
    }
    Ok(())
}

// Reads until the buffer is full or the input ends, and answers how many bytes it put at its start.
fn read_full(input: &mut impl Read, buf: &mut [u8]) -> io::Result<usize>
    ensures { IfOk result (λ n. n ≤ length buf.new) }
{
    let mut done = 0;
    while done < buf.len() {
        let n = input.read(&mut buf[done..])?;
        if n == 0 {
            break;
        }
        done += n;
    }
    Ok(done)
}

fn main(rt: HostRuntime) -> io::Result<()> {
    let mut buf = [0u8; 262144];
    let n = read_full(&mut rt.stdin(), &mut buf)?;
    every(&rt, &buf[..n])
}
