// The listing program: a table, a root and a payload from standard input, the events to standard output.
#![tactic(auto)]

mod digits; // digits.rt: a number's digits
mod listing; // listing.rt: the input taken apart, and read
mod text; // text.rt: the lines

ghost use Rattle.std.specs.Prelude.{IfOk};
ghost use Rattle.list.specs.Digits.{IsPrefixLen};

use listing::read_input;
use numbers::limit;
use std::io;
use std::io::Read;
use text::{event_line, heading, refusal as refusal_line};

// The bytes of input that are read. Behind a table of more than 14,333 words they leave no room for the longest payload.
const MOST_INPUT: usize = 65536;

fn print_event(rt: &impl Print, kind: u32, p: u32, q: u32, bits: u32) -> io::Result<()> {
    let line = event_line(kind, p, q, bits);
    rt.write_all(line.text())
}

// A line for each of n events.
fn print_events(rt: &impl Print, events: &[u32], n: usize) -> io::Result<()> {
    for event in events.chunks_exact(4).take(n) {
        print_event(rt, event[0], event[1], event[2], event[3])?;
    }
    Ok(())
}

fn print_refusal(rt: &impl Print, number: u32, place: usize) -> io::Result<()> {
    let line = refusal_line(number, place);
    rt.write_all(line.text())
}

fn print_heading(rt: &impl Print, events: u32, text: u32, bits: u32) -> io::Result<()> {
    let line = heading(events, text, bits);
    rt.write_all(line.text())
}

// Reads until the buffer is full or the input ends, and answers how many bytes it put at its start.
fn read_full(input: &mut impl Read, buf: &mut [u8]) -> io::Result<usize>
    ensures { IfOk result (λ n. IsPrefixLen n buf.new) }
{
    let mut done = 0;
    while done < buf.len() {
        let n = input.read(&mut buf[done..])?;
        if n == 0 {
            break;
        }
        done += n;
    }
    Ok(done)
}

fn main(rt: HostRuntime) -> io::Result<()> {
    let mut input = [0u8; MOST_INPUT];
    let n = read_full(&mut rt.stdin(), &mut input)?;
    let mut events = [0u32; limit::MOST_EVENT_WORDS];
    let mut texts = [0u8; limit::MOST_PAYLOAD];
    match read_input(&input[..n], &mut events, &mut texts) {
        Err(r) => print_refusal(&rt, r.fault.why.number(), r.fault.at),
        Ok(a) => {
            print_heading(&rt, a.events, a.text.0, a.bits.0)?;
            print_events(&rt, &events, a.events as usize)
        }
    }
}
