// A payload case: what the reader answers through its call for C, as the lines of examples/payloads.txt say it (answer, path, events, texts), and how
// many bytes of the lent buffers past the list and the texts are not 0. They hold junk before the call, so a byte that is left as it was shows.
ghost use Rattle.std.specs.Prelude.{◌+◌, ◌≤◌, length};

use bim::bim_read;
use buffers::{half, word};
use numbers::{limit, refusal};
use std::io;

fn print_word(rt: &impl Print, s: &[u8], at: usize) -> io::Result<()>
    requires { at + 4 ≤ length s.now }
{
    let n = word(s, at);
    print!(rt; " {n}")
}

// Number, then place, mode, events, text bytes and bits.
fn print_answer(rt: &impl Print, number: u32, area: &[u8; limit::AREA]) -> io::Result<()> {
    print!(rt; "answer {number}")?;
    print_word(rt, area, 0)?;
    print_word(rt, area, 4)?;
    print_word(rt, area, 8)?;
    print_word(rt, area, 12)?;
    print_word(rt, area, 16)?;
    println!(rt; "")
}

// The open elements, where there are any.
fn print_path(rt: &impl Print, area: &[u8; limit::AREA]) -> io::Result<()> {
    let n = word(area, 20) as usize;
    if n == 0 {
        return Ok(());
    }
    print!(rt; "path")?;
    for i in 0..n.min(limit::MOST_NAMES) {
        let name = half(area, 24 + 2 * i);
        print!(rt; " {name}")?;
    }
    println!(rt; "")
}

fn print_event(rt: &impl Print, event: &[u8]) -> io::Result<()>
    requires { 16 ≤ length event.now }
{
    print!(rt; "event")?;
    print_word(rt, event, 0)?;
    print_word(rt, event, 4)?;
    print_word(rt, event, 8)?;
    print_word(rt, event, 12)?;
    println!(rt; "")
}

fn print_events(rt: &impl Print, events: &[u8], n: usize) -> io::Result<()> {
    for event in events.chunks_exact(limit::EVENT).take(n) {
        print_event(rt, event)?;
    }
    Ok(())
}

fn print_texts(rt: &impl Print, texts: &[u8], n: usize) -> io::Result<()> {
    if n == 0 {
        return println!(rt; "texts -");
    }
    print!(rt; "texts ")?;
    for byte in texts.iter().take(n) {
        print!(rt; "{byte:02x}")?;
    }
    println!(rt; "")
}

// How many bytes from a place on are not 0.
fn left(s: &[u8], from: usize) -> usize {
    s.iter().skip(from).filter(|byte| **byte != 0).count()
}

fn tell(
    rt: &impl Print,
    number: u32,
    events: &[u8],
    texts: &[u8],
    area: &[u8; limit::AREA],
) -> io::Result<()> {
    let count = word(area, 8) as usize;
    let bytes = word(area, 12) as usize;
    print_answer(rt, number, area)?;
    print_path(rt, area)?;
    print_events(rt, events, count)?;
    if number == refusal::ACCEPTED {
        print_texts(rt, texts, bytes)?;
    }
    let past_events = left(events, limit::EVENT * count);
    let past_texts = left(texts, bytes);
    println!(rt; "left {past_events} {past_texts}")
}

// Reads a payload into lent events and texts.
fn read_into(
    rt: &impl Print,
    table: &[u8],
    party: u32,
    name: u32,
    t: u32,
    payload: &[u8],
    events: &mut [u8],
    texts: &mut [u8],
) -> io::Result<()> {
    let mut area = [165u8; limit::AREA];
    let number = bim_read(table, party, name, t, payload, events, texts, &mut area);
    tell(rt, number, events, texts, &area)
}

// Lends so many bytes for events and for texts.
fn lend(
    rt: &impl Print,
    table: &[u8],
    party: u32,
    name: u32,
    t: u32,
    payload: &[u8],
    e: usize,
    x: usize,
) -> io::Result<()>
    requires { (e ≤ 49152) × (x ≤ 8192) }
{
    let mut events = [165u8; 49152];
    let mut texts = [165u8; limit::MOST_PAYLOAD];
    read_into(
        rt,
        table,
        party,
        name,
        t,
        payload,
        &mut events[..e],
        &mut texts[..x],
    )
}

// Reads a payload with so many bytes lent for events and for texts, as many as there are here.
pub fn tell_reading(
    rt: &impl Print,
    table: &[u8],
    party: u32,
    name: u32,
    t: u32,
    payload: &[u8],
    e: usize,
    x: usize,
) -> io::Result<()> {
    if 49152 < e {
        return too_much(rt);
    }
    if limit::MOST_PAYLOAD < x {
        return too_much(rt);
    }
    lend(rt, table, party, name, t, payload, e, x)
}

fn too_much(rt: &impl Print) -> io::Result<()> {
    println!(rt; "too much room")
}
