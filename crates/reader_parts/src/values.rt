// A simple value: its code, its text's bytes, its event.
ghost use Rattle.std.specs.Prelude.{◌≡◌, true, ◌+◌, ◌-◌, ◌*◌, ◌≤◌, ◌<◌, length};
ghost use Rattle.wire.specs.Bits.{bit_at};
ghost use Rattle.numbers.specs.Refused.{answered};
ghost use Rattle.utf8.specs.Rfc.{In};
ghost use Rattle.utf8.specs.Text.{text_fault};
ghost use Rattle.utf8.specs.Slanted.{Within};
ghost use Rattle.value.specs.Simple.{text, bytes_at, text_of, simple_at, words_of};
ghost use Rattle.model.specs.Model as model;
ghost use Rattle.model.specs.Model.Plan.{done};
ghost use Rattle.reader_parts.specs.Out.{Reads};
ghost use Rattle.reader_parts.specs.Texts.{Moves, Copies, Follows};

use crate::storing::store;
use crate::{Cursor, Step};
use numbers::refusal::{Fault, Refusal};
use numbers::{kind, limit};
use utf8::slanted::octet;
use value::Value;
use value::kinds::of_kind;
use value::reading::{number, text_fault};
use wire::{Bits, Bytes};

// Whether an octet is printable ASCII.
fn printable(octet: u8) -> bool
    ensures { result ≡ true → In 0x20 0x7F octet }
{
    0x20 <= octet && octet <= 0x7F
}

// Up to 16 octets, from bit k of byte i on, into texts; and whether all are printable. All are held before the first is stored, so that the back end
// moves and tests 16 at once.
fn block(payload: &[u8], k: u32, i: usize, n: usize, texts: &mut [u8], used: usize) -> bool
    requires { (k < 8) × (n ≤ 16) × (Within payload.now k (i + n)) × (used + n ≤ length texts.old) }
    ensures { Moves payload.now k i n texts.old used texts.new result }
{
    let mut held = [0u8; 16];
    let mut plain = true;
    for j in 0..n {
        let x = octet(payload, k, i + j);
        held[j] = x;
        plain &= printable(x);
    }
    texts[used..used + n].copy_from_slice(&held[..n]);
    plain
}

// n octets, from bit k of byte i on, into texts; and whether all are printable. The last 16 may be partly those before.
fn move_octets(payload: &[u8], k: u32, i: usize, n: usize, texts: &mut [u8], used: usize) -> bool
    requires { (k < 8) × (Within payload.now k (i + n)) × (used + n ≤ length texts.old) }
    ensures { Moves payload.now k i n texts.old used texts.new result }
{
    if n < 16 {
        return block(payload, k, i, n, texts, used);
    }
    // The last turn goes back to the last 16, so that no range gives the places.
    let last = n - 16;
    let mut plain = true;
    let mut j: usize = 0;
    while j < n {
        let at = j.min(last);
        plain &= block(payload, k, i + at, 16, texts, used + at);
        j = at + 16;
    }
    plain
}

// n bytes of the payload, from a place on, into texts, where they have room; and whether they have and nothing is wrong with them, as far as that is
// seen on the way.
fn copy(payload: &[u8], texts: &mut [u8], from: Bits, n: u32, used: usize) -> bool
    requires { from.0 + 8 * n ≤ 8 * length payload.now }
    ensures { Copies payload.now from.0 n texts.old used texts.new result }
{
    let m = n as usize;
    if texts.len() < used || texts.len() - used < m {
        return false;
    }
    let p = from.0;
    let i = (p / 8) as usize;
    move_octets(payload, p % 8, i, m, texts, used)
}

// What is wrong with n bytes from a place on, where it is not known that nothing is.
fn judged(payload: &[u8], from: Bits, n: u32, fine: bool) -> Result<(), Refusal>
    requires { (from.0 + 8 * n ≤ 8 * length payload.now)
        × (from.0 + 8 * n < 4294967296)
        × (fine ≡ true → text_fault (bytes_at (bit_at payload.now) from.0 n) ≡ 0) }
    ensures { answered result ≡ text_fault (bytes_at (bit_at payload.now) from.0 n) }
{
    if fine {
        return Ok(());
    }
    let bytes = Bytes(n);
    text_fault(payload, from, bytes)
}

// A text of n bytes from a place on: the wall is judged first, then what is wrong with the bytes, then room for them, then room for the event.
fn text_after(
    payload: &[u8],
    events: &mut [u32],
    texts: &mut [u8],
    wall: Bits,
    c: Cursor,
    n: u32,
    p: Bits,
) -> Step
    requires { wall.0 ≤ 8 * length payload.now }
    ensures { Follows (words_of text (text_of (bit_at payload.now) wall.0 n p.0)) c events.old
        texts.old result events.new texts.new }
{
    let at = c.at;
    let e = wall.0;
    let from = p.0;
    if e < from {
        return Err(Fault {
            why: Refusal::PastEnd,
            at,
        });
    }
    if (e - from) / 8 < n {
        return Err(Fault {
            why: Refusal::PastEnd,
            at,
        });
    }
    let used = c.used;
    let room = texts.len().saturating_sub(used);
    let fine = copy(payload, texts, p, n, used);
    if let Err(why) = judged(payload, p, n, fine) {
        return Err(Fault { why, at });
    }
    let m = n as usize;
    if room < m {
        return Err(Fault {
            why: Refusal::TextRoom,
            at,
        });
    }
    let d = Cursor {
        used: used + m,
        ..c
    };
    let next = Bits(from + 8 * n);
    store(events, d, kind::VALUE, n, 0, next)
}

// A text: its count, then its bytes.
fn text(payload: &[u8], events: &mut [u32], texts: &mut [u8], wall: Bits, c: Cursor) -> Step
    requires { wall.0 ≤ 8 * length payload.now }
    ensures { Follows (words_of text (simple_at text (bit_at payload.now) wall.0 c.at.0)) c
        events.old texts.old result events.new texts.new }
{
    let at = c.at;
    match number(payload, wall, at, limit::MOST_TEXT) {
        Err(why) => Err(Fault { why, at }),
        Ok((n, p)) => text_after(payload, events, texts, wall, c, n, p),
    }
}

// A value of a simple kind with its parameters x and y.
pub fn value(
    payload: &[u8],
    events: &mut [u32],
    texts: &mut [u8],
    wall: Bits,
    c: Cursor,
    simple: u32,
    x: u32,
    y: u32,
) -> Step
    requires { wall.0 ≤ 8 * length payload.now }
    ensures { Reads (model.value simple x y done) (bit_at payload.now) wall.0 c events.old
        texts.old result events.new texts.new }
{
    if simple == numbers::simple::TEXT {
        return text(payload, events, texts, wall, c);
    }
    let at = c.at;
    // No `.map_err(..)?`, as it is on the way of every value: with that, and with enums in Results, 2,048 events read cost 14 in 100 more (its guard is 1.31).
    match of_kind(payload, wall, at, simple, x, y) {
        Err(why) => Err(Fault { why, at }),
        Ok(read) => match read {
            Value::Read { word, text, next } => store(events, c, kind::VALUE, word, 0, next),
            Value::Dated { p, q, next } => store(events, c, kind::VALUE, p, q, next),
        },
    }
}
