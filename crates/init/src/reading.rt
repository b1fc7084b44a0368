// A start-up message read, item by item.
ghost use Rattle.std.specs.Prelude.{◌≡◌, false, List, ℕ, ◌+◌, ◌*◌, ◌/◌, ◌≤◌, Err, length};
ghost use Rattle.numbers.specs.Limit.{init_words, most_message};
ghost use Rattle.numbers.specs.Refused.{number_of};
ghost use Rattle.init.specs.Phases.{reach, grown, ends};
ghost use Rattle.init.specs.Read.{Reading, init_read};
ghost use Rattle.init.specs.Read.{Reading as reading};
ghost use Rattle.init.specs.Back.{back_is, read_back, Finished, Zeros};
ghost use Rattle.init.specs.Lent.{Same};
ghost use Rattle.init.specs.Reads.{words_in, width_in, slot_index, Carried, Reads, Turned, Ran, whole};

use crate::items::{Found, Words, item_in, words_of};
use crate::lent::Lent;
use crate::phases::{is_end, next, row};
use crate::{Phase, Slot};
use numbers::limit;
use numbers::refusal::{Fault, Refusal};

// Where a reading is: the next item, its byte, and the words of codecs so far.
#[derive(Clone, Copy)]
pub struct State {
    pub phase: Phase,
    pub at: usize,
    pub used: usize,
}

// The words of an item stored, and the state behind it: its number is v, and it ends at q.
#[tactic(auto, unfolding(crate::specs::Reads::store_is))]
fn store_item(
    lent: &mut Lent<'_>,
    st: State,
    slot: Slot,
    w: Words,
    v: u16,
    q: usize,
) -> Result<State, Refusal>
    requires room { slot_index slot + width_in w ≤ init_words }
    requires lies { grown st.phase v ≤ init_words }
    ensures same { Same lent.old lent.new }
    ensures carried { Carried slot (words_in w) st v q lent.old.init.now lent.old.codecs.now result lent.new.init.now
        lent.new.codecs.now }
{
    match lent.keep(slot, st.used, w) {
        None => Err(Refusal::EventRoom),
        Some(used) => Ok(State {
            phase: next(st.phase, u32::from(v)),
            at: q,
            used,
        }),
    }
}

// One item read, and its words stored.
fn read_item(message: &[u8], lent: &mut Lent<'_>, st: State) -> Result<State, Refusal>
    requires few { length message.now ≤ most_message }
    requires lies { reach st.phase ≤ init_words }
    requires goes { ends st.phase ≡ false }
    ensures same { Same lent.old lent.new }
    ensures turned { (b : List ℕ) (answer : Reading)
        → Reads message.now b (length message.now) answer st lent.old.init.now lent.old.codecs.now
        → Turned message.now b (length message.now) answer st result lent.new.init.now lent.new.codecs.now }
{
    let (item, slot) = row(st.phase);
    let found = item_in(item, message, st.at)?;
    let w = words_of(item, found.number, found.content);
    store_item(lent, st, slot, w, found.number, found.end)
}

// Item by item up to the end, or to a refusal and its byte.
fn read_items(message: &[u8], lent: &mut Lent<'_>) -> Result<State, Fault<usize>>
    requires few { length message.now ≤ most_message }
    ensures same { Same lent.old lent.new }
    ensures ran { Ran lent.old.codecs.now (length message.now)
        (whole message.now lent.old.codecs.now (length message.now) lent.old.init.now) result
        lent.new.init.now lent.new.codecs.now }
{
    let mut st = State {
        phase: Phase::Profile,
        at: 0,
        used: 0,
    };
    while !is_end(st.phase) {
        match read_item(message, lent, st) {
            Err(why) => {
                return Err(Fault { why, at: st.at });
            }
            Ok(then) => {
                st = then;
            }
        }
    }
    Ok(st)
}

// A refusal leaves nothing but zeros. It is told at a bit.
#[tactic(auto, unfolding(crate::specs::Back::read_back, crate::specs::Back::number_in, crate::specs::Back::place_in, crate::specs::Back::count_in))]
fn refuse(lent: &mut Lent<'_>, why: Refusal, at: usize) -> Fault<usize>
    requires { at ≤ most_message }
    ensures same { Same lent.old lent.new }
    ensures back { back_is (Err result) lent.new.init.now lent.new.codecs.now
        ≡ read_back (length lent.old.codecs.now) (reading.refused (number_of why) at) }
{
    lent.clear();
    Fault { why, at: 8 * at }
}

// At the end of the items: no byte may be left.
#[tactic(auto, unfolding(crate::specs::Back::Finished, crate::specs::Back::number_in, crate::specs::Back::place_in, crate::specs::Back::count_in))]
fn finish(bytes: usize, lent: &mut Lent<'_>, at: usize, used: usize) -> Result<usize, Fault<usize>>
    requires { (at ≤ most_message) × (used ≤ 2 * at) }
    ensures same { Same lent.old lent.new }
    ensures finished { Finished bytes at used lent.old.init.now lent.old.codecs.now
        (back_is result lent.new.init.now lent.new.codecs.now) }
{
    if at < bytes {
        return Err(refuse(lent, Refusal::LeftOver, at));
    }
    lent.init[7] = used as u32;
    Ok(used)
}

// A message read up to the wall, where both buffers are zeros.
fn read_up_to_wall(message: &[u8], lent: &mut Lent<'_>) -> Result<usize, Fault<usize>>
    requires { Zeros lent.old.codecs.now lent.old.init.now }
    ensures same { Same lent.old lent.new }
    ensures back { back_is result lent.new.init.now lent.new.codecs.now
        ≡ read_back (length lent.old.codecs.now)
        (init_read message.now (length lent.old.codecs.now / 4)) }
{
    let wall = message.len().min(limit::MOST_MESSAGE);
    match read_items(&message[..wall], lent) {
        Err(fault) => Err(refuse(lent, fault.why, fault.at)),
        Ok(st) => finish(message.len(), lent, st.at, st.used),
    }
}

// A message read into the words of init and of codecs: how many of codecs, or a refusal at a bit of the message.
pub fn read(message: &[u8], codecs: &mut [u8], init: &mut [u32]) -> Result<usize, Fault<usize>>
    requires { length init.old ≡ init_words }
    ensures { back_is result init.new codecs.new
        ≡ read_back (length codecs.old)
        (init_read message.now (length codecs.old / 4)) }
{
    let mut lent = Lent { init, codecs };
    lent.clear();
    read_up_to_wall(message, &mut lent)
}
