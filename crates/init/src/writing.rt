// A start-up message written, item by item.
ghost use Rattle.std.specs.Prelude.{◌≡◌, false, List, ℕ, ◌+◌, ◌/◌, ◌≤◌, ◌<◌, Err, length, replicate, get_or};
ghost use Rattle.buffers.specs.Bytes.{words_of};
ghost use Rattle.numbers.specs.Limit.{init_words, most_vlu8, most_word};
ghost use Rattle.numbers.specs.Refused.{number_of};
ghost use Rattle.init.specs.declared.Item.TheVariants as item;
ghost use Rattle.init.specs.Items as items;
ghost use Rattle.init.specs.Write as meaning;
ghost use Rattle.init.specs.Write.{Writing, init_write};
ghost use Rattle.init.specs.Write.{Writing as writings};
ghost use Rattle.init.specs.Made.{made, made_is, write_back, Closed};
ghost use Rattle.init.specs.Phases.{item_of, reach, grown, ends};
ghost use Rattle.init.specs.Reads.{slot_index};
ghost use Rattle.init.specs.Writes.{Put, Worded, Writes, Stepped, Written, wholly, UsesIs, value_is, value_in, most_of, page};

use crate::page::{Numbered, Page};
use crate::phases::{is_end, next, row};
use crate::{Item, Phase, Slot};
use buffers::{clear, word};
use numbers::limit;
use numbers::refusal::{Fault, Refusal};

const MOST_VLU8: u16 = limit::MOST_VLU8 as u16;

const MOST_FORMATS: u16 = limit::MOST_FORMATS as u16;

// A number that is at most so much, of a word: here and below at says which of an item's words is at fault.
#[tactic(auto, unfolding(crate::specs::Writes::value_is, crate::specs::Writes::value_in))]
fn within(v: u32, most: u16, at: u8) -> Result<u16, Fault<u8>>
    ensures is { value_is result ≡ meaning.within v most at }
    ensures small { value_in result ≤ most }
{
    if v <= u32::from(most) {
        return Ok(v as u16);
    }
    Err(Fault {
        why: Refusal::OutsideRow,
        at,
    })
}

// The unit byte.
#[tactic(auto, unfolding(crate::specs::Write::value_of, crate::specs::Writes::value_is, crate::specs::Writes::value_in))]
fn unit_of(a: u32, b: u32) -> Result<u16, Fault<u8>>
    ensures is { value_is result ≡ meaning.value_of item.UnitByte a b }
    ensures small { value_in result ≤ 255 }
{
    if limit::MOST_UNIT < a {
        return Err(Fault {
            why: Refusal::OutsideRow,
            at: 0,
        });
    }
    if b == 0 {
        return Ok(32 * a as u16 + 31);
    }
    Ok(32 * a as u16 + 15)
}

// The bytes of the flags.
#[tactic(auto, unfolding(crate::specs::Write::value_of, crate::specs::Writes::value_is, crate::specs::Writes::value_in))]
fn length_of(a: u32) -> Result<u16, Fault<u8>>
    ensures is { value_is result ≡ meaning.value_of item.Length a 0 }
    ensures small { value_in result ≤ most_vlu8 }
{
    if a % 8 == 1 {
        return within(a / 8 + 1, MOST_VLU8, 0);
    }
    Err(Fault {
        why: Refusal::OutsideRow,
        at: 0,
    })
}

// The flags.
#[tactic(auto, unfolding(crate::specs::Write::value_of, crate::specs::Writes::value_is, crate::specs::Writes::value_in))]
fn flags_of(a: u32, b: u32) -> Result<u16, Fault<u8>>
    ensures is { value_is result ≡ meaning.value_of (item.Flags 0) a b }
    ensures small { value_in result ≤ 255 }
{
    if 127 < a {
        return Err(Fault {
            why: Refusal::OutsideRow,
            at: 0,
        });
    }
    if a / 8 % 8 != 0 {
        return Err(Fault {
            why: Refusal::AdvancedFlag,
            at: 0,
        });
    }
    if b != 0 {
        return Err(Fault {
            why: Refusal::OutsideRow,
            at: 1,
        });
    }
    Ok(2 * a as u16)
}

// The number of schemas.
#[tactic(auto, unfolding(crate::specs::Write::value_of, crate::specs::Writes::value_is, crate::specs::Writes::value_in))]
fn schemas_of(a: u32) -> Result<u16, Fault<u8>>
    ensures is { value_is result ≡ meaning.value_of item.Schemas a 0 }
    ensures small { value_in result ≤ most_vlu8 }
{
    if a == 0 {
        return Err(Fault {
            why: Refusal::NoSchemas,
            at: 0,
        });
    }
    if limit::MOST_SCHEMAS < a {
        return Err(Fault {
            why: Refusal::ManySchemas,
            at: 0,
        });
    }
    Ok(a as u16)
}

// The count of a stretch that is not empty.
#[tactic(auto, unfolding(crate::specs::Write::value_of, crate::specs::Writes::value_is, crate::specs::Writes::value_in))]
fn uri_of(b: u32) -> Result<u16, Fault<u8>>
    ensures is { value_is result ≡ meaning.value_of item.Uri 0 b }
    ensures small { value_in result ≤ most_vlu8 }
{
    if b == 0 {
        return Err(Fault {
            why: Refusal::OutsideRow,
            at: 1,
        });
    }
    within(b, MOST_VLU8, 1)
}

// Words that say that there are no flags.
#[tactic(auto, unfolding(crate::specs::Write::value_of, crate::specs::Writes::value_is, crate::specs::Writes::value_in))]
fn no_flags(a: u32, b: u32) -> Result<u16, Fault<u8>>
    ensures is { value_is result ≡ meaning.value_of item.NoFlags a b }
    ensures small { value_in result ≤ 0 }
{
    if a != 0 {
        return Err(Fault {
            why: Refusal::OutsideRow,
            at: 0,
        });
    }
    if b != 0 {
        return Err(Fault {
            why: Refusal::OutsideRow,
            at: 1,
        });
    }
    Ok(0)
}

// A word that says that there are no formats.
#[tactic(auto, unfolding(crate::specs::Write::value_of, crate::specs::Writes::value_is, crate::specs::Writes::value_in))]
fn no_formats(a: u32) -> Result<u16, Fault<u8>>
    ensures is { value_is result ≡ meaning.value_of item.NoFormats a 0 }
    ensures small { value_in result ≤ 0 }
{
    if a != 0 {
        return Err(Fault {
            why: Refusal::OutsideRow,
            at: 0,
        });
    }
    Ok(0)
}

// An item's number.
#[tactic(auto, unfolding(crate::specs::Write::value_of, crate::specs::Writes::most_of, crate::specs::Items::head_of))]
fn value_of(item: Item, a: u32, b: u32) -> Result<u16, Fault<u8>>
    ensures is { value_is result ≡ meaning.value_of item a b }
    ensures small { value_in result ≤ most_of (items.head_of item) }
{
    match item {
        Item::Number => within(a, MOST_VLU8, 0),
        Item::UnitByte => unit_of(a, b),
        Item::Length => length_of(a),
        Item::Flags(_) => flags_of(a, b),
        Item::Schemas => schemas_of(a),
        Item::Uri => uri_of(b),
        Item::Text => within(b, MOST_VLU8, 1),
        Item::Formats => within(b, MOST_FORMATS, 1),
        Item::NoFlags => no_flags(a, b),
        Item::NoFormats => no_formats(a),
    }
}

// Where a writing is: the next item, the words of codecs used, and where the next byte goes.
#[derive(Clone, Copy)]
pub struct Desk {
    pub phase: Phase,
    pub used: usize,
    pub ink: Option<usize>,
}

// What a message is written from: the words of init, all of them, the bytes of codecs, of which each word counts, and the bytes given.
#[derive(Clone, Copy)]
struct Sources<'a> {
    init: &'a [u32],
    codecs: &'a [u8],
    given: &'a [u8],
    ghost whole: { length init.now ≡ init_words },
    ghost few: { length codecs.now / 4 ≤ most_word },
}

// A word at an item's slot, 0 where there is none.
#[tactic(auto, unfolding(crate::specs::Write::word_in, crate::specs::Reads::slot_index))]
fn word_in(from: Sources<'_>, slot: Slot, used: usize, k: usize) -> u32
    requires { (k < 2) × (used ≤ length from.codecs.now / 4) × (slot_index slot ≤ init_words) }
    ensures { result ≡ meaning.word_in slot from.entry.init.now (words_of from.entry.codecs.now) used k }
{
    match slot {
        Slot::Init(i) => from.init.get(i + k).copied().unwrap_or(0),
        Slot::Codecs => {
            let j = used + k;
            if j < from.codecs.len() / 4 {
                word(from.codecs, 4 * j)
            } else {
                0
            }
        }
    }
}

// The words of an item.
#[tactic(auto, unfolding(crate::specs::Items::two))]
fn width_of(item: Item) -> usize
    ensures { (result ≡ meaning.width item) × (result ≤ 2) }
{
    match item {
        Item::Flags(_) | Item::Uri | Item::Text | Item::Formats | Item::NoFlags => 2,
        _ => 1,
    }
}

// The words of codecs used behind an item, if its own are all there.
#[tactic(auto, unfolding(crate::specs::Write::used_by, crate::specs::Write::there_of))]
fn uses(slot: Slot, item: Item, n: usize, used: usize) -> Option<usize>
    requires { (used ≤ n) × (n ≤ most_word) }
    ensures { UsesIs slot item n used result }
{
    match slot {
        Slot::Init(_) => Some(used),
        Slot::Codecs => {
            let w = width_of(item);
            if n - used < w {
                return None;
            }
            Some(used + w)
        }
    }
}

// A word's index.
#[tactic(auto, unfolding(crate::specs::Write::index))]
fn index(slot: Slot, used: usize) -> usize
    requires { used ≤ most_word }
    ensures { result ≡ meaning.index slot used }
{
    match slot {
        Slot::Init(i) => i,
        Slot::Codecs => limit::INIT_WORDS + used,
    }
}

// An item's words a and b, the index of a, and how many words of codecs are used behind them.
#[derive(Clone, Copy)]
struct Entry {
    a: u32,
    b: u32,
    at: usize,
    used: usize,
    ghost near: { at ≤ init_words + most_word },
}

// An item written by its number and its words.
fn write_value(
    given: &[u8],
    message: &mut [u8],
    st: Desk,
    n: Numbered,
    entry: Entry,
) -> Result<Desk, Fault<usize>>
    requires { grown st.phase n.number ≤ init_words }
    ensures { Put n.item given.now st entry.a n.number entry.used entry.at message.old result message.new }
{
    if n.lies_in(given.len(), entry.a) {
        let mut page = Page {
            message,
            ink: st.ink,
        };
        page.put_item(given, n, entry.a);
        return Ok(Desk {
            phase: next(st.phase, u32::from(n.number)),
            used: entry.used,
            ink: page.ink,
        });
    }
    Err(Fault {
        why: Refusal::TextBytes,
        at: entry.at + 1,
    })
}

// An item written by its words.
fn write_words(
    given: &[u8],
    message: &mut [u8],
    st: Desk,
    item: Item,
    entry: Entry,
) -> Result<Desk, Fault<usize>>
    requires item { item ≡ item_of st.phase }
    requires lies { reach st.phase ≤ init_words }
    ensures { Worded item given.now st entry.a entry.b entry.used entry.at message.old result message.new }
{
    match value_of(item, entry.a, entry.b) {
        Err(fault) => Err(Fault {
            why: fault.why,
            at: entry.at + usize::from(fault.at),
        }),
        Ok(number) => write_value(given, message, st, Numbered { item, number }, entry),
    }
}

// One item written.
fn write_item(from: Sources<'_>, message: &mut [u8], st: Desk) -> Result<Desk, Fault<usize>>
    requires used { st.used ≤ length from.codecs.now / 4 }
    requires lies { reach st.phase ≤ init_words }
    requires goes { ends st.phase ≡ false }
    ensures { (m₀ : List ℕ) (answer : Writing)
        → Writes from.entry.init.now (words_of from.entry.codecs.now) from.entry.given.now m₀ answer st message.old
        → Stepped from.entry.init.now (words_of from.entry.codecs.now) from.entry.given.now (length from.entry.codecs.now / 4) m₀
        answer st result message.new }
{
    let (item, slot) = row(st.phase);
    let n = from.codecs.len() / 4;
    match uses(slot, item, n, st.used) {
        None => Err(Fault {
            why: Refusal::NoReading,
            at: limit::INIT_WORDS + n,
        }),
        Some(used) => {
            let entry = Entry {
                a: word_in(from, slot, st.used, 0),
                b: word_in(from, slot, st.used, 1),
                at: index(slot, st.used),
                used,
            };
            write_words(from.given, message, st, item, entry)
        }
    }
}

// Item by item up to the end, or to a refusal at a word.
fn write_items(from: Sources<'_>, message: &mut [u8]) -> Result<Desk, Fault<usize>>
    ensures { Written message.old (length from.entry.codecs.now / 4) (wholly from.entry.init.now (words_of from.entry.codecs.now)
        from.entry.given.now) result message.new }
{
    let mut st = Desk {
        phase: Phase::Profile,
        used: 0,
        ink: Some(0),
    };
    while !is_end(st.phase) {
        st = write_item(from, message, st)?;
    }
    Ok(st)
}

// A refusal, whatever its number, leaves nothing but zeros, and counts nothing.
#[tactic(auto, unfolding(crate::specs::Made::write_back))]
pub fn refuse(message: &mut [u8], number: u32, place: usize) -> (u32, usize)
    ensures told { result ≡ (number, place) }
    ensures left { made number place 0 message.new ≡ write_back (length message.old) (writings.refused number place) }
{
    clear(message);
    (number, place)
}

// The same of a refusal by its name.
#[tactic(auto, unfolding(crate::specs::Made::write_back, crate::specs::Back::number_in, crate::specs::Back::place_in, crate::specs::Back::count_in))]
pub(crate) fn refuse_at(message: &mut [u8], why: Refusal, at: usize) -> Fault<usize>
    ensures { made_is (Err result) message.new ≡ write_back (length message.old) (writings.refused (number_of why) at) }
{
    refuse(message, why.number(), at);
    Fault { why, at }
}

// At the end of the items: no word of codecs may be left, and the message must have had room.
#[tactic(auto, unfolding(crate::specs::Made::Closed, crate::specs::Made::ended, crate::specs::Back::number_in, crate::specs::Back::place_in, crate::specs::Back::count_in))]
fn finish(
    message: &mut [u8],
    n: usize,
    used: usize,
    ink: Option<usize>,
) -> Result<usize, Fault<usize>>
    requires { (used ≤ n) × (n ≤ most_word) }
    ensures { Closed n used (page message.old ink) (made_is result message.new) }
{
    if used < n {
        return Err(refuse_at(message, Refusal::NoReading, limit::INIT_WORDS + used));
    }
    match ink {
        None => Err(refuse_at(message, Refusal::PayloadRoom, 0)),
        Some(at) => Ok(at),
    }
}

// The items written on a cleared page: all words of codecs are the message's.
fn write_cleared(from: Sources<'_>, message: &mut [u8]) -> Result<usize, Fault<usize>>
    requires count { length from.codecs.now / 4 ≡ get_or from.init.now 7 0 }
    requires zeros { message.old ≡ replicate (length message.old) 0 }
    ensures { made_is result message.new
        ≡ write_back (length message.old)
        (init_write from.entry.init.now (words_of from.entry.codecs.now) from.entry.given.now
        (length message.old)) }
{
    match write_items(from, message) {
        Err(fault) => Err(refuse_at(message, fault.why, fault.at)),
        Ok(st) => finish(message, from.codecs.len() / 4, st.used, st.ink),
    }
}

// A message written from the words of init and of codecs, whose stretches lie in the bytes given: how many bytes, or a refusal at a word.
pub fn write(
    init: &[u32],
    codecs: &[u8],
    given: &[u8],
    message: &mut [u8],
) -> Result<usize, Fault<usize>>
    requires { length init.now ≡ init_words }
    ensures { made_is result message.new
        ≡ write_back (length message.old)
        (init_write init.now (words_of codecs.now) given.now
        (length message.old)) }
{
    let n = init[7] as usize;
    if codecs.len() / 4 < n {
        return Err(refuse_at(message, Refusal::NoReading, 7));
    }
    clear(message);
    let from = Sources {
        init,
        codecs: &codecs[..4 * n],
        given,
    };
    write_cleared(from, message)
}
