// A payload read over bytes: by the bytes of a table, into events as bytes and texts, with the answer told in the area; or added to a report.
#![tactic(auto)]

pub mod reports; // reports.rt: what a reading comes to, added

ghost use Rattle.std.specs.Prelude.{◌≡◌, length, ◌*◌, ◌≤◌, min};
ghost use Rattle.numbers.specs.Limit as limit;
ghost use Rattle.numbers.specs.Limit.{most_event_words, most_names, most_table_words};
ghost use Rattle.numbers.specs.Refused.{answered};
ghost use Rattle.reader.specs.Answers.{answer_is};
ghost use Rattle.call_parts.specs.Promises.{Fits, Told};
ghost use Rattle.call_parts.specs.EventRoom.{slot_words};
ghost use Rattle.reads.specs.Promises.{ReadByBytes, ReadByWords, ReadIfRoom, ReadInto, Slots};

use buffers::{clear, load, store};
use call_parts::area::tell;
use call_parts::asked::{Asked, In, Out, Room, Words};
use call_parts::rooms::{
    FEW_EVENT_WORDS, LEAST_EVENT_WORDS, LEAST_PAYLOAD, SMALL_PAYLOAD, with_event_room,
    with_table_room,
};
use call_parts::tables::{is_whole, judge_and_tell};
use numbers::refusal::Refusal;
use numbers::{limit, refusal};
use reader::{Reading, Refused, read};

// The words that are lent for events: four for each that has room.
fn slot_words(bytes: usize) -> usize
    ensures words { result ≡ slot_words bytes }
    ensures most { result ≤ most_event_words }
    ensures fits { 4 * result ≤ bytes }
{
    let n = bytes / limit::EVENT;
    if n < limit::MOST_EVENTS {
        return 4 * n;
    }
    limit::MOST_EVENT_WORDS
}

// Tells what the reader answered; only why it refuses is given back.
fn tell_answer(area: &mut [u8], a: Result<Reading, Refused>) -> Result<(), Refusal>
    requires { (length area.old ≡ limit.area) × (length (answer_is a).path ≤ most_names) }
    ensures { Told area (answer_is a) (answered result) }
{
    match a {
        Ok(r) => {
            tell(area, 0, r.mode, r.events, r.text.0, r.bits.0, &[]);
            Ok(())
        }
        Err(r) => {
            tell(area, r.fault.at, 0, 0, 0, 0, &r.path.names[..r.path.count]);
            Err(r.fault.why)
        }
    }
}

// The words of the events that were stored.
fn words_stored(a: Result<Reading, Refused>) -> usize
    ensures { result ≡ 4 * (answer_is a).events }
{
    match a {
        Ok(r) => 4 * (r.events as usize),
        Err(_) => 0,
    }
}

// Reads by a table's words into the words lent for events, stores those of its events as bytes, with zeros behind them, and
// tells the answer.
fn read_into(
    words: Words,
    by: Asked,
    payload: In,
    list: Room,
    events: Out,
    texts: Out,
    area: Out,
) -> Result<(), Refusal>
    requires fits { 4 * length list.old ≤ length events.old }
    requires told { length area.old ≡ limit.area }
    ensures { ReadInto words by payload (length list.old) events texts area (answered result) }
{
    let a = read(words, by.party, by.name, by.ty, payload, list, texts);
    let k = words_stored(a);
    store(&list[..k], events);
    clear(&mut events[4 * k..]);
    tell_answer(area, a)
}

// Reads in room for events that may not suffice, of which no more is used than the host lends.
fn try_room(
    words: Words,
    by: Asked,
    payload: In,
    room: Room,
    events: Out,
    texts: Out,
    area: Out,
) -> Result<(), Refusal>
    requires { length area.old ≡ limit.area }
    ensures { ReadIfRoom words by payload room events texts area (answered result) }
{
    let m = slot_words(events.len()).min(room.len());
    read_into(words, by, payload, &mut room[..m], events, texts, area)
}

// Reads in room for every event that the host lends room for.
fn read_in_room(
    words: Words,
    by: Asked,
    payload: In,
    room: Room,
    events: Out,
    texts: Out,
    area: Out,
) -> Result<(), Refusal>
    requires { Slots events area (length room.old) }
    ensures { ReadByWords words by payload events texts area (answered result) }
{
    try_room(words, by, payload, room, events, texts, area)
}

// Reads with room for every event that the host lends room for.
fn read_events(
    words: Words,
    by: Asked,
    payload: In,
    events: Out,
    texts: Out,
    area: Out,
) -> Result<(), Refusal>
    requires { length area.old ≡ limit.area }
    ensures { ReadByWords words by payload events texts area (answered result) }
{
    let m = slot_words(events.len());
    with_event_room(
        m,
        &mut |room| read_in_room(words, by, payload, room, events, texts, area),
    )
}

// Reads with room for few events; and again, with room for all, where it does not suffice.
fn read_few_first(
    words: Words,
    by: Asked,
    payload: In,
    events: Out,
    texts: Out,
    area: Out,
) -> Result<(), Refusal>
    requires { length area.old ≡ limit.area }
    ensures { ReadByWords words by payload events texts area (answered result) }
{
    let mut room = [0u32; FEW_EVENT_WORDS];
    let read = try_room(words, by, payload, &mut room, events, texts, area);
    if read != Err(Refusal::EventRoom) {
        return read;
    }
    read_events(words, by, payload, events, texts, area)
}

// Reads with the least room, and again where it does not suffice.
fn read_least_first(
    words: Words,
    by: Asked,
    payload: In,
    events: Out,
    texts: Out,
    area: Out,
) -> Result<(), Refusal>
    requires { length area.old ≡ limit.area }
    ensures { ReadByWords words by payload events texts area (answered result) }
{
    let mut room = [0u32; LEAST_EVENT_WORDS];
    let read = try_room(words, by, payload, &mut room, events, texts, area);
    if read != Err(Refusal::EventRoom) {
        return read;
    }
    read_few_first(words, by, payload, events, texts, area)
}

// Reads in room for events: little where the host lends little, or where the payload is small, as it seldom has more.
fn read_with_event_room(
    words: Words,
    by: Asked,
    payload: In,
    events: Out,
    texts: Out,
    area: Out,
) -> Result<(), Refusal>
    requires { length area.old ≡ limit.area }
    ensures { ReadByWords words by payload events texts area (answered result) }
{
    if payload.len() <= LEAST_PAYLOAD {
        return read_least_first(words, by, payload, events, texts, area);
    }
    if payload.len() <= SMALL_PAYLOAD && FEW_EVENT_WORDS < slot_words(events.len()) {
        return read_few_first(words, by, payload, events, texts, area);
    }
    read_events(words, by, payload, events, texts, area)
}

// Reads by a table's bytes, in room lent for its words.
fn read_with_table_room(
    table: In,
    room: Room,
    by: Asked,
    payload: In,
    events: Out,
    texts: Out,
    area: Out,
) -> Result<(), Refusal>
    requires { Fits 4 table area (length room.old) }
    ensures { ReadByBytes table by payload events texts area (answered result) }
{
    let n = table.len() / 4;
    load(table, room, n);
    read_with_event_room(&room[..n], by, payload, events, texts, area)
}

// Reads by a table's bytes, in room for all its words.
fn read_whole(
    table: In,
    by: Asked,
    payload: In,
    events: Out,
    texts: Out,
    area: Out,
) -> Result<(), Refusal>
    requires { Fits 4 table area most_table_words }
    ensures { ReadByBytes table by payload events texts area (answered result) }
{
    with_table_room(
        table.len() / 4,
        &mut |room| read_with_table_room(table, room, by, payload, events, texts, area),
    )
}

// Reads by a table's bytes, and refuses those of which there are too many, or no whole words.
pub fn read_bytes(table: In, by: Asked, payload: In, events: Out, texts: Out, area: Out) -> u32
    requires { length area.old ≡ limit.area }
    ensures { ReadByBytes table by payload events texts area result }
{
    if is_whole(table.len()) {
        return match read_whole(table, by, payload, events, texts, area) {
            Ok(()) => refusal::ACCEPTED,
            Err(why) => why.number(),
        };
    }
    clear(events);
    clear(texts);
    judge_and_tell(table, area)
}
