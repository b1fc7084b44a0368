// A list written over bytes: by the bytes of a table, from events as bytes and texts, with the answer told in the area.
#![tactic(auto)]

ghost use Rattle.std.specs.Prelude.{◌≡◌, ◌≤◌, length};
ghost use Rattle.numbers.specs.Limit as limit;
ghost use Rattle.numbers.specs.Limit.{most_event_words, most_table_words};
ghost use Rattle.writer.specs.Answers.{answer_is};
ghost use Rattle.call_parts.specs.Promises.{Fits, Told};
ghost use Rattle.writes.specs.Promises.{Unlisted, WrittenByBytes, WrittenByWords};

use buffers::{clear, load};
use call_parts::area::{tell, tell_place};
use call_parts::asked::{In, Order, Out, Room, Words};
use call_parts::rooms::{with_event_room, with_table_room};
use call_parts::tables::{is_whole, judge_and_tell};
use numbers::refusal::{Fault, Refusal};
use numbers::{limit, refusal};
use writer::{Written, write};

// What the writer answered, which has no path.
fn tell_written(area: &mut [u8], a: Result<Written, Fault<usize>>) -> u32
    requires { length area.old ≡ limit.area }
    ensures { Told area (answer_is a) result }
{
    match a {
        Ok(w) => {
            tell(area, 0, w.mode, w.events, w.text.0, w.bits.0, &[]);
            refusal::ACCEPTED
        }
        Err(f) => {
            tell_place(area, f.at);
            f.why.number()
        }
    }
}

// Refuses bytes that are no list: one word is none either, and is refused where they are. The place of NO_READING is n.
fn refuse_unlisted(n: usize, words: Words, by: Order, texts: In, payload: Out, area: Out) -> u32
    requires { length area.old ≡ limit.area }
    ensures { Unlisted n words by texts payload area result }
{
    let none = [0u32; 1];
    let a = write(
        words, by.party, by.name, by.ty, by.mode, &none, texts, payload,
    );
    let Err(fault) = a else {
        return tell_written(area, a);
    };
    match fault.why {
        Refusal::NoReading => tell_written(area, Err(Fault { at: n, ..fault })),
        _ => tell_written(area, a),
    }
}

// Loads a list's bytes as words, in room lent for them, writes them, and tells the answer.
fn write_in_room(
    words: Words,
    by: Order,
    events: In,
    room: Room,
    texts: In,
    payload: Out,
    area: Out,
) -> u32
    requires { Fits limit.event events area (length room.old) }
    ensures { WrittenByWords words by events texts payload area result }
{
    let k = events.len() / 4;
    load(events, room, k);
    let a = write(
        words,
        by.party,
        by.name,
        by.ty,
        by.mode,
        &room[..k],
        texts,
        payload,
    );
    tell_written(area, a)
}

// Writes a list's bytes by a table's words, in room for all its events.
fn write_with_event_room(
    words: Words,
    by: Order,
    events: In,
    texts: In,
    payload: Out,
    area: Out,
) -> u32
    requires { length area.old ≡ limit.area }
    ensures { WrittenByWords words by events texts payload area result }
{
    let size = events.len();
    let over = size % limit::EVENT;
    let n = size / limit::EVENT;
    if over != 0 {
        return refuse_unlisted(n, words, by, texts, payload, area);
    }
    if limit::MOST_EVENTS < n {
        return refuse_unlisted(n, words, by, texts, payload, area);
    }
    with_event_room(
        size / 4,
        &mut |room| write_in_room(words, by, events, room, texts, payload, area),
    )
}

// Writes by a table's bytes, in room lent for its words.
fn write_with_table_room(
    table: In,
    room: Room,
    by: Order,
    events: In,
    texts: In,
    payload: Out,
    area: Out,
) -> u32
    requires { Fits 4 table area (length room.old) }
    ensures { WrittenByBytes table by events texts payload area result }
{
    let n = table.len() / 4;
    load(table, room, n);
    write_with_event_room(&room[..n], by, events, texts, payload, area)
}

// Writes by a table's bytes, in room for all its words.
fn write_whole(table: In, by: Order, events: In, texts: In, payload: Out, area: Out) -> u32
    requires { Fits 4 table area most_table_words }
    ensures { WrittenByBytes table by events texts payload area result }
{
    with_table_room(
        table.len() / 4,
        &mut |room| write_with_table_room(table, room, by, events, texts, payload, area),
    )
}

// Writes by a table's bytes, and refuses those of which there are too many, or no whole words.
pub fn write_bytes(table: In, by: Order, events: In, texts: In, payload: Out, area: Out) -> u32
    requires { length area.old ≡ limit.area }
    ensures { WrittenByBytes table by events texts payload area result }
{
    if is_whole(table.len()) {
        return write_whole(table, by, events, texts, payload, area);
    }
    clear(payload);
    judge_and_tell(table, area)
}
