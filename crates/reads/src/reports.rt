// A payload read, and what its reading comes to added to a report.
ghost use Rattle.std.specs.Prelude.{◌≡◌, ◌*◌, ◌≤◌, length, take};
ghost use Rattle.numbers.specs.Limit.{most_table_words};
ghost use Rattle.numbers.specs.Refused.{answered};
ghost use Rattle.report.specs.Answers.{bits_used, words_read};
ghost use Rattle.report.specs.Places.{report_bytes};
ghost use Rattle.reader.specs.Answers.{answer_is};
ghost use Rattle.call_parts.specs.TableRoom.{Lends};
ghost use Rattle.reads.specs.Reports.{AddedBytes, ReadInWords};

use buffers::load;
use call_parts::asked::{Asked, In, Out, Room};
use call_parts::rooms::with_table_room;
use call_parts::tables::words_lent;
use numbers::refusal::Refusal;
use numbers::{limit, refusal};
use reader::{Reading, Refused, read};
use report::{Used, add};

// Reads into words by a table's bytes: the n words of it that are looked at, in room lent for them.
fn read_in_room(
    table: In,
    n: usize,
    room: Room,
    by: Asked,
    payload: In,
    list: Room,
    texts: Out,
) -> Result<Reading, Refused>
    requires { Lends n (length table.now) (length room.old) }
    ensures { ReadInWords table n by payload list texts result }
{
    load(table, room, n);
    read(&room[..n], by.party, by.name, by.ty, payload, list, texts)
}

// The same in room for the words of the table that are looked at.
fn read_words(
    table: In,
    n: usize,
    by: Asked,
    payload: In,
    list: Room,
    texts: Out,
) -> Result<Reading, Refused>
    requires { Lends n (length table.now) most_table_words }
    ensures { ReadInWords table n by payload list texts result }
{
    with_table_room(
        n,
        &mut |room| read_in_room(table, n, room, by, payload, list, texts),
    )
}

// What a reading into words adds.
fn counted(a: Result<Reading, Refused>, list: &[u32]) -> Result<Used<'_>, Refusal>
    requires { 4 * (answer_is a).events ≤ length list.now }
    ensures number { answered result ≡ (answer_is a).number }
    ensures bits { bits_used result ≡ (answer_is a).bits }
    ensures words { words_read result ≡ take (4 * (answer_is a).events) list.now }
{
    match a {
        Ok(r) => Ok(Used {
            bits: u64::from(r.bits.0),
            words: &list[..4 * r.events as usize],
        }),
        Err(r) => Err(r.fault.why),
    }
}

// Reads by a table's bytes, with room for every event that has a place, and adds what was read. The table's words and the reader's frames have
// ended where the report's begin, so that the stack holds the one or the other.
pub fn add_bytes(table: In, by: Asked, payload: In, report: Out) -> u32
    requires { length report.old ≡ report_bytes }
    ensures { AddedBytes table by payload report result }
{
    let mut list = [0u32; limit::MOST_EVENT_WORDS];
    let mut texts = [0u8; limit::MOST_PAYLOAD];
    let n = words_lent(table.len());
    let a = read_words(table, n, by, payload, &mut list, &mut texts);
    let read = counted(a, &list);
    add(report, payload.len() as u64, read);
    match read {
        Ok(_) => refusal::ACCEPTED,
        Err(why) => why.number(),
    }
}
