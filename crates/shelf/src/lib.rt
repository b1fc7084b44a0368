// Shelf files: records kept on disc in blocks of 512 bytes, each with its own check. A stream is the records one after another.
#![tactic(auto)]

pub mod answers;
mod block;
pub mod calls;
mod judge;
mod rescue;
mod reseal;
mod stream;
mod sums;

ghost use Rattle.std.specs.Prelude.{◌≡◌, ◌*◌, ◌≤◌, ◌++◌, length, drop, Err};
ghost use Rattle.numbers.specs.Limit.{block_data};
ghost use Rattle.numbers.specs.Refusal.{block_layout, payload_room};
ghost use Rattle.shelf.specs.Block.{bytes_from, blocks_for};
ghost use Rattle.shelf.specs.Stream.{byte_at, fault};
ghost use Rattle.shelf.specs.Judge.{byte_of, blocks};
ghost use Rattle.shelf.specs.Answers.{answer_of, rescued_of};
ghost use Rattle.shelf.specs.Shelf.{Done, refuses, lacking, shelf_write, shelf_read};
ghost use Rattle.shelf.specs.Salvage as meaning;
ghost use Rattle.shelf.specs.Rescue as promises;
ghost use Rattle.shelf.specs.Rescue.{has_room};

use answers::{Answer, Rescued, Saved, Sizes};
use block::{copy_bytes, cut_blocks};
use buffers::clear;
use judge::scan;
use numbers::limit;
use numbers::refusal::{Fault, Refusal};
use rescue::collect;
use reseal::seal_blocks;
use stream::{judged, soundness};

// The blocks that n bytes of a stream take.
fn blocks_for(n: usize) -> usize
    ensures { result ≡ blocks_for n }
{
    n.div_ceil(limit::BLOCK_DATA)
}

// What a stream is refused for that is no whole records.
fn unsound(i: usize) -> Fault<usize>
    ensures { answer_of (Err result) ≡ (refuses block_layout i).answer }
{
    Fault {
        why: Refusal::BlockLayout,
        at: i,
    }
}

// What is refused for want of room.
fn no_place() -> Fault<usize>
    ensures { answer_of (Err result) ≡ (refuses payload_room 0).answer }
{
    Fault {
        why: Refusal::PayloadRoom,
        at: 0,
    }
}

// What a stream is refused for whose blocks find no room.
#[tactic(auto, unfolding(crate::specs::Shelf::lacking))]
fn no_room(records: &[u8]) -> Fault<usize>
    ensures { answer_of (Err result) ≡ lacking (fault (byte_at records.now) (length records.now)) }
{
    match soundness(records) {
        Err(i) => unsound(i),
        Ok(_) => no_place(),
    }
}

// Writes a stream as a shelf file; the room that it does not take is cleared. Its records are followed while its blocks are made, and what was made
// is cleared where they are found at fault.
pub fn write(records: &[u8], file: &mut [u8]) -> Answer
    ensures { Done (shelf_write records.now (length file.old)) (length file.old)
        (answer_of result) file.new }
{
    let n = records.len();
    let m = blocks_for(n);
    if file.len() / limit::BLOCK_BYTES < m {
        clear(file);
        return Err(no_room(records));
    }
    if limit::MOST_BLOCKS < m {
        clear(file);
        return Err(no_room(records));
    }
    let w = cut_blocks(records, file, m);
    match judged(records, w) {
        Err(i) => {
            clear(file);
            Err(unsound(i))
        }
        Ok(count) => {
            let bytes = limit::BLOCK_BYTES * m;
            clear(&mut file[bytes..]);
            Ok(Sizes {
                records: count,
                stream: n,
                file: bytes,
            })
        }
    }
}

// The first n bytes of a file's stream, at the front of a buffer: whole blocks, whose length the compiler knows as it copies them, and what is left.
fn gather(f: &[u8], records: &mut [u8], n: usize)
    requires { (n ≤ block_data * blocks f.now) × (n ≤ length records.old) }
    ensures { records.new ≡ bytes_from (byte_of f.now) 0 n ++ drop n records.old }
{
    let whole = n / limit::BLOCK_DATA;
    for i in 0..whole {
        let from = limit::BLOCK_BYTES * i + limit::BLOCK_HEAD;
        copy_bytes(f, from, records, limit::BLOCK_DATA * i, limit::BLOCK_DATA);
    }
    let at = limit::BLOCK_DATA * whole;
    if at < n {
        let from = limit::BLOCK_BYTES * whole + limit::BLOCK_HEAD;
        copy_bytes(f, from, records, at, n - at);
    }
}

// Reads a shelf file into the stream of its records; the room that it does not take is cleared.
pub fn read(file: &[u8], records: &mut [u8]) -> Answer
    ensures { Done (shelf_read file.now (length records.old)) (length records.old)
        (answer_of result) records.new }
{
    match scan(file) {
        Err(fault) => {
            clear(records);
            Err(fault)
        }
        Ok(reached) => {
            let n = reached.place;
            if records.len() < n {
                clear(records);
                return Err(no_place());
            }
            gather(file, records, n);
            clear(&mut records[n..]);
            Ok(Sizes {
                records: reached.count,
                stream: n,
                file: file.len(),
            })
        }
    }
}

// Whether a new file of m blocks and a list of so many entries find room, and each block a number.
#[tactic(auto, unfolding(crate::specs::Rescue::has_room))]
fn has_room(room: usize, list: usize, m: usize, entries: usize) -> bool
    ensures { result ≡ has_room room list m entries }
{
    if room / limit::BLOCK_BYTES < m {
        return false;
    }
    if limit::MOST_BLOCKS < m {
        return false;
    }
    entries <= list / limit::DROPPED
}

// Salvages a damaged file: what is whole of it becomes a new file, what is dropped is listed; the room that they do not take is cleared.
pub fn salvage(file: &[u8], fresh: &mut [u8], list: &mut [u8]) -> Rescued
    ensures { promises.Saved (meaning.salvage file.now (length fresh.old) (length list.old))
        (length fresh.old) (length list.old) (rescued_of result) fresh.new list.new }
{
    let t = collect(file, fresh, list);
    let n = t.stream;
    let m = blocks_for(n);
    let listed = t.listed;
    if has_room(fresh.len(), list.len(), m, listed.entries) {
        seal_blocks(fresh, n, m);
        let bytes = limit::BLOCK_BYTES * m;
        clear(&mut fresh[bytes..]);
        let end = limit::DROPPED * listed.entries;
        clear(&mut list[end..]);
        let sizes = Sizes {
            records: t.records,
            stream: n,
            file: bytes,
        };
        return Ok(Saved { sizes, listed });
    }
    clear(fresh);
    clear(list);
    Err(no_place())
}
