// Salvaging a damaged file: its blocks judged one by one, what is kept laid into the new file, what is dropped listed.
ghost use Rattle.std.specs.Prelude.{◌≡◌, [], ◌∷◌, ◌+◌, ◌-◌, ◌*◌, ◌/◌, ◌<◌, ◌≤◌, min, slice_set};
ghost use Rattle.numbers.specs.Limit.{block_bytes, block_data, most_word};
ghost use Rattle.shelf.specs.Answers.{stepped_of, reason_of};
ghost use Rattle.shelf.specs.Judge.{place_of, byte_of, blocks, used_at, end_at};
ghost use Rattle.shelf.specs.Salvage as meaning;
ghost use Rattle.shelf.specs.Salvage.{dropped_in, good_entry, bad_entry, stretch, stretches};
ghost use Rattle.shelf.specs.Rescue.{known_of, judged_of, turn_at, kept_from, place_after, laid, told_by, listing, held, gather_one, gathered, nothing, to_come, left_over, good_in, many_blocks, Goods, Next, Ready, Keeps, Few, Within, Stands};

use crate::answers::{Judged, Kept, Known, Listed, Reached, Stand, Stepped, Tally, Trail};
use crate::judge::{File, first_at, in_step, number_at, place_of, reason, used_at, walked};
use crate::stream::{Stream, walk};
use buffers::put_word;
use numbers::refusal::Refusal;
use numbers::{limit, refusal};

const MOST_PLACE: usize = limit::MOST_WORD as usize;

// A place as a word: one past MOST_WORD is told as MOST_WORD.
pub fn place_word(place: usize) -> u32
    ensures { result ≡ min place most_word }
{
    if place < MOST_PLACE {
        place as u32
    } else {
        limit::MOST_WORD
    }
}

// The number that block i must have: the one that follows its neighbour's, where that is good; else any, so its own.
#[tactic(auto, unfolding(crate::specs::Salvage::wanted, crate::specs::Rescue::turn_at))]
fn wanted(f: &[u8], first: usize, i: usize) -> usize
    requires { (first ≤ i) × (i < blocks f.now) }
    ensures { result ≡ meaning.wanted f.now i (turn_at f.now first i) }
{
    if first < i {
        return number_at(f, i - 1) + 1;
    }
    number_at(f, i)
}

// A block in step is good, and the next record is known behind it.
#[tactic(auto, unfolding(crate::specs::Salvage::stepped))]
fn stepped(start: usize, s: Stepped) -> Judged
    ensures { judged_of result ≡ meaning.stepped start (stepped_of s) }
{
    let Some(reached) = s else {
        return Err(Refusal::BlockLayout);
    };
    Ok(Some(Trail { start, reached }))
}

// Lost, the first record that the block names is taken at its word.
#[tactic(auto, unfolding(crate::specs::Salvage::taken))]
fn take_up(f: &[u8], i: usize) -> Judged
    requires { (i < blocks f.now) × (0 < used_at f.now i) × (used_at f.now i ≤ block_data) }
    ensures { judged_of result ≡ meaning.taken f.now i meaning.Known.lost }
{
    let first = first_at(f, i);
    if first == limit::NO_START {
        return Ok(None);
    }
    let lo = limit::BLOCK_DATA * i;
    let start = lo + first as usize;
    let end = lo + used_at(f, i);
    let named = Reached {
        place: start,
        count: 0,
    };
    stepped(start, walked(f, i, walk(File(f), end, named)))
}

// What the stream says of a block that is fine alone.
#[tactic(auto, unfolding(crate::specs::Salvage::taken))]
fn taken(f: &[u8], i: usize, known: Known) -> Judged
    requires { (i < blocks f.now)
        × (0 < used_at f.now i)
        × (used_at f.now i ≤ block_data)
        × Next f.now i (known_of known) }
    ensures { judged_of result ≡ meaning.taken f.now i (known_of known) }
{
    let Some(trail) = known else {
        return take_up(f, i);
    };
    stepped(trail.start, in_step(f, i, trail.reached))
}

// Judges block i of the stretch that begins at `first`.
fn judge_block(f: &[u8], first: usize, i: usize, known: Known) -> Judged
    requires { (first ≤ i) × (i < blocks f.now) × Ready f.now first i (known_of known) }
    ensures { judged_of result ≡ meaning.judge f.now i (turn_at f.now first i) (known_of known) }
{
    reason(f, i, wanted(f, first, i))?;
    taken(f, i, known)
}

// The records from a start on that end by `end`.
fn kept_by(f: &[u8], end: usize, start: usize) -> Kept
    requires { (end ≤ block_data * blocks f.now) × (start ≤ block_data * blocks f.now) }
    ensures { result ≡ kept_from f.now end start }
{
    let mut next = start;
    let mut count = 0;
    // The next place hangs on the bytes read, so that no iterator gives it.
    while next + 1 < end {
        let after = next + limit::RECORD_HEAD + File(f).length_at(next);
        if end < after {
            return Kept {
                start,
                stop: next,
                count,
            };
        }
        next = after;
        count += 1;
    }
    Kept {
        start,
        stop: next,
        count,
    }
}

// Where the bytes of the good blocks from `first` up to `last` end.
#[tactic(auto, unfolding(crate::specs::Salvage::ending))]
fn ending(f: &[u8], first: usize, last: usize) -> usize
    requires { (first ≤ last) × (last ≤ blocks f.now) }
    ensures { result ≡ meaning.ending f.now first last }
{
    if first < last {
        let i = last - 1;
        return limit::BLOCK_DATA * i + used_at(f, i);
    }
    limit::BLOCK_DATA * last
}

// The records that are kept of those blocks.
fn keep(f: &[u8], first: usize, last: usize, known: Known) -> Kept
    requires { (first ≤ last)
        × (last ≤ blocks f.now)
        × Goods f.now first last
        × Ready f.now first last (known_of known) }
    ensures { Keeps f.now first last (known_of known) result }
{
    let end = ending(f, first, last);
    let Some(trail) = known else {
        return Kept {
            start: end,
            stop: end,
            count: 0,
        };
    };
    kept_by(f, end, trail.start)
}

// Where the byte behind the one at a place lies.
#[tactic(auto, unfolding(crate::specs::Rescue::place_after))]
fn place_after(place: usize) -> usize
    requires { place / block_bytes + 1 < many_blocks }
    ensures { result ≡ place_after place }
{
    if place % limit::BLOCK_BYTES == 505 {
        return place + 15;
    }
    place + 1
}

// A byte put where the buffer has room for it.
fn put(d: &mut [u8], at: usize, x: u8)
    ensures { d.new ≡ slice_set d.old at x }
{
    if at < d.len() {
        d[at] = x;
    }
}

// Lays k bytes of a file's stream where they lie in the new file from byte `at` of its stream on, as far as there is room.
fn lay(f: &[u8], start: usize, k: usize, fresh: &mut [u8], at: usize)
    requires { (at ≤ start) × (start + k ≤ block_data * blocks f.now) }
    ensures { fresh.new ≡ laid fresh.old at (byte_of f.now) start k }
{
    let mut from = place_of(start);
    let mut to = place_of(at);
    for _i in 0..k {
        put(fresh, to, f[from]);
        from = place_after(from);
        to = place_after(to);
    }
}

// Of the bytes from lo up to hi, those before the first kept record and those behind the last.
fn dropped_in(lo: usize, hi: usize, start: usize, stop: usize) -> usize
    requires { hi ≤ lo + 65535 }
    ensures { result ≡ dropped_in lo hi start stop }
{
    hi.min(start).saturating_sub(lo) + hi.saturating_sub(lo.max(stop))
}

// A list that is written: the room lent for it, and what it tells of.
#[derive(Drop)]
struct DropList<'a> {
    list: &'a mut [u8],
    listed: Listed,
}

impl DropList<'_> {
    // An entry put behind the others, where the list has room for it, and counted.
    #[tactic(auto, unfolding(crate::specs::Rescue::entered, crate::specs::Rescue::listing))]
    fn enter(&mut self, block: usize, reason: Option<Refusal>, bytes: usize)
        requires { (block < many_blocks) × (bytes ≤ block_data) × Few block self.old.listed }
        ensures same { self.new.list.ghost_name ≡ self.old.list.ghost_name }
        ensures listed { told_by self.new
            ≡ listing (told_by self.old)
            (record { block = block; reason = reason_of reason; bytes = bytes } ∷ []) }
        ensures few { Few (block + 1) self.new.listed }
    {
        let number = match reason {
            Some(why) => why.number(),
            None => refusal::ACCEPTED,
        };
        let entries = self.listed.entries;
        self.listed.entries += 1;
        self.listed.dropped += bytes;
        if entries < self.list.len() / limit::DROPPED {
            let at = limit::DROPPED * entries;
            put_word(self.list, at, place_word(block));
            put_word(self.list, at + 4, number);
            put_word(self.list, at + 8, bytes as u32);
        }
    }

    // Lists a good block that has bytes in no kept record.
    #[tactic(auto, unfolding(crate::specs::Salvage::good_entry, crate::specs::Rescue::listing))]
    fn list_good(&mut self, f: &[u8], i: usize, kept: Kept)
        requires { (i < blocks f.now)
            × (used_at f.now i ≤ block_data)
            × (kept.start ≤ kept.stop)
            × Few i self.old.listed }
        ensures same { self.new.list.ghost_name ≡ self.old.list.ghost_name }
        ensures listed { told_by self.new
            ≡ listing (told_by self.old)
            (good_entry i (dropped_in (block_data * i) (end_at f.now i) kept.start kept.stop)) }
        ensures few { Few (i + 1) self.new.listed }
    {
        let lo = limit::BLOCK_DATA * i;
        let hi = lo + used_at(f, i);
        let n = dropped_in(lo, hi, kept.start, kept.stop);
        if n > 0 {
            self.enter(i, None, n);
        }
    }

    // Lists the good blocks from `first` up to `last`.
    fn list_stretch(&mut self, f: &[u8], first: usize, last: usize, kept: Kept)
        requires { (first ≤ last)
            × (last ≤ blocks f.now)
            × (kept.start ≤ kept.stop)
            × Goods f.now first last
            × Few first self.old.listed }
        ensures same { self.new.list.ghost_name ≡ self.old.list.ghost_name }
        ensures listed { told_by self.new
            ≡ listing (told_by self.old)
            (good_in f.now first last kept.start kept.stop) }
        ensures few { Few last self.new.listed }
    {
        for i in first..last {
            self.list_good(f, i, kept);
        }
    }

    // Lists a bad block.
    #[tactic(auto, unfolding(crate::specs::Salvage::bad_entry, crate::specs::Rescue::listing))]
    fn list_bad(&mut self, i: usize, reason: Option<Refusal>)
        requires { (i < many_blocks) × Few i self.old.listed }
        ensures same { self.new.list.ghost_name ≡ self.old.list.ghost_name }
        ensures listed { told_by self.new
            ≡ listing (told_by self.old) (bad_entry i (reason_of reason)) }
        ensures few { Few (i + 1) self.new.listed }
    {
        if reason.is_some() {
            self.enter(i, reason, 0);
        }
    }
}

// A stretch ends before block `last`: what it keeps is laid into the new file, its blocks and the bad one behind it are listed.
fn end_stretch(
    f: &[u8],
    last: usize,
    s: Stand,
    reason: Option<Refusal>,
    fresh: &mut [u8],
    list: &mut [u8],
) -> Tally
    requires { (last ≤ blocks f.now) × Stands f.now last s }
    ensures gathered { held result fresh.new list.new
        ≡ gather_one f.now (held s.tally fresh.old list.old)
        (stretch f.now s.first last (known_of s.known) (reason_of reason)) }
    ensures within { Within (last + 1) result }
{
    let kept = keep(f, s.first, last, s.known);
    let k = kept.stop - kept.start;
    let tally = s.tally;
    lay(f, kept.start, k, fresh, tally.stream);
    let mut drops = DropList {
        list,
        listed: tally.listed,
    };
    drops.list_stretch(f, s.first, last, kept);
    drops.list_bad(last, reason);
    Tally {
        records: tally.records + kept.count,
        stream: tally.stream + k,
        listed: drops.listed,
    }
}

// One block more: it goes on with its stretch, or ends it.
fn pass_block(f: &[u8], i: usize, fresh: &mut [u8], list: &mut [u8], s: Stand) -> Stand
    requires { (i < blocks f.now) × Stands f.now i s }
    ensures gathered { gathered f.now (held result.tally fresh.new list.new)
        (to_come f.now (i + 1) result.first (known_of result.known))
        ≡ gathered f.now (held s.tally fresh.old list.old)
        (to_come f.now i s.first (known_of s.known)) }
    ensures stands { Stands f.now (i + 1) result }
{
    match judge_block(f, s.first, i, s.known) {
        Err(reason) => Stand {
            first: i + 1,
            known: None,
            tally: end_stretch(f, i, s, Some(reason), fresh, list),
        },
        Ok(known) => Stand {
            first: s.first,
            known,
            tally: s.tally,
        },
    }
}

// What is left behind the blocks is a bad block.
#[tactic(auto, unfolding(crate::specs::Rescue::left_over))]
fn left_over(f: &[u8]) -> Option<Refusal>
    ensures { reason_of result ≡ left_over f.now }
{
    if f.len() % limit::BLOCK_BYTES == 0 {
        return None;
    }
    Some(Refusal::BlockLayout)
}

// Block by block: lays all that is kept into the new file, and lists all that is dropped.
pub fn collect(f: &[u8], fresh: &mut [u8], list: &mut [u8]) -> Tally
    ensures { held result fresh.new list.new
        ≡ gathered f.now (held nothing fresh.old list.old)
        (stretches f.now) }
{
    let m = f.len() / limit::BLOCK_BYTES;
    let mut s = Stand {
        first: 0,
        known: None,
        tally: Tally {
            records: 0,
            stream: 0,
            listed: Listed {
                entries: 0,
                dropped: 0,
            },
        },
    };
    for i in 0..m {
        s = pass_block(f, i, fresh, list, s);
    }
    end_stretch(f, m, s, left_over(f), fresh, list)
}
