// Room that is lent on the stack, for the words of a table and for those of events. Room is zeroed whole before it is used, so
// little is lent where little is used: least or few words at once, and else the least of three rungs. A rung is a function of
// its own that has the room, and is never inlined, as the compiler puts the rooms of all that it inlines into one frame: a call
// takes the stack of the rungs that it is on, and of no other. What uses the room is lent too, and not handed over, so that the
// caller knows what it wrote.
ghost use Rattle.std.specs.Prelude.{◌≤◌};
ghost use Rattle.numbers.specs.Limit.{most_event_words, most_table_words};
ghost use Rattle.call_parts.specs.Rooms.{TakesRoom, UsedRoom};

use numbers::limit::{MOST_EVENT_WORDS, MOST_TABLE_WORDS};

// The words of a table: least, few, some, as many as a table of form 1 can have; any other is lent MOST_TABLE_WORDS. The least
// room is zeroed without a call.
const LEAST_WORDS: usize = 64;

const FEW_WORDS: usize = 128;

const SOME_WORDS: usize = 1024;

const FORM_1_WORDS: usize = 8964;

// The words of the events of a list that is written, or that there is room for, four an event: least, few, some, many; any
// others are lent MOST_EVENT_WORDS. A small payload seldom has more than few, and the least seldom more than the least.
pub const LEAST_EVENT_WORDS: usize = 4 * 16;

pub const FEW_EVENT_WORDS: usize = 4 * 128;

const SOME_EVENT_WORDS: usize = 4 * 512;

const MANY_EVENT_WORDS: usize = 4 * 1024;

// The bytes of a payload that is least, and of one that is small.
pub const LEAST_PAYLOAD: usize = 4;

pub const SMALL_PAYLOAD: usize = 64;

// Lends room for N words, in a frame of its own.
#[inline(never)]
fn on_rung<const N: usize, R, F: FnMut(&mut [u32]) -> R>(use_room: &mut F) -> R
    requires few { N ≤ most_table_words }
    requires takes { TakesRoom N (F.pre use_room.old) }
    ensures { UsedRoom N (λ room left. F.step use_room.old room result left use_room.new) }
{
    let mut room = [0u32; N];
    use_room(&mut room)
}

// Lends least room or few, or that of the least rung, as n words need.
fn with_room<
    const LEAST: usize,
    const FEW: usize,
    const SOME: usize,
    const MANY: usize,
    const MOST: usize,
    R,
    F: FnMut(&mut [u32]) -> R,
>(n: usize, use_room: &mut F) -> R
    requires rising { (LEAST ≤ FEW) × (FEW ≤ SOME) × (SOME ≤ MANY) × (MANY ≤ MOST) }
    requires most { MOST ≤ most_table_words }
    requires few { n ≤ MOST }
    requires takes { TakesRoom n (F.pre use_room.old) }
    ensures { UsedRoom n (λ room left. F.step use_room.old room result left use_room.new) }
{
    if n <= LEAST {
        let mut least = [0u32; LEAST];
        return use_room(&mut least);
    }
    if n <= FEW {
        let mut few = [0u32; FEW];
        return use_room(&mut few);
    }
    if n <= SOME {
        return on_rung::<SOME, R, F>(use_room);
    }
    if n <= MANY {
        return on_rung::<MANY, R, F>(use_room);
    }
    on_rung::<MOST, R, F>(use_room)
}

// Lends room for n words of a table.
pub fn with_table_room<R, F: FnMut(&mut [u32]) -> R>(n: usize, use_room: &mut F) -> R
    requires few { n ≤ most_table_words }
    requires takes { TakesRoom n (F.pre use_room.old) }
    ensures { UsedRoom n (λ room left. F.step use_room.old room result left use_room.new) }
{
    with_room::<LEAST_WORDS, FEW_WORDS, SOME_WORDS, FORM_1_WORDS, MOST_TABLE_WORDS, R, F>(
        n, use_room,
    )
}

// Lends room for n words of events.
pub fn with_event_room<R, F: FnMut(&mut [u32]) -> R>(n: usize, use_room: &mut F) -> R
    requires few { n ≤ most_event_words }
    requires takes { TakesRoom n (F.pre use_room.old) }
    ensures { UsedRoom n (λ room left. F.step use_room.old room result left use_room.new) }
{
    with_room::<
        LEAST_EVENT_WORDS,
        FEW_EVENT_WORDS,
        SOME_EVENT_WORDS,
        MANY_EVENT_WORDS,
        MOST_EVENT_WORDS,
        R,
        F,
    >(n, use_room)
}
