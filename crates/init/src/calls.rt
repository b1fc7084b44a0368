// The calls for a C host: the size of init or of the area first, then the answer told in it. Crate bim exports them.
ghost use Rattle.std.specs.Prelude.{◌≡◌, [], ◌∷◌, min, length};
ghost use Rattle.numbers.specs.Limit.{most_word, init_area};
ghost use Rattle.init.specs.Back.{number_in, place_in, count_in};
ghost use Rattle.init.specs.Made.{made_is, write_back};
ghost use Rattle.init.specs.Calls as meaning;
ghost use Rattle.init.specs.Calls.{back, read_call, write_call};

use crate::reading::read;
use crate::writing::{refuse_at, write};
use buffers::{clear, load, store};
use numbers::refusal::{Fault, Refusal};
use numbers::{limit, refusal};

// What a host is told of an answer: its number, and place and count as words.
#[derive(Clone, Copy)]
struct Told {
    number: u32,
    place: u32,
    count: u32,
}

// A place or a count as a word: one past MOST_WORD is told as MOST_WORD.
fn place_word(place: usize) -> u32
    ensures { result ≡ min place most_word }
{
    place.min(limit::MOST_WORD as usize) as u32
}

#[tactic(auto, unfolding(crate::specs::Back::number_in, crate::specs::Back::place_in, crate::specs::Back::count_in))]
fn tell(answer: Result<usize, Fault<usize>>) -> Told
    ensures number { result.number ≡ number_in answer }
    ensures place { result.place ≡ min (place_in answer) most_word }
    ensures count { result.count ≡ min (count_in answer) most_word }
{
    match answer {
        Ok(count) => Told {
            number: refusal::ACCEPTED,
            place: 0,
            count: place_word(count),
        },
        Err(fault) => Told {
            number: fault.why.number(),
            place: place_word(fault.at),
            count: 0,
        },
    }
}

// Reads a message into the bytes of init and of codecs.
pub fn call_read(message: &[u8], codecs: &mut [u8], init: &mut [u8]) -> u32
    ensures { back result init.new (codecs.new ∷ [])
        ≡ read_call message.now (length codecs.old) (length init.old) }
{
    if init.len() != limit::INIT {
        clear(codecs);
        clear(init);
        return Refusal::AreaSize.number();
    }
    let mut words = [0u32; limit::INIT_WORDS];
    let answer = tell(read(message, codecs, &mut words));
    words[0] = answer.place;
    store(&words, init);
    answer.number
}

// Writes a message from the bytes of init, of which there may be too few or too many.
fn write_bytes(
    init: &[u8],
    codecs: &[u8],
    given: &[u8],
    message: &mut [u8],
) -> Result<usize, Fault<usize>>
    ensures { made_is result message.new
        ≡ write_back (length message.old)
        (meaning.write_bytes init.now codecs.now given.now
        (length message.old)) }
{
    if init.len() != limit::INIT {
        return Err(refuse_at(message, Refusal::NoReading, 0));
    }
    let mut words = [0u32; limit::INIT_WORDS];
    load(init, &mut words, limit::INIT_WORDS);
    write(&words, codecs, given, message)
}

// Writes a message from the bytes of init and of codecs, whose stretches lie in the bytes given.
pub fn call_write(
    init: &[u8],
    codecs: &[u8],
    given: &[u8],
    message: &mut [u8],
    area: &mut [u8],
) -> u32
    ensures { back result area.new (message.new ∷ [])
        ≡ write_call init.now codecs.now given.now (length message.old)
        (length area.old) }
{
    if area.len() != limit::INIT_AREA {
        clear(message);
        clear(area);
        return Refusal::AreaSize.number();
    }
    let answer = tell(write_bytes(init, codecs, given, message));
    store(&[answer.place, answer.count], area);
    answer.number
}
