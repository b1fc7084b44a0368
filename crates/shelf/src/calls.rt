// The calls for a C host: the area's size first, then the answer told in it. Crate bim exports them.
ghost use Rattle.std.specs.Prelude.{◌≡◌, ◌/◌, ◌%◌, [], ◌∷◌, length};
ghost use Rattle.numbers.specs.Limit.{shelf_area};
ghost use Rattle.shelf.specs.Answers.{answer_of};
ghost use Rattle.shelf.specs.Calls.{back, area_of, answer_by, write_call, read_call, salvage_call};

use crate::answers::{Answer, Listed, Sizes};
use crate::rescue::place_word;
use crate::{read, salvage, write};
use buffers::{clear, store};
use numbers::refusal::Refusal;
use numbers::{limit, refusal};

// What is told of a refusal.
const NO_SIZES: Sizes = Sizes {
    records: 0,
    stream: 0,
    file: 0,
};

const NOTHING_LISTED: Listed = Listed {
    entries: 0,
    dropped: 0,
};

// The two words of a number of 8 bytes.
fn high(x: usize) -> u32
    ensures { result ≡ x / 4294967296 }
{
    (x / 4294967296) as u32
}

fn low(x: usize) -> u32
    ensures { result ≡ x % 4294967296 }
{
    (x % 4294967296) as u32
}

// Tells any five numbers of an answer in the area, with what was listed, and gives the first of them back.
pub fn tell(area: &mut [u8], number: u32, place: usize, sizes: Sizes, listed: Listed) -> u32
    requires { length area.old ≡ shelf_area }
    ensures { (result ≡ number)
        × (area.new ≡ area_of (answer_by number place sizes) listed.entries listed.dropped) }
{
    let words = [
        place_word(place),
        high(sizes.records),
        low(sizes.records),
        high(sizes.stream),
        low(sizes.stream),
        high(sizes.file),
        low(sizes.file),
        high(listed.entries),
        low(listed.entries),
        high(listed.dropped),
        low(listed.dropped),
    ];
    store(&words, area);
    number
}

// The same of an answer.
pub fn tell_answer(area: &mut [u8], a: Answer, listed: Listed) -> u32
    requires { length area.old ≡ shelf_area }
    ensures { (result ≡ (answer_of a).number)
        × (area.new ≡ area_of (answer_of a) listed.entries listed.dropped) }
{
    match a {
        Ok(sizes) => tell(area, refusal::ACCEPTED, 0, sizes, listed),
        Err(fault) => tell(area, fault.why.number(), fault.at, NO_SIZES, listed),
    }
}

// Writes a stream as a shelf file.
pub fn call_write(records: &[u8], file: &mut [u8], area: &mut [u8]) -> u32
    ensures { back result area.new (file.new ∷ [])
        ≡ write_call records.now (length file.old) (length area.old) }
{
    if area.len() != limit::SHELF_AREA {
        clear(file);
        clear(area);
        return Refusal::AreaSize.number();
    }
    let a = write(records, file);
    tell_answer(area, a, NOTHING_LISTED)
}

// Reads a shelf file into the stream of its records.
pub fn call_read(file: &[u8], records: &mut [u8], area: &mut [u8]) -> u32
    ensures { back result area.new (records.new ∷ [])
        ≡ read_call file.now (length records.old) (length area.old) }
{
    if area.len() != limit::SHELF_AREA {
        clear(records);
        clear(area);
        return Refusal::AreaSize.number();
    }
    let a = read(file, records);
    tell_answer(area, a, NOTHING_LISTED)
}

// Salvages a damaged shelf file: what is whole of it as a new file, and the list of what is dropped.
pub fn call_salvage(file: &[u8], fresh: &mut [u8], dropped: &mut [u8], area: &mut [u8]) -> u32
    ensures { back result area.new (fresh.new ∷ dropped.new ∷ [])
        ≡ salvage_call file.now (length fresh.old) (length dropped.old)
        (length area.old) }
{
    if area.len() != limit::SHELF_AREA {
        clear(fresh);
        clear(dropped);
        clear(area);
        return Refusal::AreaSize.number();
    }
    match salvage(file, fresh, dropped) {
        Ok(saved) => tell_answer(area, Ok(saved.sizes), saved.listed),
        Err(fault) => tell_answer(area, Err(fault), NOTHING_LISTED),
    }
}
