// The area in which a host finds an answer.
ghost use Rattle.std.specs.Prelude.{◌≡◌, [], ◌*◌, ◌≤◌, length};
ghost use Rattle.numbers.specs.Limit as limit;
ghost use Rattle.numbers.specs.Limit.{most_names};
ghost use Rattle.model.specs.Whole.{filled};
ghost use Rattle.buffers.specs.Bytes.{names_of};
ghost use Rattle.call_parts.specs.Area as meaning;

use buffers::{clear, put_half, store};
use numbers::limit;

// The bytes of the six words that stand before the names.
const HEAD: usize = limit::AREA - 2 * limit::MOST_NAMES;

// A place as a word of the area: one past MOST_WORD is told as MOST_WORD.
fn place_word(place: usize) -> u32
    ensures { result ≡ meaning.place_word place }
{
    place.min(limit::MOST_WORD as usize) as u32
}

// Stores the names, and zeros for the rest of MOST_NAMES.
fn put_names(s: &mut [u8], names: &[u16])
    requires room { length s.old ≡ 2 * most_names }
    requires most { length names.now ≤ most_names }
    ensures { s.new ≡ names_of (filled most_names names.now) }
{
    clear(s);
    for (i, &name) in names.iter().enumerate() {
        put_half(s, 2 * i, name);
    }
}

// The whole area: six words, then the names.
pub fn tell(
    area: &mut [u8],
    place: usize,
    mode: u32,
    events: u32,
    text: u32,
    bits: u32,
    names: &[u16],
)
    requires told { length area.old ≡ limit.area }
    requires most { length names.now ≤ most_names }
    ensures { area.new ≡ meaning.area_of (meaning.told place mode events text bits names.now) }
{
    let head = [
        place_word(place),
        mode,
        events,
        text,
        bits,
        names.len() as u32,
    ];
    store(&head, area);
    put_names(&mut area[HEAD..limit::AREA], names);
}

// The area of an answer that is a place alone.
pub fn tell_place(area: &mut [u8], place: usize)
    requires { length area.old ≡ limit.area }
    ensures { area.new ≡ meaning.area_of (meaning.told place 0 0 0 0 []) }
{
    tell(area, place, 0, 0, 0, 0, &[]);
}
