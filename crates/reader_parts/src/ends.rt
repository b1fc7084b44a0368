// The end of an element.
ghost use Rattle.std.specs.Prelude.{◌≡◌};
ghost use Rattle.model.specs.Read.{met};
ghost use Rattle.reader_parts.specs.Out.{Closes};

use crate::storing::store;
use crate::{Cursor, Step};
use numbers::kind;
use numbers::refusal::{Fault, Refusal};
use wire::Bits;

// Whether the end is where it was declared, if it was.
fn meets(coded: bool, at: Bits, wall: Bits) -> bool
    ensures { result ≡ met coded at.0 wall.0 }
{
    !coded || at.0 == wall.0
}

// CONTENT_SHORT at the body where the declared end is not met; then End, where it has room.
pub fn close(events: &mut [u32], coded: bool, body: Bits, wall: Bits, c: Cursor) -> Step
    ensures { Closes coded body.0 wall.0 c events.old result events.new }
{
    let at = c.at;
    let met = meets(coded, at, wall);
    if !met {
        return Err(Fault {
            why: Refusal::ContentShort,
            at: body,
        });
    }
    store(events, c, kind::END, 0, 0, at)
}
