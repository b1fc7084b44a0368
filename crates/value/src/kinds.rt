// A simple value read by its kind at once: what `reading::simple` gives of the kind's form, without that form in memory on the way.
// Each kind of forms.rt so stands here a second time, as the reader's cycle is tuned: the form in memory costs it instructions.
ghost use Rattle.std.specs.Prelude.{◌≡◌, ◌*◌, ◌≤◌, ◌<◌, length};
ghost use Rattle.wire.specs.Bits.{bit_at};
ghost use Rattle.wire.specs.Answer.{read_is};
ghost use Rattle.value.specs.Code.{code_at};
ghost use Rattle.value.specs.Simple.{range_code, simple_of};
ghost use Rattle.value.specs.Answer.{ReadsSimple};
ghost use Rattle.value.specs.Kinds.{kind_code};

use super::reading::{choice, number, raise, signed_number};
use super::{Form, Value, dates, reading};
use numbers::limit;
use numbers::refusal::Refusal;
use signed::gap;
use wire::reading::fixed;
use wire::{Bits, Read};

// A value from b to c, both signed.
#[tactic(auto, using(crate::proofs::KindWays::ranged_ways))]
fn ranged(s: &[u8], wall: Bits, at: Bits, b: u32, c: u32) -> Read
    requires { wall.0 ≤ 8 * length s.now }
    ensures { read_is result ≡ code_at (range_code b c) (bit_at s.now) wall.0 at.0 }
{
    match gap(b, c) {
        None => choice(s, wall, at, 0),
        Some(k) => {
            if k <= limit::MOST_FIXED {
                return raise(b, choice(s, wall, at, k + 1));
            }
            raise(b, number(s, wall, at, k))
        }
    }
}

// The number of a kind that is neither text nor date.
#[tactic(auto, using(crate::proofs::KindWays::kind_ways))]
fn by_kind(s: &[u8], wall: Bits, at: Bits, simple: u32, b: u32, c: u32) -> Read
    requires { wall.0 ≤ 8 * length s.now }
    ensures { read_is result ≡ code_at (kind_code simple b c) (bit_at s.now) wall.0 at.0 }
{
    match simple {
        numbers::simple::BOOLEAN => choice(s, wall, at, 2),
        numbers::simple::RANGED => ranged(s, wall, at, b, c),
        numbers::simple::UNSIGNED => number(s, wall, at, limit::MOST_WORD),
        numbers::simple::SIGNED => signed_number(s, wall, at),
        numbers::simple::ENUMERATION => choice(s, wall, at, b),
        numbers::simple::FLOAT => fixed(s, wall, at, 32),
        _ => choice(s, wall, at, 0),
    }
}

// A simple value of a kind with its parameters.
#[tactic(auto, using(crate::proofs::KindWays::of_kind_ways))]
pub fn of_kind(
    s: &[u8],
    wall: Bits,
    at: Bits,
    simple: u32,
    b: u32,
    c: u32,
) -> Result<Value, Refusal>
    requires { wall.0 ≤ 8 * length s.now }
    ensures { ReadsSimple s.now result (simple_of simple b c) wall.0 at.0 }
{
    match simple {
        numbers::simple::TEXT => reading::simple(s, wall, at, Form::Text),
        numbers::simple::DATE_TIME => dates::read(s, wall, at, true),
        numbers::simple::DATE => dates::read(s, wall, at, false),
        _ => {
            let (word, next) = by_kind(s, wall, at, simple, b, c)?;
            Ok(Value::word(word, next))
        }
    }
}
