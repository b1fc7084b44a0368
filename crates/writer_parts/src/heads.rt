// An element's head: its Start judged, and its flag and length as a code, by the length coding.
ghost use Rattle.std.specs.Prelude.{◌≡◌, ◌+◌, ◌*◌, ◌≤◌, get_or};
ghost use Rattle.numbers.specs.Limit.{most_events};
ghost use Rattle.numbers.specs.Kind as kinds;
ghost use Rattle.numbers.specs.Refused.{answered};
ghost use Rattle.model.specs.Modes.{lengths_is};
ghost use Rattle.model.specs.Write.{flag_in, head_out, length_of};
ghost use Rattle.writer_parts.specs.Notes.{Short};
ghost use Rattle.writer_parts.specs.Heads.{FlagJudged};
ghost use Rattle.writer_parts.specs.Walk.{wanted, judged};

use crate::judging::of_kind;
use crate::notes::flagged;
use model::Lengths;
use numbers::kind;
use numbers::refusal::Refusal;
use wire::Coded;
use wire::writing::coded5;

// Whether a Start's second word is not one that it may have.
#[tactic(auto, using(crate::proofs::HeadWays::flag_wrong_ways))]
fn flag_wrong(lengths: Lengths, q: u32) -> bool
    ensures { FlagJudged (lengths_is lengths) q result }
{
    match lengths {
        Lengths::Never => 0 < q,
        Lengths::Optional => 1 < q,
        Lengths::Always => q != 1,
    }
}

// What is wrong with event at where the Start of an element of a name is wanted.
#[tactic(auto, using(crate::proofs::HeadWays::start_ways))]
pub fn unlike_start(events: &[u32], lengths: Lengths, at: usize, name: u32) -> Result<(), Refusal>
    requires { at ≤ most_events }
    ensures { answered result
        ≡ judged events.now at
        (wanted kinds.start name (flag_in (lengths_is lengths) (get_or events.now (4 * at + 2) 0))) }
{
    let e = of_kind(events, at, kind::START)?;
    if name != e.p {
        return Err(Refusal::NoReading);
    }
    if flag_wrong(lengths, e.q) {
        return Err(Refusal::NoReading);
    }
    Ok(())
}

// An element's flag and TheLength, over n bits inside it; q is its Start's second word.
#[tactic(auto, using(crate::proofs::HeadWays::head_ways))]
pub fn head(lengths: Lengths, q: u32, n: u32) -> Coded
    ensures { Short 41 result (head_out (lengths_is lengths) (length_of q n)) }
{
    match lengths {
        Lengths::Never => Coded { size: 0, bits: 0 },
        Lengths::Optional => {
            if q == 0 {
                return Coded { size: 1, bits: 0 };
            }
            let length = coded5(n);
            flagged(1, length)
        }
        Lengths::Always => {
            if q == 0 {
                return Coded { size: 0, bits: 0 };
            }
            coded5(n)
        }
    }
}
