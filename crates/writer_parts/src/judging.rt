// One event judged against what is wanted, and its note kept.
ghost use Rattle.std.specs.Prelude.{◌≡◌, ◌<◌, length};
ghost use Rattle.numbers.specs.Refused.{answered};
ghost use Rattle.writer_parts.specs.Notes.{keeps};
ghost use Rattle.writer_parts.specs.Walk.{wanted, judged, KindJudged, WordsOf};

use numbers::kind;
use numbers::refusal::Refusal;

// An event's words but the first, its kind.
#[derive(Clone, Copy)]
pub struct Words {
    pub p: u32,
    pub q: u32,
}

// The words of event at, where it is of a kind; what is judged first, so that they are read without a test. NoReading where there is none.
#[tactic(auto, using(crate::proofs::JudgingWays::kind_ways))]
pub fn of_kind(events: &[u32], at: usize, kind: u32) -> Result<Words, Refusal>
    ensures { (KindJudged events.now at kind (answered result)) × WordsOf events.now at result }
{
    if events.len() / 4 <= at {
        return Err(Refusal::NoReading);
    }
    let i = 4 * at;
    let k = events[i];
    if kind != k {
        if k == kind::BLANK {
            return Err(Refusal::Blank);
        }
        return Err(Refusal::NoReading);
    }
    Ok(Words {
        p: events[i + 1],
        q: events[i + 2],
    })
}

// What is wrong with event at where one of these words is wanted.
#[tactic(auto, using(crate::proofs::JudgingWays::unlike_ways))]
pub fn unlike(events: &[u32], at: usize, kind: u32, p: u32, q: u32) -> Result<(), Refusal>
    ensures { answered result ≡ judged events.now at (wanted kind p q) }
{
    let e = of_kind(events, at, kind)?;
    if p != e.p || q != e.q {
        return Err(Refusal::NoReading);
    }
    Ok(())
}

// The note of event at.
pub fn keep(notes: &mut [u64], at: usize, n: u64)
    requires { at < length notes.old }
    ensures { notes.new ≡ keeps notes.old at n }
{
    notes[at] = n;
}
