// What is wrong with a text: nothing, NotUtf8 (RFC 3629), or Control.
#![tactic(auto)]

mod ascii; // ascii.rt: octets that are printable ASCII, passed 16 at a time
pub mod slanted; // slanted.rt: a text whose octets begin at any bit of a byte

ghost use Rattle.std.specs.Prelude.{◌≡◌, [], ◌∷◌};
ghost use Rattle.numbers.specs.Refused.{answered};
ghost use Rattle.utf8.specs.Text.{◌to◌, is_control, text_fault};
ghost use Rattle.utf8.specs.Steps.{◌leads◌, look, next, number_of};

use numbers::refusal::Refusal;
use slanted::text_fault;

// What may come next in a text. It starts in Start, between two characters, and may end there alone.
#[derive(Clone, Copy)]
pub enum State {
    Start,
    // So many octets 80 to BF are left of the character.
    OneLeft,
    TwoLeft,
    ThreeLeft,
    // The second octet has a narrower range, against overlong forms (E0, F0), surrogates (ED) and what is past 10FFFF (F4).
    AfterE0,
    AfterED,
    AfterF0,
    AfterF4,
    // Nothing that comes mends it.
    Wrong,
}

// The state after the first octet of a character.
fn first(octet: u8) -> State
    ensures { result ≡ next State.Start octet }
{
    match octet {
        0x00..=0x7F => State::Start,
        0xC2..=0xDF => State::OneLeft,
        0xE0 => State::AfterE0,
        0xE1..=0xEC => State::TwoLeft,
        0xED => State::AfterED,
        0xEE..=0xEF => State::TwoLeft,
        0xF0 => State::AfterF0,
        0xF1..=0xF3 => State::ThreeLeft,
        0xF4 => State::AfterF4,
        _ => State::Wrong,
    }
}

// The state after an octet that must be from least to most.
#[tactic(auto, using(crate::proofs::Look::look_ways))]
fn later(octet: u8, least: u8, most: u8, then: State) -> State
    ensures { result ≡ look ((least to most leads then) ∷ []) octet }
{
    // Two tests and no `contains`: of a range that is no literal its clause goes through partial_cmp, and did not close.
    if least <= octet && octet <= most {
        return then;
    }
    State::Wrong
}

// The state after one octet more.
#[tactic(auto, using(crate::proofs::Look::look_none), unfolding(crate::specs::Steps::next, crate::specs::Steps::rows))]
pub fn step(state: State, octet: u8) -> State
    ensures { result ≡ next state octet }
{
    match state {
        State::Start => first(octet),
        State::OneLeft => later(octet, 0x80, 0xBF, State::Start),
        State::TwoLeft => later(octet, 0x80, 0xBF, State::OneLeft),
        State::ThreeLeft => later(octet, 0x80, 0xBF, State::TwoLeft),
        State::AfterE0 => later(octet, 0xA0, 0xBF, State::OneLeft),
        State::AfterED => later(octet, 0x80, 0x9F, State::OneLeft),
        State::AfterF0 => later(octet, 0x90, 0xBF, State::TwoLeft),
        State::AfterF4 => later(octet, 0x80, 0x8F, State::TwoLeft),
        State::Wrong => State::Wrong,
    }
}

// Whether an octet is a control character, which no text may have.
#[tactic(auto, unfolding(crate::specs::Text::is_control))]
pub fn control(octet: u8) -> bool
    ensures { result ≡ is_control octet }
{
    octet < 0x20 && !matches!(octet, 0x09 | 0x0A | 0x0D)
}

// What is wrong with a text that ends in this state, in which a control character was found or not.
pub fn fault(state: State, found: bool) -> Result<(), Refusal>
    ensures { answered result ≡ number_of state found }
{
    match state {
        State::Start => {
            if found {
                return Err(Refusal::Control);
            }
            Ok(())
        }
        _ => Err(Refusal::NotUtf8),
    }
}

// What is wrong with a text.
#[tactic(auto, using(crate::proofs::SlantedLaws::octets_all))]
pub fn check(text: &[u8]) -> Result<(), Refusal>
    ensures { answered result ≡ text_fault text.now }
{
    text_fault(text, 0, text.len(), 0)
}
