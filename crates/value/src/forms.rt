// Which code a row of the table asks for.
ghost use Rattle.std.specs.Prelude.{◌≡◌, ◌-◌, ◌<◌};
ghost use Rattle.numbers.specs.Limit.{unbounded};
ghost use Rattle.value.specs.Simple.{range_code, times_code, unbounded_code, bounded_code, simple_of};
ghost use Rattle.value.specs.Answer.{code_is, form_is};

use super::{Code, Form, Inner};
use numbers::limit;
use signed::gap;

// A value from b to c, both signed.
#[tactic(auto, using(crate::proofs::FormWays::range_ways))]
pub fn range(b: u32, c: u32) -> Code
    ensures { code_is result ≡ range_code b c }
{
    match gap(b, c) {
        None => Code::Plain(Inner::Choice(0)),
        Some(k) => {
            if k <= limit::MOST_FIXED {
                return Code::Shifted(b, Inner::Choice(k + 1));
            }
            Code::Shifted(b, Inner::Five(k))
        }
    }
}

// A count with no end.
#[tactic(auto, using(crate::proofs::FormWays::open_ways))]
fn unbounded(least: u32) -> Code
    ensures { code_is result ≡ unbounded_code least }
{
    if least == 0 {
        return Code::Some(Inner::Five(limit::MOST_TIMES));
    }
    Code::Shifted(least, Inner::Five(limit::MOST_TIMES.saturating_sub(least)))
}

// A count up to most.
#[tactic(auto, using(crate::proofs::FormWays::bound_ways))]
fn bounded(least: u32, most: u32) -> Code
    requires { most < unbounded }
    ensures { code_is result ≡ bounded_code least most }
{
    if least == 0 {
        if most <= 1 {
            return Code::Plain(Inner::Choice(most + 1));
        }
        return Code::Some(Inner::Choice(most + 1));
    }
    Code::Shifted(least, Inner::Choice(most.saturating_sub(least) + 1))
}

// How many times an occurs row's child comes; UNBOUNDED has no end.
#[tactic(auto, using(crate::proofs::FormWays::times_ways))]
pub fn times(least: u32, most: u32) -> Code
    ensures { code_is result ≡ times_code least most }
{
    if most < least {
        return Code::Plain(Inner::Choice(0));
    }
    if limit::MOST_TIMES < least {
        return Code::Plain(Inner::Choice(0));
    }
    if limit::UNBOUNDED < most {
        return Code::Plain(Inner::Choice(0));
    }
    if most == limit::UNBOUNDED {
        return unbounded(least);
    }
    bounded(least, most)
}

// A simple kind with its parameters.
#[tactic(auto, using(crate::proofs::FormWays::simple_ways))]
pub fn simple(simple: u32, b: u32, c: u32) -> Form
    ensures { form_is result ≡ simple_of simple b c }
{
    match simple {
        numbers::simple::BOOLEAN => Form::Number(Code::Plain(Inner::Choice(2))),
        numbers::simple::RANGED => Form::Number(range(b, c)),
        numbers::simple::UNSIGNED => Form::Number(Code::Plain(Inner::Five(limit::MOST_WORD))),
        numbers::simple::SIGNED => Form::Number(Code::Signed),
        numbers::simple::ENUMERATION => Form::Number(Code::Plain(Inner::Choice(b))),
        numbers::simple::TEXT => Form::Text,
        numbers::simple::FLOAT => Form::Number(Code::Word),
        numbers::simple::DATE_TIME => Form::Dated(true),
        numbers::simple::DATE => Form::Dated(false),
        _ => Form::Number(Code::Plain(Inner::Choice(0))),
    }
}
