// The four header words, as far as they are given.
ghost use Rattle.std.specs.Prelude.{◌≡◌};
ghost use Rattle.table.specs.First.{first, judge};
ghost use Rattle.table.specs.Valid.{given, header_words};
ghost use Rattle.table.specs.Views.{verdict_is};

use crate::answers::Flaw;
use numbers::limit;

// The places of the form and of the numbers of types, of attribute rows and of particle rows.
pub const FORM: usize = 0;

pub const TYPES: usize = 1;

pub const ATTRIBUTES: usize = 2;

pub const PARTICLES: usize = 3;

// The forms: rows alone, or derived types and substitutes behind them.
const PLAIN_FORM: u32 = 1;

pub const CAST_FORM: u32 = 2;

// Word i, where it is given, is least to most.
fn within(table: &[u32], i: usize, least: u32, most: u32) -> Result<(), Flaw>
    ensures { verdict_is result ≡ judge i (given table.now i least most) }
{
    let Some(&x) = table.get(i) else {
        return Ok(());
    };
    if x < least || most < x {
        return Err(Flaw(i));
    }
    Ok(())
}

// The form, then the numbers of types, of attribute rows and of particle rows.
pub fn given(table: &[u32]) -> Result<(), Flaw>
    ensures { verdict_is result ≡ first 0 (header_words table.now) }
{
    within(table, FORM, PLAIN_FORM, CAST_FORM)?;
    within(table, TYPES, 1, limit::MOST_TYPES)?;
    within(table, ATTRIBUTES, 0, limit::MOST_ATTRIBUTES)?;
    within(table, PARTICLES, 0, limit::MOST_PARTICLES)
}
