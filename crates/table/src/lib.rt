// The check of a schema table, a list of 32-bit words; what stands in its rows is in `rows`.
#![tactic(auto)]

mod answers;
mod attribute_rows;
mod cast_rows;
mod header;
pub mod inside;
pub mod marks;
mod particle_rows;
mod places;
pub mod rows;
mod runs;
mod type_rows;

ghost use Rattle.std.specs.Prelude.{◌++◌, ◌≡◌, ◌≤◌, length};
ghost use Rattle.numbers.specs.Limit.{most_types};
ghost use Rattle.table.specs.First.{first};
ghost use Rattle.table.specs.Valid.{row_words, form_words, verdict};
ghost use Rattle.table.specs.Views.{verdict_is};
ghost use Rattle.table.specs.Words.{size_of, word_at};

pub use answers::{Attribute, Content, Flaw, Particle, Span, TypeList};
use numbers::limit;
use places::Counts;

// The rows after the header, in order.
fn every_row(table: &[u32], counts: Counts) -> Result<(), Flaw>
    requires { size_of counts.types counts.attributes counts.particles ≤ length table.now }
    ensures { verdict_is result
        ≡ first 4 (row_words (word_at table.now) counts.types counts.attributes counts.particles) }
{
    type_rows::all(table, counts)?;
    attribute_rows::all(table, counts.types, counts.attributes)?;
    particle_rows::all(table, counts)
}

// The rows, then what stands behind them.
fn every_word(table: &[u32], counts: Counts) -> Result<(), Flaw>
    requires { (counts.types ≤ most_types)
        × (size_of counts.types counts.attributes counts.particles ≤ length table.now) }
    ensures { verdict_is result
        ≡ first 4
        (row_words (word_at table.now) counts.types counts.attributes counts.particles
        ++ form_words (word_at table.now) counts.types counts.attributes counts.particles) }
{
    every_row(table, counts)?;
    cast_rows::all(table, counts)
}

// The header words that are given, then the length, then every other word: the first at fault.
pub fn check(table: &[u32]) -> Result<(), Flaw>
    ensures { verdict_is result ≡ verdict table.now }
{
    header::given(table)?;
    let counts = rows::counts(table);
    let size = cast_rows::size(table, counts);
    let n = table.len();
    if n != size {
        return Err(Flaw(n));
    }
    if limit::MOST_TABLE_WORDS < n {
        return Err(Flaw(n));
    }
    every_word(table, counts)
}
