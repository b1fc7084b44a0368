// The type rows, of seven words each. The place of a word at fault counts from its row's first word until `row` adds that word's own.
ghost use Rattle.std.specs.Prelude.{◌≡◌, ◌+◌, ◌≤◌, ◌<◌, length};
ghost use Rattle.table.specs.First.{first};
ghost use Rattle.table.specs.Valid.{front_words, empty_words, unused_words, range_words, enumeration_words, simple_words, particles_words, content_words, type_verdict, types_verdict};
ghost use Rattle.table.specs.Runs.{type_words};
ghost use Rattle.table.specs.Views.{verdict_is};
ghost use Rattle.table.specs.Words.{type_at};

use crate::answers::{Flaw, in_row};
use crate::places::{Counts, type_at};
use crate::runs::given_from;
use numbers::{content, limit, simple};
use signed::gap;

// The first four words: held, content, first attribute row and attribute count.
fn front(attributes: u32, held: u32, content: u32, start: u32, count: u32) -> Result<(), Flaw>
    ensures { verdict_is result ≡ first 0 (front_words attributes held content start count) }
{
    if limit::MOST_HELD < held {
        return Err(Flaw(0));
    }
    if content::PARTICLES < content {
        return Err(Flaw(1));
    }
    if attributes < start {
        return Err(Flaw(2));
    }
    if attributes - start < count {
        return Err(Flaw(3));
    }
    Ok(())
}

// b and c where they are not used.
fn unused(b: u32, c: u32) -> Result<(), Flaw>
    ensures { verdict_is result ≡ first 5 (unused_words b c) }
{
    if b != 0 {
        return Err(Flaw(5));
    }
    if c != 0 {
        return Err(Flaw(6));
    }
    Ok(())
}

// a, b and c of empty content.
fn empty(a: u32, b: u32, c: u32) -> Result<(), Flaw>
    ensures { verdict_is result ≡ first 4 (empty_words a b c) }
{
    if a != 0 {
        return Err(Flaw(4));
    }
    unused(b, c)
}

// b and c, the ends of a range.
fn ends(b: u32, c: u32) -> Result<(), Flaw>
    ensures { verdict_is result ≡ first 5 (range_words b c) }
{
    match gap(b, c) {
        None => Err(Flaw(6)),
        Some(_) => Ok(()),
    }
}

// b, the number of an enumeration's values, and c.
fn values(b: u32, c: u32) -> Result<(), Flaw>
    ensures { verdict_is result ≡ first 5 (enumeration_words b c) }
{
    if b == 0 {
        return Err(Flaw(5));
    }
    if limit::MOST_VALUES < b {
        return Err(Flaw(5));
    }
    if c != 0 {
        return Err(Flaw(6));
    }
    Ok(())
}

// a, b and c of simple content.
fn simple(a: u32, b: u32, c: u32) -> Result<(), Flaw>
    ensures { verdict_is result ≡ first 4 (simple_words a b c) }
{
    if simple::DATE < a {
        return Err(Flaw(4));
    }
    if a == simple::RANGED {
        return ends(b, c);
    }
    if a == simple::ENUMERATION {
        return values(b, c);
    }
    unused(b, c)
}

// a, b and c of particles.
fn particle(particles: u32, a: u32, b: u32, c: u32) -> Result<(), Flaw>
    ensures { verdict_is result ≡ first 4 (particles_words particles a b c) }
{
    if particles <= a {
        return Err(Flaw(4));
    }
    unused(b, c)
}

// a, b and c by the content.
fn by_content(particles: u32, content: u32, a: u32, b: u32, c: u32) -> Result<(), Flaw>
    ensures { verdict_is result ≡ first 4 (content_words particles content a b c) }
{
    if content == content::EMPTY {
        return empty(a, b, c);
    }
    if content == content::SIMPLE {
        return simple(a, b, c);
    }
    particle(particles, a, b, c)
}

// The seven words.
fn words(counts: Counts, row: [u32; 7]) -> Result<(), Flaw>
    ensures { verdict_is result ≡ first 0 (type_words counts.attributes counts.particles row) }
{
    let [held, content, start, count, a, b, c] = row;
    front(counts.attributes, held, content, start, count)?;
    by_content(counts.particles, content, a, b, c)
}

// The type row t.
fn row(table: &[u32], counts: Counts, t: u32) -> Result<(), Flaw>
    requires { type_at t + 6 < length table.now }
    ensures { verdict_is result ≡ type_verdict table.now counts.attributes counts.particles t }
{
    let base = type_at(t);
    in_row(base, words(counts, given_from(table, base)))
}

// Every type row, up to one at fault.
pub fn all(table: &[u32], counts: Counts) -> Result<(), Flaw>
    requires { type_at counts.types ≤ length table.now }
    ensures { verdict_is result ≡ types_verdict table.now counts.attributes counts.particles counts.types }
{
    for t in 0..counts.types {
        row(table, counts, t)?;
    }
    Ok(())
}
