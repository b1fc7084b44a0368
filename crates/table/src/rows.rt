// What stands in a table's rows. Each answers on every list: a word past its end is 0.
ghost use Rattle.std.specs.Prelude.{◌≡◌, ◌+◌, ◌<◌};
ghost use Rattle.table.specs.Rows.{table_of, held_of, attribute_of, row_from, row_at};
ghost use Rattle.table.specs.Views.{content_is, row_is, attribute_is, Spans, Listed, listed_at};
ghost use Rattle.table.specs.Words.{word_at, types_in, attributes_in, particles_in, size_of, rows_end, derivations_in, substitutes_in};

use crate::answers::{Attribute, Content, Particle, Span, TypeList};
use crate::header;
use crate::places::{Casts, Counts, attribute_at, particle_at, type_at};
use crate::runs::words_from;
use numbers::{content, particle};

// The word at a place.
pub fn word(table: &[u32], i: usize) -> u32
    ensures { result ≡ word_at table.now i }
{
    table.get(i).copied().unwrap_or(0)
}

// The number of types.
pub fn types(table: &[u32]) -> u32
    ensures { result ≡ (table_of table.now).types }
{
    word(table, header::TYPES)
}

// Whether a party holds type t: its bit of the held word. A word has no bit 32.
pub fn held(table: &[u32], party: u32, t: u32) -> bool
    ensures { result ≡ held_of table.now party t }
{
    let marks = word(table, type_at(t));
    if party < 32 {
        return (marks >> party) % 2 == 1;
    }
    false
}

// The content of type t.
pub fn content(table: &[u32], t: u32) -> Content
    ensures { content_is result ≡ (table_of table.now).content t }
{
    let base = type_at(t);
    let kind = word(table, base + 1);
    if kind == content::EMPTY {
        return Content::Empty;
    }
    let a = word(table, base + 4);
    if kind == content::SIMPLE {
        let b = word(table, base + 5);
        let c = word(table, base + 6);
        return Content::Simple(a, b, c);
    }
    Content::Particles(a)
}

// The attribute rows of type t.
pub fn span(table: &[u32], t: u32) -> Span
    ensures { Spans table.now t result }
{
    let base = type_at(t);
    let first = word(table, base + 2);
    let count = word(table, base + 3);
    Span { first, count }
}

// The attribute row i.
pub fn attribute(table: &[u32], i: u32) -> Attribute
    ensures { attribute_is result ≡ attribute_of table.now i }
{
    let types = word(table, header::TYPES);
    let base = attribute_at(types, i);
    let [name, must, t] = words_from::<3>(table, base);
    let [simple, b, c] = words_from::<3>(table, type_at(t) + 4);
    Attribute {
        name,
        must: must == 1,
        simple,
        b,
        c,
    }
}

// The particle row i, by its words.
pub fn row_of(i: u32, kind: u32, x: u32, y: u32, z: u32) -> Particle
    ensures { row_is result ≡ row_from i kind x y z }
{
    if kind == particle::ELEMENT {
        return Particle::Element(x, y, i);
    }
    if kind == particle::SEQUENCE {
        return Particle::Sequence(x, y);
    }
    if kind == particle::CHOICE {
        return Particle::Choice(x, y);
    }
    Particle::Occurs(x, y, z)
}

// The particle row i of a table with so many types and attribute rows.
fn row_at(table: &[u32], types: u32, attributes: u32, i: u32) -> Particle
    ensures { row_is result ≡ row_at table.now types attributes i }
{
    let base = particle_at(types, attributes, i);
    let [kind, x, y, z] = words_from::<4>(table, base);
    row_of(i, kind, x, y, z)
}

// The particle row i.
pub fn particle(table: &[u32], i: u32) -> Particle
    ensures { row_is result ≡ (table_of table.now).row i }
{
    let types = word(table, header::TYPES);
    let attributes = word(table, header::ATTRIBUTES);
    row_at(table, types, attributes, i)
}

// How many rows of each kind there are.
pub(crate) fn counts(table: &[u32]) -> Counts
    ensures types { result.types ≡ types_in table.now }
    ensures attributes { result.attributes ≡ attributes_in table.now }
    ensures particles { result.particles ≡ particles_in table.now }
{
    Counts {
        types: word(table, header::TYPES),
        attributes: word(table, header::ATTRIBUTES),
        particles: word(table, header::PARTICLES),
    }
}

// What stands behind so many rows.
pub fn casts_of(table: &[u32], counts: Counts) -> Casts
    ensures end { result.end ≡ size_of counts.types counts.attributes counts.particles }
    ensures entries { result.entries ≡ word_at table.now result.end }
    ensures swaps { result.swaps ≡ word_at table.now (result.end + 1) }
{
    let end = counts.end();
    Casts {
        end,
        entries: word(table, end),
        swaps: word(table, end + 1),
    }
}

// What stands behind the rows.
fn casts(table: &[u32]) -> Casts
    ensures end { result.end ≡ rows_end table.now }
    ensures entries { result.entries ≡ derivations_in table.now }
    ensures swaps { result.swaps ≡ substitutes_in table.now }
{
    casts_of(table, counts(table))
}

// How many derived entries there are in all: type codes are sent only where there are any.
pub fn derivations(table: &[u32]) -> u32
    ensures { result ≡ (table_of table.now).derivations }
{
    casts(table).entries
}

// How many substitutes there are in all.
pub fn swaps(table: &[u32]) -> u32
    ensures { result ≡ substitutes_in table.now }
{
    casts(table).swaps
}

// The derived types of type t.
pub fn derived(table: &[u32], t: u32) -> TypeList
    ensures { (Listed table.now ((table_of table.now).derived t) result) × (result.first < 4398046511104) }
{
    let casts = casts(table);
    let [start, count] = words_from::<2>(table, casts.pair_at(t));
    TypeList {
        first: casts.entry_at(start),
        paired: false,
        count,
    }
}

// The types of a row's substitutes.
pub fn substitutes(table: &[u32], row: u32) -> TypeList
    ensures listed { Listed table.now ((table_of table.now).substitutes row) result }
    ensures small { result.first < 4398046511104 }
{
    let casts = casts(table);
    let [start, count] = words_from::<2>(table, casts.row_pair_at(word(table, header::TYPES), row));
    TypeList {
        first: casts.swap_at(start) + 1,
        paired: true,
        count,
    }
}

// One of a list, counted from 0.
pub fn listed(table: &[u32], list: TypeList, k: u32) -> u32
    requires { list.first < 4398046511104 }
    ensures { result ≡ word_at table.now (listed_at list k) }
{
    let j = k as usize;
    if list.paired {
        return word(table, list.first + 2 * j);
    }
    word(table, list.first + j)
}
