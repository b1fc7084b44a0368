// What stands in rows that are inside a table, as those of a right table are: no word's place is tested. Each answers as its namesake in `rows`.
// The two are not one by a trait or a closure for the reading of a word: its two impls, its law and the wrappers are longer than these few lines.
ghost use Rattle.std.specs.Prelude.{◌≡◌, ◌<◌};
ghost use Rattle.table.specs.Inside.{TypeInside, AttributeInside, ParticleInside};
ghost use Rattle.table.specs.Rows.{table_of, held_of, attribute_of};
ghost use Rattle.table.specs.Views.{content_is, row_is, attribute_is, Spans};

use crate::answers::{Attribute, Content, Particle, Span};
use crate::header;
use crate::places::{attribute_at, particle_at, type_at};
use crate::rows::row_of;
use crate::runs::given_from;
use numbers::content;

// Whether a party holds type t. The party is one of those that a word has bits for.
pub fn held(table: &[u32], party: u32, t: u32) -> bool
    requires { (TypeInside table.now t) × (party < 32) }
    ensures { result ≡ held_of table.now party t }
{
    let at = type_at(t);
    let marks = table[at];
    (marks >> party) % 2 == 1
}

// The content of type t.
pub fn content(table: &[u32], t: u32) -> Content
    requires { TypeInside table.now t }
    ensures { content_is result ≡ (table_of table.now).content t }
{
    let base = type_at(t);
    let kind = table[base + 1];
    if kind == content::EMPTY {
        return Content::Empty;
    }
    let a = table[base + 4];
    if kind == content::SIMPLE {
        let b = table[base + 5];
        let c = table[base + 6];
        return Content::Simple(a, b, c);
    }
    Content::Particles(a)
}

// The attribute rows of type t.
pub fn span(table: &[u32], t: u32) -> Span
    requires { TypeInside table.now t }
    ensures { Spans table.now t result }
{
    let base = type_at(t);
    let first = table[base + 2];
    let count = table[base + 3];
    Span { first, count }
}

// The attribute row i.
pub fn attribute(table: &[u32], i: u32) -> Attribute
    requires { AttributeInside table.now i }
    ensures { attribute_is result ≡ attribute_of table.now i }
{
    let types = table[header::TYPES];
    let base = attribute_at(types, i);
    let [name, must, t] = given_from::<3>(table, base);
    let [simple, b, c] = given_from::<3>(table, type_at(t) + 4);
    Attribute {
        name,
        must: must == 1,
        simple,
        b,
        c,
    }
}

// The particle row i.
pub fn particle(table: &[u32], i: u32) -> Particle
    requires { ParticleInside table.now i }
    ensures { row_is result ≡ (table_of table.now).row i }
{
    let types = table[header::TYPES];
    let attributes = table[header::ATTRIBUTES];
    let base = particle_at(types, attributes, i);
    let [kind, x, y, z] = given_from::<4>(table, base);
    row_of(i, kind, x, y, z)
}
