// The check of a table, and what stands in its rows. Each answers on any words.
ghost use Rattle.std.specs.Prelude.{◌≡◌};
ghost use Rattle.table.specs.Words.{word_at};

use super::accepted;
use numbers::refusal::Refusal;
use numbers::{content, particle, refusal};
use table::{Content, Flaw, Particle};

// 0 where the table is right; 1, and the place of the first word at fault.
pub fn probe_table(words: &[u32], place: &mut usize) -> u32 {
    match table::check(words) {
        Ok(()) => {
            *place = 0;
            refusal::ACCEPTED
        }
        Err(Flaw(word)) => {
            *place = word;
            Refusal::Table.number()
        }
    }
}

pub fn probe_table_word(words: &[u32], i: usize) -> u32
    ensures { result ≡ word_at words.now i }
{
    table::rows::word(words, i)
}

pub fn probe_types(words: &[u32]) -> u32 {
    table::rows::types(words)
}

pub fn probe_held(words: &[u32], party: u32, t: u32) -> u32 {
    table::rows::held(words, party, t) as u32
}

// The content of type t: 0 nothing; 1 a simple kind with its parameters; 2 a particle row.
pub fn probe_content(words: &[u32], t: u32, out: &mut [u32; 4]) -> u32 {
    match table::rows::content(words, t) {
        Content::Empty => accepted(0, 0, 0, out),
        Content::Simple(kind, b, c) => {
            accepted(kind, b, c, out);
            content::SIMPLE
        }
        Content::Particles(p) => {
            accepted(p, 0, 0, out);
            content::PARTICLES
        }
    }
}

// The first attribute row of type t, and their number.
pub fn probe_span(words: &[u32], t: u32, out: &mut [u32; 4]) -> u32 {
    let s = table::rows::span(words, t);
    accepted(s.first, s.count, 0, out)
}

// The attribute row i: 1 where it is required; its name, and the simple kind of its type with its parameters.
pub fn probe_attribute(words: &[u32], i: u32, out: &mut [u32; 4]) -> u32 {
    let a = table::rows::attribute(words, i);
    accepted(a.name, a.simple, a.b, out);
    out[3] = a.c;
    a.must as u32
}

// The particle row i: 0 element, 1 sequence, 2 choice, 3 occurs; and its words.
pub fn probe_particle(words: &[u32], i: u32, out: &mut [u32; 4]) -> u32 {
    match table::rows::particle(words, i) {
        Particle::Element(name, t, _) => accepted(name, t, 0, out),
        Particle::Sequence(first, n) => {
            accepted(first, n, 0, out);
            particle::SEQUENCE
        }
        Particle::Choice(first, n) => {
            accepted(first, n, 0, out);
            particle::CHOICE
        }
        Particle::Occurs(child, least, most) => {
            accepted(child, least, most, out);
            particle::OCCURS
        }
    }
}
