// The particle rows, of four words each: a kind, and three words by that kind. Row p is told where a child has to lie over it.
ghost use Rattle.std.specs.Prelude.{true, ◌≡◌, ◌+◌, ◌≤◌, ◌<◌, leb, length};
ghost use Rattle.table.specs.First.Verdict.{right};
ghost use Rattle.table.specs.Judged.{Judged};
ghost use Rattle.table.specs.First.{first};
ghost use Rattle.table.specs.Valid.{element_words, group_words, occurs_words, particle_words, particle_verdict, particles_verdict};
ghost use Rattle.table.specs.Views.{verdict_is};
ghost use Rattle.table.specs.Words.{particle_at};

use crate::answers::{Flaw, in_row};
use crate::places::Counts;
use crate::runs::{given_from, words_from};
use numbers::{limit, particle};

// An element: name, type, 0.
fn element(types: u32, name: u32, t: u32, last: u32) -> Result<(), Flaw>
    ensures { verdict_is result ≡ first 1 (element_words types name t last) }
{
    if limit::MOST_NAME < name {
        return Err(Flaw(1));
    }
    if types <= t {
        return Err(Flaw(2));
    }
    if last != 0 {
        return Err(Flaw(3));
    }
    Ok(())
}

// A sequence or a choice: first child, number of children, so many at least, 0.
fn group(particles: u32, least: u32, p: u32, start: u32, number: u32, last: u32) -> Result<(), Flaw>
    ensures { verdict_is result ≡ first 1 (group_words particles least p start number last) }
{
    if start <= p {
        return Err(Flaw(1));
    }
    if particles <= start {
        return Err(Flaw(1));
    }
    if number < least {
        return Err(Flaw(2));
    }
    if limit::MOST_CHILDREN < number {
        return Err(Flaw(2));
    }
    if particles - start < number {
        return Err(Flaw(2));
    }
    if last != 0 {
        return Err(Flaw(3));
    }
    Ok(())
}

// Occurs: child, least, most.
fn occurs(particles: u32, p: u32, child: u32, least: u32, most: u32) -> Result<(), Flaw>
    ensures { verdict_is result ≡ first 1 (occurs_words particles p child least most) }
{
    if child <= p {
        return Err(Flaw(1));
    }
    if particles <= child {
        return Err(Flaw(1));
    }
    if limit::MOST_TIMES < least {
        return Err(Flaw(2));
    }
    if most == limit::UNBOUNDED {
        return Ok(());
    }
    if most == 0 {
        return Err(Flaw(3));
    }
    if limit::MOST_TIMES < most {
        return Err(Flaw(3));
    }
    if most < least {
        return Err(Flaw(3));
    }
    Ok(())
}

// The four words.
fn by_kind(counts: Counts, p: u32, kind: u32, x: u32, y: u32, z: u32) -> Result<(), Flaw>
    ensures { verdict_is result ≡ first 0 (particle_words counts.types counts.particles p kind x y z) }
{
    if kind == particle::ELEMENT {
        return element(counts.types, x, y, z);
    }
    if kind == particle::SEQUENCE {
        return group(counts.particles, 1, p, x, y, z);
    }
    if kind == particle::CHOICE {
        return group(counts.particles, 2, p, x, y, z);
    }
    if kind == particle::OCCURS {
        return occurs(counts.particles, p, x, y, z);
    }
    Err(Flaw(0))
}

// The particle row p.
fn row(table: &[u32], counts: Counts, p: u32) -> Result<(), Flaw>
    ensures { verdict_is result ≡ particle_verdict table.now counts.types counts.attributes counts.particles p }
{
    let base = counts.particle_at(p);
    let [kind, x, y, z] = words_from::<4>(table, base);
    in_row(base, by_kind(counts, p, kind, x, y, z))
}

// Whether so many rows from `start` on are all there. The sum is wider than its parts, so one test does.
fn reaches(start: u32, number: u32, particles: u32) -> bool
    ensures { result ≡ leb (start + number) particles }
{
    (start as usize) + (number as usize) <= (particles as usize)
}

// Whether the particle row p is judged right but for two words: its name or its least joins `small`, a word that must be 0 joins `zeros`.
fn row_right(table: &[u32], counts: Counts, p: u32, small: &mut u32, zeros: &mut u32) -> bool
    requires { particle_at counts.types counts.attributes p + 3 < length table.now }
    ensures { result ≡ true
        → Judged small.old zeros.old small.new zeros.new
        (particle_verdict table.now counts.types counts.attributes counts.particles p) }
{
    let base = counts.particle_at(p);
    let [kind, x, y, z] = given_from::<4>(table, base);
    if kind == particle::ELEMENT {
        *small |= x;
        *zeros |= z;
        return y < counts.types;
    }
    if x <= p {
        return false;
    }
    if kind == particle::OCCURS {
        *small |= y;
        if counts.particles <= x {
            return false;
        }
        if z < y {
            return false;
        }
        if z == 0 {
            return false;
        }
        return z <= limit::UNBOUNDED;
    }
    *zeros |= z;
    if particle::OCCURS < kind {
        return false;
    }
    if y < kind {
        return false;
    }
    if limit::MOST_CHILDREN < y {
        return false;
    }
    reaches(x, y, counts.particles)
}

// Whether the particle rows are judged right. A no tells nothing of the word at fault.
fn all_right(table: &[u32], counts: Counts) -> bool
    requires { particle_at counts.types counts.attributes counts.particles ≤ length table.now }
    ensures { result ≡ true
        → particles_verdict table.now counts.types counts.attributes counts.particles ≡ right }
{
    let mut small = 0;
    let mut zeros = 0;
    for p in 0..counts.particles {
        if !row_right(table, counts, p, &mut small, &mut zeros) {
            return false;
        }
    }
    small <= limit::MOST_NAME && zeros == 0
}

// Every particle row, up to one at fault: it is looked for only where the rows are not judged right.
pub fn all(table: &[u32], counts: Counts) -> Result<(), Flaw>
    requires { particle_at counts.types counts.attributes counts.particles ≤ length table.now }
    ensures { verdict_is result ≡ particles_verdict table.now counts.types counts.attributes counts.particles }
{
    if all_right(table, counts) {
        return Ok(());
    }
    for p in 0..counts.particles {
        row(table, counts, p)?;
    }
    Ok(())
}
