// The words behind the rows, which a table of form 2 has: how many derived entries and substitutes there are; these; a pair for each type,
// its derived entries; a pair for each particle row, its substitutes. `end` is the place where the rows end.
ghost use Rattle.std.specs.Prelude.{◌≡◌, ◌∷◌, ◌+◌, ◌≤◌, ◌<◌};
ghost use Rattle.numbers.specs.Limit.{most_types};
ghost use Rattle.table.specs.First.{first};
ghost use Rattle.table.specs.Stamps.{Stamped, Under};
ghost use Rattle.table.specs.Valid.{once, words_from, row_pair, derived_row, substitute_row, type_pair_row, row_pair_row, cast_words, form_words, form_size, derived_verdict, substitutes_verdict, type_pairs_verdict, row_pairs_verdict};
ghost use Rattle.table.specs.Views.{verdict_is};
ghost use Rattle.table.specs.Words.{derived_at, substitute_at, type_pair_at, row_pair_at, size_of, word_at};

use crate::answers::{Flaw, in_row};
use crate::header;
use crate::places::{Casts, Counts};
use crate::rows::{casts_of, word};
use crate::runs::words_from;
use numbers::{limit, particle};

// A stamp for each type that a table may have.
const STAMPS: usize = limit::MOST_TYPES as usize;

// The length that a table has by its form.
pub fn size(table: &[u32], counts: Counts) -> usize
    ensures { result ≡ form_size (word_at table.now) counts.types counts.attributes counts.particles }
{
    if word(table, header::FORM) != header::CAST_FORM {
        return counts.end();
    }
    casts_of(table, counts).row_pair_at(counts.types, counts.particles)
}

// The derived entry i: a type.
fn entry(table: &[u32], types: u32, casts: Casts, i: u32) -> Result<(), Flaw>
    ensures { verdict_is result ≡ first (derived_at casts.end i) (derived_row (word_at table.now) types casts.end i) }
{
    let place = casts.entry_at(i);
    let t = word(table, place);
    if types <= t {
        return Err(Flaw(place));
    }
    Ok(())
}

// Every derived entry, up to one at fault.
fn all_entries(table: &[u32], types: u32, casts: Casts) -> Result<(), Flaw>
    ensures { verdict_is result ≡ derived_verdict table.now types casts.end casts.entries }
{
    for i in 0..casts.entries {
        entry(table, types, casts, i)?;
    }
    Ok(())
}

// The substitute i: a name and a type.
fn substitute(table: &[u32], types: u32, casts: Casts, i: u32) -> Result<(), Flaw>
    ensures { verdict_is result
        ≡ first (substitute_at casts.end casts.entries i) (substitute_row (word_at table.now) types casts.end casts.entries i) }
{
    let place = casts.swap_at(i);
    let later = place + 1;
    let name = word(table, place);
    let t = word(table, later);
    if limit::MOST_NAME < name {
        return Err(Flaw(place));
    }
    if types <= t {
        return Err(Flaw(later));
    }
    Ok(())
}

// Every substitute, up to one at fault.
fn all_substitutes(table: &[u32], types: u32, casts: Casts) -> Result<(), Flaw>
    ensures { verdict_is result ≡ substitutes_verdict table.now types casts.end casts.entries casts.swaps }
{
    for i in 0..casts.swaps {
        substitute(table, types, casts, i)?;
    }
    Ok(())
}

// Whether type t and the types at so many places from `start` on are all different. Each is stamped with a number that no earlier type gave,
// so the stamps are never cleared; a type that has the stamp already is a repeat.
fn each_once(table: &[u32], stamps: &mut [u32; STAMPS], start: usize, count: u32, t: u32) -> bool
    requires { (start < 4398046511104) × (t < most_types) × (Stamped table.now start count) × (Under t stamps.old) }
    ensures once { result ≡ once (t ∷ words_from (word_at table.now) start count) }
    ensures stamped { Under (t + 1) stamps.new }
{
    let stamp = t + 1;
    stamps[t as usize] = stamp;
    // By index and not over a slice: a word past the end of the list is 0.
    for i in 0..count {
        let x = word(table, start + (i as usize)) as usize;
        if stamps[x] == stamp {
            return false;
        }
        stamps[x] = stamp;
    }
    true
}

// The pair of type t: its first derived entry, and how many it has, each once and never the type itself.
fn type_pair(table: &[u32], stamps: &mut [u32; STAMPS], casts: Casts, t: u32) -> Result<(), Flaw>
    requires known { t < most_types }
    requires entries { Stamped table.now (derived_at casts.end 0) casts.entries }
    requires stamped { Under t stamps.old }
    ensures verdict { verdict_is result
        ≡ first (type_pair_at casts.end casts.entries casts.swaps t) (type_pair_row (word_at table.now) casts.end casts.entries casts.swaps t) }
    ensures stamped { Under (t + 1) stamps.new }
{
    let place = casts.pair_at(t);
    let later = place + 1;
    let start = word(table, place);
    let count = word(table, later);
    if casts.entries < start {
        return Err(Flaw(place));
    }
    if casts.entries - start < count {
        return Err(Flaw(later));
    }
    if each_once(table, stamps, casts.entry_at(start), count, t) {
        return Ok(());
    }
    Err(Flaw(later))
}

// Every type's pair, up to one at fault.
fn all_type_pairs(table: &[u32], casts: Casts, types: u32) -> Result<(), Flaw>
    requires { (types ≤ most_types) × (Stamped table.now (derived_at casts.end 0) casts.entries) }
    ensures { verdict_is result ≡ type_pairs_verdict table.now casts.end casts.entries casts.swaps types }
{
    let mut stamps = [0; STAMPS];
    for t in 0..types {
        type_pair(table, &mut stamps, casts, t)?;
    }
    Ok(())
}

// The two words of a particle row's pair: first substitute and how many, none where the row is no element.
fn row_words(swaps: u32, kind: u32, start: u32, count: u32) -> Result<(), Flaw>
    ensures { verdict_is result ≡ first 0 (row_pair swaps kind start count) }
{
    if kind != particle::ELEMENT {
        if start != 0 {
            return Err(Flaw(0));
        }
        if count != 0 {
            return Err(Flaw(1));
        }
        return Ok(());
    }
    if swaps < start {
        return Err(Flaw(0));
    }
    if swaps - start < count {
        return Err(Flaw(1));
    }
    Ok(())
}

// The pair of particle row p.
fn row_pair(table: &[u32], counts: Counts, casts: Casts, p: u32) -> Result<(), Flaw>
    ensures { verdict_is result
        ≡ first (row_pair_at casts.end casts.entries casts.swaps counts.types p)
        (row_pair_row (word_at table.now) counts.types counts.attributes casts.end casts.entries casts.swaps p) }
{
    let base = casts.row_pair_at(counts.types, p);
    let [start, count] = words_from::<2>(table, base);
    let kind = word(table, counts.particle_at(p));
    in_row(base, row_words(casts.swaps, kind, start, count))
}

// Every particle row's pair, up to one at fault.
fn all_row_pairs(table: &[u32], counts: Counts, casts: Casts) -> Result<(), Flaw>
    ensures { verdict_is result
        ≡ row_pairs_verdict table.now counts.types counts.attributes casts.end casts.entries casts.swaps counts.particles }
{
    for p in 0..counts.particles {
        row_pair(table, counts, casts, p)?;
    }
    Ok(())
}

// The words from `end` on, in order.
fn all_words(table: &[u32], counts: Counts, casts: Casts) -> Result<(), Flaw>
    requires { counts.types ≤ most_types }
    ensures { verdict_is result
        ≡ first casts.end
        (cast_words (word_at table.now) counts.types counts.attributes counts.particles casts.end casts.entries casts.swaps) }
{
    if limit::MOST_DERIVATIONS < casts.entries {
        return Err(Flaw(casts.end));
    }
    if limit::MOST_SUBSTITUTES < casts.swaps {
        return Err(Flaw(casts.end + 1));
    }
    all_entries(table, counts.types, casts)?;
    all_substitutes(table, counts.types, casts)?;
    all_type_pairs(table, casts, counts.types)?;
    all_row_pairs(table, counts, casts)
}

// What stands behind the rows by the form: in form 1 there is nothing.
pub fn all(table: &[u32], counts: Counts) -> Result<(), Flaw>
    requires { counts.types ≤ most_types }
    ensures { verdict_is result
        ≡ first (size_of counts.types counts.attributes counts.particles)
        (form_words (word_at table.now) counts.types counts.attributes counts.particles) }
{
    if word(table, header::FORM) != header::CAST_FORM {
        return Ok(());
    }
    all_words(table, counts, casts_of(table, counts))
}
