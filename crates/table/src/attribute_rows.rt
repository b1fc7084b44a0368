// The attribute rows, of three words each: name, required, type.
ghost use Rattle.std.specs.Prelude.{true, ◌≡◌, ◌≤◌, length};
ghost use Rattle.table.specs.First.Verdict.{right};
ghost use Rattle.table.specs.First.{first};
ghost use Rattle.table.specs.Valid.{attribute_words, attribute_verdict, attributes_verdict};
ghost use Rattle.table.specs.Views.{verdict_is};
ghost use Rattle.table.specs.Words.{attribute_at};

use crate::answers::{Flaw, in_row};
use crate::places::{attribute_at, type_at};
use crate::runs::words_from;
use numbers::{content, limit};

// The three words, with the content and the attribute count of the type.
fn words(types: u32, name: u32, must: u32, t: u32, content: u32, count: u32) -> Result<(), Flaw>
    ensures { verdict_is result ≡ first 0 (attribute_words types name must t content count) }
{
    if limit::MOST_NAME < name {
        return Err(Flaw(0));
    }
    if 1 < must {
        return Err(Flaw(1));
    }
    if types <= t {
        return Err(Flaw(2));
    }
    if content != content::SIMPLE {
        return Err(Flaw(2));
    }
    if count != 0 {
        return Err(Flaw(2));
    }
    Ok(())
}

// The attribute row a.
fn row(table: &[u32], types: u32, a: u32) -> Result<(), Flaw>
    ensures { verdict_is result ≡ attribute_verdict table.now types a }
{
    let base = attribute_at(types, a);
    let [name, must, t] = words_from::<3>(table, base);
    let [_, content, _, count] = words_from::<4>(table, type_at(t));
    in_row(base, words(types, name, must, t, content, count))
}

// Whether the attribute rows are judged right. Words that must be small are joined over all rows, and each joint is judged once: it is as great as
// the greatest of its words. A no tells nothing of the word at fault.
fn all_right(table: &[u32], types: u32, attributes: u32) -> bool
    requires { attribute_at types attributes ≤ length table.now }
    ensures { result ≡ true → attributes_verdict table.now types attributes ≡ right }
{
    let mut names = 0;
    let mut musts = 0;
    let mut counts = 0;
    for a in 0..attributes {
        let base = attribute_at(types, a);
        let t = table[base + 2];
        if types <= t {
            return false;
        }
        let simple = type_at(t);
        if table[simple + 1] != content::SIMPLE {
            return false;
        }
        names |= table[base];
        musts |= table[base + 1];
        counts |= table[simple + 3];
    }
    if limit::MOST_NAME < names || 1 < musts {
        return false;
    }
    counts == 0
}

// Every attribute row, up to one at fault: it is looked for only where the rows are not judged right.
pub fn all(table: &[u32], types: u32, attributes: u32) -> Result<(), Flaw>
    requires { attribute_at types attributes ≤ length table.now }
    ensures { verdict_is result ≡ attributes_verdict table.now types attributes }
{
    if all_right(table, types, attributes) {
        return Ok(());
    }
    for a in 0..attributes {
        row(table, types, a)?;
    }
    Ok(())
}
