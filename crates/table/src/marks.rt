// A party's mark of a type, set or cleared.
ghost use Rattle.std.specs.Prelude.{◌≡◌, ◌<◌, ◌≤◌};
ghost use Rattle.numbers.specs.Limit.{parties, most_held};
ghost use Rattle.table.specs.Setting as meant;
ghost use Rattle.table.specs.Setting.{setting, setting_by};
ghost use Rattle.table.specs.First.Verdict.{right};
ghost use Rattle.table.specs.Valid.{verdict};
ghost use Rattle.table.specs.Views.{setting_is};

use crate::answers::Flaw;
use crate::check;
use crate::places::type_at;
use crate::rows::{types, word};
use numbers::limit;
use numbers::refusal::{Fault, Refusal};

// A held word with a party's bit cleared by the mark 0, set by any other.
fn marked(party: u32, mark: u32, marks: u32) -> u32
    requires { (party < parties) × (marks ≤ most_held) }
    ensures { result ≡ meant.marked party mark marks }
{
    let bit = 1u32 << party;
    let old = (marks >> party) % 2;
    let rest = marks - old * bit;
    if mark == 0 {
        return rest;
    }
    rest + bit
}

// In a table that is right.
fn set_checked(table: &mut [u32], party: u32, t: u32, mark: u32) -> Result<(), Fault<usize>>
    requires { verdict table.old ≡ right }
    ensures { setting_is result table.new ≡ setting_by table.old party t mark right }
{
    let known = types(table);
    if known <= t {
        return Err(Fault {
            why: Refusal::Root,
            at: 0,
        });
    }
    if limit::PARTIES <= party {
        return Err(Fault {
            why: Refusal::Party,
            at: 0,
        });
    }
    let i = type_at(t);
    table[i] = marked(party, mark, table[i]);
    Ok(())
}

// Sets a party's mark of type t, or clears it by the mark 0. It asks nothing of what it is given.
pub fn set_held(table: &mut [u32], party: u32, t: u32, mark: u32) -> Result<(), Fault<usize>>
    ensures { setting_is result table.new ≡ setting table.old party t mark }
{
    match check(table) {
        Err(Flaw(at)) => Err(Fault {
            why: Refusal::Table,
            at,
        }),
        Ok(()) => set_checked(table, party, t, mark),
    }
}
