// How a payload is coded, as reader and writer pass it down by value; and in specs/ the definitions that both are held to, with what is proved of
// each by itself in proofs/.
#![tactic(auto)]

ghost use Rattle.std.specs.Prelude.{◌≡◌, cond, []};
ghost use Rattle.table.specs.Rows.{table_of};
ghost use Rattle.model.specs.Modes.{offers, row_choices, Lists};

use numbers::limit;
use table::{TypeList, rows};

// Length coding: never, by a flag, always.
#[derive(Clone, Copy)]
pub enum Lengths {
    Never,
    Optional,
    Always,
}

// What an element may have to choose from: anything, substitutes, derived types. Where there is nothing, an element costs one test.
#[derive(Clone, Copy)]
pub struct Choices {
    pub any: bool,
    pub substitutes: bool,
    pub derived: bool,
}

// Substitutes and derived types to choose from, or not.
pub fn offered(substitutes: bool, derived: bool) -> Choices
    ensures { result ≡ offers substitutes derived }
{
    let any = if substitutes { true } else { derived };
    Choices {
        any,
        substitutes,
        derived,
    }
}

// The root is of no row.
pub const NO_ROW: u32 = limit::MOST_WORD;

// No types.
const NO_TYPES: TypeList = TypeList {
    first: 0,
    paired: false,
    count: 0,
};

impl Choices {
    // What an element of a row has to choose from: the root has nothing.
    pub fn of_row(self, row: u32) -> Choices
        ensures { result ≡ row_choices self row }
    {
        if row == NO_ROW {
            return offered(false, false);
        }
        self
    }

    // The types of a row's substitutes, where any are looked for.
    pub fn substitutes_of(self, table: &[u32], row: u32) -> TypeList
        ensures { Lists table.now (cond self.substitutes ((table_of table.now).substitutes row) [])
            result }
    {
        if self.substitutes {
            return rows::substitutes(table, row);
        }
        NO_TYPES
    }

    // The derived types of a type, where any are looked for.
    pub fn derived_of(self, table: &[u32], t: u32) -> TypeList
        ensures { Lists table.now (cond self.derived ((table_of table.now).derived t) []) result }
    {
        if self.derived {
            return rows::derived(table, t);
        }
        NO_TYPES
    }
}

// A payload's mode by a table: its length coding, and whether the table has substitutes and type codes are sent; and whose marks count.
#[derive(Clone, Copy)]
pub struct Mode {
    pub lengths: Lengths,
    pub choices: Choices,
    pub party: u32,
}
