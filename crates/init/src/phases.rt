// Which item comes next, and where its words stand.
ghost use Rattle.std.specs.Prelude.{◌≡◌, ◌+◌, ◌*◌, ◌≤◌};
ghost use Rattle.numbers.specs.Limit.{init_words};
ghost use Rattle.init.specs.Phases as meaning;
ghost use Rattle.init.specs.Promises.{Follows};
ghost use Rattle.init.specs.declared.Phase.TheVariants as phases;

use crate::{Item, Left, Phase, Slot};

// The first word of init that a schema has.
pub const FIRST_SCHEMA: usize = 12;

// Whether no item is left.
#[tactic(auto, unfolding(crate::specs::Phases::ends))]
pub fn is_end(phase: Phase) -> bool
    ensures { result ≡ meaning.ends phase }
{
    matches!(phase, Phase::End)
}

// The next item, and where its words stand.
#[tactic(auto, unfolding(crate::specs::Phases::item_of, crate::specs::Phases::slot_of, crate::specs::Phases::reach))]
pub fn row(phase: Phase) -> (Item, Slot)
    requires { meaning.reach phase ≤ init_words }
    ensures item { result.0 ≡ meaning.item_of phase }
    ensures slot { result.1 ≡ meaning.slot_of phase }
{
    match phase {
        Phase::Profile => (Item::Number, Slot::Init(1)),
        Phase::UnitByte => (Item::UnitByte, Slot::Init(2)),
        Phase::NoFlags => (Item::NoFlags, Slot::Init(4)),
        Phase::Length => (Item::Length, Slot::Init(3)),
        Phase::Flags(n) => (Item::Flags(n), Slot::Init(4)),
        Phase::Schemas(_) => (Item::Schemas, Slot::Init(6)),
        Phase::Uri(l) => (Item::Uri, Slot::Init(l.slot)),
        Phase::Hint(l) => (Item::Text, Slot::Init(l.slot + 2)),
        Phase::Codecs(l) => (Item::Number, Slot::Init(l.slot + 4)),
        Phase::Codec(_) => (Item::Text, Slot::Codecs),
        Phase::Types(_) | Phase::OneType(_) => (Item::Number, Slot::Codecs),
        Phase::Formats => (Item::Formats, Slot::Init(8)),
        Phase::NoFormats => (Item::NoFormats, Slot::Init(9)),
        Phase::Description => (Item::Text, Slot::Init(10)),
        Phase::End => (Item::NoFormats, Slot::Codecs),
    }
}

// What comes of what is left: a type, else a codec, else a schema, else the formats.
fn settle(l: Left) -> Phase
    requires { l.slot + 5 * l.schemas ≤ init_words }
    ensures { Follows (meaning.rest l) init_words (3 * l.schemas + 3) result }
{
    if 0 < l.types {
        return Phase::OneType(Left {
            types: l.types - 1,
            ..l
        });
    }
    if 0 < l.codecs {
        return Phase::Codec(Left {
            codecs: l.codecs - 1,
            types: 0,
            ..l
        });
    }
    if 0 < l.schemas {
        return Phase::Uri(Left {
            schemas: l.schemas - 1,
            codecs: 0,
            types: 0,
            ..l
        });
    }
    if l.formats {
        return Phase::Formats;
    }
    Phase::NoFormats
}

// The schemas, of which there are so many.
#[tactic(auto, using(crate::proofs::PhaseWays::list_ways))]
fn begin(schemas: u32, formats: bool) -> Phase
    requires { 12 + 5 * schemas ≤ init_words }
    ensures { Follows (meaning.later 12 schemas formats) init_words 26 result }
{
    settle(Left {
        slot: FIRST_SCHEMA,
        schemas,
        codecs: 0,
        types: 0,
        formats,
    })
}

// The codecs of a schema, of which there are so many.
#[tactic(auto, using(crate::proofs::PhaseWays::list_ways))]
fn list_codecs(l: Left, codecs: u32) -> Phase
    requires { l.slot + 5 * (l.schemas + 1) ≤ init_words }
    ensures { Follows (meaning.rest_of (phases.Codecs l) codecs) init_words (3 * l.schemas + 3) result }
{
    settle(Left {
        slot: l.slot + 5,
        codecs,
        types: 0,
        ..l
    })
}

// The types of a codec, of which there are so many.
#[tactic(auto, using(crate::proofs::PhaseWays::list_ways))]
fn list_types(l: Left, types: u32) -> Phase
    requires { l.slot + 5 * l.schemas ≤ init_words }
    ensures { Follows (meaning.rest_of (phases.Types l) types) init_words (3 * l.schemas + 3) result }
{
    settle(Left { types, ..l })
}

// What comes behind the unit byte.
fn after_unit(v: u32) -> Phase
    ensures { Follows (meaning.rest_of phases.UnitByte v) init_words 29 result }
{
    if v / 16 % 2 == 1 {
        return Phase::NoFlags;
    }
    Phase::Length
}

// What comes behind an item whose number is v.
#[tactic(auto, using(crate::proofs::PhaseWays::next_ways))]
pub fn next(phase: Phase, v: u32) -> Phase
    requires { meaning.grown phase v ≤ init_words }
    ensures { Follows (meaning.rest_of phase v) init_words (meaning.rank phase + meaning.spare (meaning.slot_of phase)) result }
{
    match phase {
        Phase::Profile => Phase::UnitByte,
        Phase::UnitByte => after_unit(v),
        Phase::NoFlags => Phase::Schemas(false),
        Phase::Length => Phase::Flags(v),
        Phase::Flags(_) => Phase::Schemas(v / 8 % 2 == 1),
        Phase::Schemas(f) => begin(v, f),
        Phase::Uri(l) => Phase::Hint(l),
        Phase::Hint(l) => Phase::Codecs(l),
        Phase::Codecs(l) => list_codecs(l, v),
        Phase::Codec(l) => Phase::Types(l),
        Phase::Types(l) => list_types(l, v),
        Phase::OneType(l) => settle(l),
        Phase::Formats | Phase::NoFormats => Phase::Description,
        Phase::Description | Phase::End => Phase::End,
    }
}
