// An item read from a place of a message, which ends at the wall.
ghost use Rattle.std.specs.Prelude.{◌≡◌, ◌≤◌, ◌<◌, length};
ghost use Rattle.numbers.specs.Limit.{most_vlu8, most_message};
ghost use Rattle.numbers.specs.Refused.{answered};
ghost use Rattle.init.specs.Items as meaning;
ghost use Rattle.init.specs.declared.Item.TheVariants as item;
ghost use Rattle.init.specs.Found.{told, number_is, number_in, found_is, found_in};

use crate::Item;
use numbers::limit;
use numbers::refusal::Refusal;

// An item's number, the place past that, and the place past the item.
#[derive(Clone, Copy)]
pub struct Found {
    pub number: u16,
    pub content: usize,
    pub end: usize,
}

// A byte, and the place past it.
#[tactic(auto, unfolding(crate::specs::Items::byte_at, crate::specs::Found::number_is))]
fn byte_at(s: &[u8], at: usize) -> Result<(u8, usize), Refusal>
    ensures { number_is result ≡ meaning.byte_at s.now (length s.now) at }
{
    if at < s.len() {
        return Ok((s[at], at + 1));
    }
    Err(Refusal::PastEnd)
}

// The second byte of a vluimsbf8 whose first holds the seven bits x.
fn second_at(s: &[u8], x: u8, at: usize) -> Result<(u16, usize), Refusal>
    requires { x < 128 }
    ensures is { number_is result ≡ meaning.second_at s.now (length s.now) x at }
    ensures small { number_in result ≤ most_vlu8 }
{
    let (y, next) = byte_at(s, at)?;
    if 128 <= y {
        return Err(Refusal::TooLarge);
    }
    if x == 0 {
        return Err(Refusal::NotShortest);
    }
    Ok((u16::from(x) * 128 + u16::from(y), next))
}

// A vluimsbf8 of at most two bytes in shortest form.
fn number_at(s: &[u8], at: usize) -> Result<(u16, usize), Refusal>
    ensures is { number_is result ≡ meaning.number_at s.now (length s.now) at }
    ensures small { number_in result ≤ most_vlu8 }
{
    let (x, next) = byte_at(s, at)?;
    if x < 128 {
        return Ok((u16::from(x), next));
    }
    second_at(s, x - 128, next)
}

// An item's own number.
#[tactic(auto, unfolding(crate::specs::Items::head_at, crate::specs::Items::head_of, crate::specs::Found::number_is, crate::specs::Found::number_in))]
fn head_at(item: Item, s: &[u8], at: usize) -> Result<(u16, usize), Refusal>
    ensures is { number_is result ≡ meaning.head_at (meaning.head_of item) s.now (length s.now) at }
    ensures small { number_in result ≤ most_vlu8 }
{
    match item {
        Item::UnitByte | Item::Flags(_) | Item::Formats => {
            let (x, next) = byte_at(s, at)?;
            Ok((u16::from(x), next))
        }
        Item::NoFlags | Item::NoFormats => Ok((0, at)),
        _ => number_at(s, at),
    }
}

// The unit byte judged: its reserved bits, then its unit size code.
#[tactic(auto, unfolding(crate::specs::Items::before))]
fn judge_unit(v: u16) -> Result<(), Refusal>
    ensures { answered result ≡ meaning.before item.UnitByte v }
{
    if v % 16 != 15 {
        return Err(Refusal::ReservedBits);
    }
    if limit::MOST_UNIT < u32::from(v / 32) {
        return Err(Refusal::NoSuchCode);
    }
    Ok(())
}

// The number of schemas judged.
#[tactic(auto, unfolding(crate::specs::Items::before))]
fn judge_schemas(v: u16) -> Result<(), Refusal>
    ensures { answered result ≡ meaning.before item.Schemas v }
{
    if v == 0 {
        return Err(Refusal::NoSchemas);
    }
    if limit::MOST_SCHEMAS < u32::from(v) {
        return Err(Refusal::ManySchemas);
    }
    Ok(())
}

// A number judged that is not 0.
#[tactic(auto, unfolding(crate::specs::Items::before))]
fn judge_some(v: u16) -> Result<(), Refusal>
    ensures { answered result ≡ meaning.before item.Uri v }
{
    if v == 0 {
        return Err(Refusal::NoSuchCode);
    }
    Ok(())
}

// The number judged, before what follows it is looked at.
#[tactic(auto, unfolding(crate::specs::Items::before))]
fn judge_before(item: Item, v: u16) -> Result<(), Refusal>
    ensures { answered result ≡ meaning.before item v }
{
    match item {
        Item::UnitByte => judge_unit(v),
        Item::Schemas => judge_schemas(v),
        Item::Length | Item::Uri => judge_some(v),
        _ => Ok(()),
    }
}

// The bytes that follow the number.
#[tactic(auto, unfolding(crate::specs::Items::body))]
pub fn body_of(item: Item, v: u32) -> u32
    ensures { result ≡ meaning.body item v }
{
    match item {
        Item::Flags(n) => n.saturating_sub(1),
        Item::Uri | Item::Text | Item::Formats => v,
        _ => 0,
    }
}

// The number judged once what follows it is there: of the flags the second, third and fourth are not taken.
#[tactic(auto, unfolding(crate::specs::Items::after))]
fn judge_after(item: Item, v: u16) -> Result<(), Refusal>
    ensures { answered result ≡ meaning.after item v }
{
    match item {
        Item::Flags(_) if v / 16 % 8 != 0 => Err(Refusal::AdvancedFlag),
        _ => Ok(()),
    }
}

// What stands behind an item's number v, which ends at p.
fn rest_at(item: Item, wall: usize, v: u16, p: usize) -> Result<Found, Refusal>
    requires { v ≤ most_vlu8 }
    ensures is { found_is result ≡ meaning.rest_at item wall v p }
    ensures small { found_in result ≤ most_vlu8 }
{
    judge_before(item, v)?;
    let n = body_of(item, u32::from(v)) as usize;
    if wall < p || wall - p < n {
        return Err(Refusal::PastEnd);
    }
    judge_after(item, v)?;
    Ok(Found {
        number: v,
        content: p,
        end: p + n,
    })
}

// An item.
pub(crate) fn item_in(item: Item, s: &[u8], at: usize) -> Result<Found, Refusal>
    ensures is { found_is result ≡ meaning.item_at item s.now (length s.now) at }
    ensures small { found_in result ≤ most_vlu8 }
{
    let (v, p) = head_at(item, s, at)?;
    rest_at(item, s.len(), v, p)
}

// An item of a message with more behind its wall.
pub fn item_at(item: Item, s: &[u8], wall: usize, at: usize) -> Result<Found, Refusal>
    requires { wall ≤ length s.now }
    ensures is { found_is result ≡ meaning.item_at item s.now wall at }
    ensures small { found_in result ≤ most_vlu8 }
{
    item_in(item, &s[..wall], at)
}

// An item's words.
#[derive(Clone, Copy)]
pub enum Words {
    One(u32),
    Two(u32, u32),
}

// The words of an item whose number v ends at p: of the flags' length the bits stepped over behind seven flags.
#[tactic(auto, unfolding(crate::specs::Items::two, crate::specs::Items::one, crate::specs::Items::other))]
pub fn words_of(item: Item, v: u16, p: usize) -> Words
    requires { p ≤ most_message }
    ensures { result ≡ told (meaning.two item) (meaning.one item v p) (meaning.other item v p) }
{
    let v = u32::from(v);
    match item {
        Item::Number | Item::Schemas => Words::One(v),
        Item::UnitByte => Words::One(v / 32),
        Item::Length => Words::One((8 * v).saturating_sub(7)),
        Item::Flags(_) => Words::Two(v / 2, v % 2),
        Item::Uri | Item::Text | Item::Formats => Words::Two(p as u32, v),
        Item::NoFlags => Words::Two(0, 0),
        Item::NoFormats => Words::One(0),
    }
}
