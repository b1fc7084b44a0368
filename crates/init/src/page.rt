// A message's bytes, written one after another as far as the room lent goes.
ghost use Rattle.std.specs.Prelude.{◌≡◌, true, [], ◌∷◌, ◌≤◌, length, replicate};
ghost use Rattle.numbers.specs.Limit.{most_vlu8};
ghost use Rattle.init.specs.Items as items;
ghost use Rattle.init.specs.Write as meaning;
ghost use Rattle.init.specs.Write.{lies_of, bytes_for};
ghost use Rattle.init.specs.Writes.{most_of};
ghost use Rattle.init.specs.Inks.{Inks};

use crate::Item;
use crate::items::body_of;

// An item and its number, which is one that the item's head holds.
#[derive(Clone, Copy)]
pub(crate) struct Numbered {
    pub item: Item,
    pub number: u16,
    pub ghost held: { number ≤ most_of (items.head_of item) },
}

impl Numbered {
    // Whether an item's stretch, if it has one, ends among the bytes given.
    #[tactic(auto, unfolding(crate::specs::Write::lies_of, crate::specs::Write::content_of))]
    pub fn lies_in(self, bytes: usize, a: u32) -> bool
        ensures { result ≡ lies_of (meaning.content_of self.item) bytes a self.number }
    {
        match self.item {
            Item::Uri | Item::Text | Item::Formats => {
                a as usize + usize::from(self.number) <= bytes
            }
            _ => true,
        }
    }
}

// The bytes lent, and where the next one goes: nowhere, once there was no room for one, and then no more is written.
#[derive(Drop)]
pub(crate) struct Page<'a> {
    pub message: &'a mut [u8],
    pub ink: Option<usize>,
}

impl Page<'_> {
    // A byte.
    #[tactic(auto, unfolding(crate::specs::Writes::inked, crate::specs::Writes::dot))]
    fn put(&mut self, x: u8)
        ensures { Inks self.old (x ∷ []) self.new }
    {
        if let Some(at) = self.ink {
            if at < self.message.len() {
                self.message[at] = x;
                self.ink = Some(at + 1);
            } else {
                self.ink = None;
            }
        }
    }

    // A vluimsbf8, shortest.
    #[tactic(auto, unfolding(crate::specs::Items::bytes8, crate::specs::Writes::inked))]
    fn put_number(&mut self, v: u16)
        requires { v ≤ most_vlu8 }
        ensures { Inks self.old (items.bytes8 v) self.new }
    {
        if v < 128 {
            self.put(v as u8);
            return;
        }
        let high = 128 + v / 128;
        let low = v % 128;
        self.put(high as u8);
        self.put(low as u8);
    }

    // An item's number.
    #[tactic(auto, unfolding(crate::specs::Items::head_bytes, crate::specs::Items::head_of, crate::specs::Writes::most_of, crate::specs::Writes::inked))]
    fn put_head(&mut self, n: Numbered)
        ensures { Inks self.old (items.head_bytes (items.head_of n.item) n.number) self.new }
    {
        match n.item {
            Item::UnitByte | Item::Flags(_) | Item::Formats => self.put(n.number as u8),
            Item::NoFlags | Item::NoFormats => {}
            _ => self.put_number(n.number),
        }
    }

    // Bytes one after another.
    fn put_stretch(&mut self, bytes: &[u8])
        ensures { Inks self.old bytes.now self.new }
    {
        for &x in bytes {
            self.put(x);
        }
    }

    // Zeros.
    fn put_zeros(&mut self, n: usize)
        ensures { Inks self.old (replicate n 0) self.new }
    {
        for _ in 0..n {
            self.put(0);
        }
    }

    // What follows an item's number.
    #[tactic(auto, unfolding(crate::specs::Write::lies_of, crate::specs::Write::content_of, crate::specs::Write::content, crate::specs::Items::body, crate::specs::Writes::inked))]
    fn put_content(&mut self, given: &[u8], n: Numbered, a: u32)
        requires { lies_of (meaning.content_of n.item) (length given.now) a n.number ≡ true }
        ensures { Inks self.old (meaning.content (meaning.content_of n.item) given.now a n.number) self.new }
    {
        match n.item {
            Item::Flags(_) => self.put_zeros(body_of(n.item, u32::from(n.number)) as usize),
            Item::Uri | Item::Text | Item::Formats => {
                let from = a as usize;
                self.put_stretch(&given[from..from + usize::from(n.number)]);
            }
            _ => {}
        }
    }

    // An item's number and what follows it.
    pub fn put_item(&mut self, given: &[u8], n: Numbered, a: u32)
        requires { lies_of (meaning.content_of n.item) (length given.now) a n.number ≡ true }
        ensures { Inks self.old (bytes_for n.item given.now a n.number) self.new }
    {
        self.put_head(n);
        self.put_content(given, n, a);
    }
}
