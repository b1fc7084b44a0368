// What a reading leaves, in the buffers lent for it.
ghost use Rattle.std.specs.Prelude.{◌≡◌, ◌+◌, ◌*◌, ◌≤◌, length};
ghost use Rattle.std.proofs.lemmas.List.Edits.{sets};
ghost use Rattle.buffers.specs.Bytes.{bytes_of};
ghost use Rattle.numbers.specs.Limit.{init_words};
ghost use Rattle.init.specs.Back.{Zeros};
ghost use Rattle.init.specs.Reads.{words_in, width_in, slot_index, store_is, store_of};

use crate::Slot;
use crate::items::Words;
use buffers::put_word;

// The words of init, all of them, and the bytes of codecs.
#[derive(Drop)]
pub(crate) struct Lent<'a> {
    pub init: &'a mut [u32],
    pub codecs: &'a mut [u8],
    pub ghost whole: { length init.now ≡ init_words },
}

// Words into init.
fn lay(init: &mut [u32], i: usize, w: Words)
    requires { i + width_in w ≤ length init.old }
    ensures { init.new ≡ sets init.old i (words_in w) }
{
    match w {
        Words::One(one) => {
            init[i] = one;
        }
        Words::Two(one, other) => {
            init[i] = one;
            init[i + 1] = other;
        }
    }
}

// Words behind those used in codecs.
#[tactic(auto, unfolding(buffers::specs::Bytes::spelled))]
fn append(codecs: &mut [u8], used: usize, w: Words)
    requires { 4 * (used + width_in w) ≤ length codecs.old }
    ensures { codecs.new ≡ sets codecs.old (4 * used) (bytes_of (words_in w)) }
{
    let at = 4 * used;
    match w {
        Words::One(one) => {
            put_word(codecs, at, one);
        }
        Words::Two(one, other) => {
            put_word(codecs, at, one);
            put_word(codecs, at + 4, other);
        }
    }
}

// How many words there are.
fn width(w: Words) -> usize
    ensures { result ≡ width_in w }
{
    match w {
        Words::One(_) => 1,
        Words::Two(_, _) => 2,
    }
}

impl Lent<'_> {
    ghost use Rattle.init.specs.Lent.{Same};

    // Zeros throughout.
    pub fn clear(&mut self)
        ensures same { Same self.old self.new }
        ensures zeros { Zeros self.new.codecs.now self.new.init.now }
    {
        buffers::clear(self.codecs);
        buffers::clear_words(self.init);
    }

    // Words stored where an item's stand: how many of codecs are used then, where there is room.
    #[tactic(auto, unfolding(crate::specs::Reads::store_is, crate::specs::Reads::store_of, crate::specs::Reads::slot_index))]
    pub fn keep(&mut self, slot: Slot, used: usize, w: Words) -> Option<usize>
        requires { slot_index slot + width_in w ≤ init_words }
        ensures same { Same self.old self.new }
        ensures kept { store_is result self.new.init.now self.new.codecs.now
            ≡ store_of slot (words_in w) used self.old.init.now self.old.codecs.now }
    {
        match slot {
            Slot::Init(i) => {
                lay(self.init, i, w);
                Some(used)
            }
            Slot::Codecs => {
                let room = self.codecs.len() / 4;
                let n = width(w);
                if room < used || room - used < n {
                    return None;
                }
                append(self.codecs, used, w);
                Some(used + n)
            }
        }
    }
}
