//! Sets of bytes, into which brackets are compiled.
ghost use Rattle.std.specs.Prelude.{◌≡◌, ◌<◌, ◌==◌, ◌||◌, ℕ};
ghost use Rattle.pathspec_glob.specs.GlobForms.{item_view, items_view};
ghost use Rattle.pathspec_glob.specs.GlobRelation.{bracket_holds, item_holds, items_hold};
ghost use Rattle.pathspec_glob.specs.BitVecs.{words_hold};
ghost use Rattle.pathspec_glob.specs.ByteSets.{literals};

use crate::Case;
use crate::bit_vec::with_bit;
use crate::brackets::{Class, Item};

/// A set of bytes, one bit for each.
#[derive(Drop)]
pub struct ByteSet {
    words: [u64; 4],
}

impl ByteSet {
    /// Makes the set of the bytes that items hold. The cost is linear in the items: each adds at most 256 bytes.
    pub fn of_items(items: &[Item]) -> ByteSet
        ensures { (b : ℕ) → b < 256
            → words_hold result.words b ≡ items_hold (items_view items.now) b }
    {
        let mut set = ByteSet { words: [0; 4] };
        for item in items {
            set.add(*item);
        }
        set
    }

    /// Adds the bytes that an item holds.
    fn add(&mut self, item: Item)
        ensures { (b : ℕ) → b < 256 → words_hold self.new.words b
            ≡ (words_hold self.old.words b || item_holds b (item_view item)) }
    {
        match item {
            Item::Literal(byte) => self.insert(byte),
            Item::Range(first, last) => self.insert_range(first, last),
            Item::Class(class) => self.insert_class(class),
        }
    }

    /// Adds the bytes from the first to the last.
    fn insert_range(&mut self, first: u8, last: u8)
        ensures { (b : ℕ) → b < 256 → words_hold self.new.words b
            ≡ (words_hold self.old.words b || item_holds b (item_view (Item.Range first last))) }
    {
        for byte in first..=last {
            self.insert(byte);
        }
    }

    /// Adds the bytes of a class.
    fn insert_class(&mut self, class: Class)
        ensures { (b : ℕ) → b < 256 → words_hold self.new.words b
            ≡ (words_hold self.old.words b || item_holds b (item_view (Item.Class class))) }
    {
        for byte in 0..=255u8 {
            if class.holds(byte) {
                self.insert(byte);
            }
        }
    }

    /// Adds a byte.
    fn insert(&mut self, byte: u8)
        ensures { (b : ℕ) → words_hold self.new.words b
            ≡ (words_hold self.old.words b || byte == b) }
    {
        let index = (byte / 64) as usize;
        self.words[index] = with_bit(self.words[index], (byte % 64) as usize, true);
    }

    /// Whether the set holds the byte, or without case its lower or its upper form.
    pub fn holds(&self, case: Case, byte: u8) -> bool
        ensures { result ≡ bracket_holds case (literals (words_hold self.now.words)) byte }
    {
        match case {
            Case::Sensitive => self.has(byte),
            Case::Fold => self.has(byte.to_ascii_lowercase())
                || self.has(byte.to_ascii_uppercase()),
        }
    }

    /// Whether the set holds the byte.
    fn has(&self, byte: u8) -> bool
        ensures { result ≡ words_hold self.now.words byte }
    {
        (self.words[(byte / 64) as usize] >> (byte % 64)) & 1 == 1
    }
}
