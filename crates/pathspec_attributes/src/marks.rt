//! The names of attributes that a question has decided.
ghost use Rattle.std.specs.Prelude.{◌≡◌, ◌||◌, not, false, List, ℕ, bytes_eq, Some, IfOk, OnOk, OnErr, if◌then◌else◌};
ghost use Rattle.std.specs.BTreeMap.{btree_map_len};
ghost use Rattle.pathspec_attributes.specs.Marks.{number_of, AreUpTo};

use std::alloc::{AllocError, Global};
use std::collections::BTreeMap;

/// Names, each marked or not. To forget all marks takes no longer than to forget one.
#[derive(Debug, Drop)]
pub(crate) struct Marks {
    /// Each name that was ever marked, with the number of the question that marked it last.
    numbers: BTreeMap<Vec<u8>, u64>,
    /// The number of the question that marks names now.
    number: u64,
    ghost up_to: { AreUpTo number numbers },
}

impl Marks {
    ghost use Rattle.pathspec_attributes.specs.Views.{marked};

    /// Makes marks without any name. It takes no memory.
    pub fn new(alloc: Global) -> Marks
        ensures { (name : List ℕ) → marked result name ≡ false }
    {
        Marks {
            numbers: BTreeMap::new(alloc),
            number: 0,
        }
    }

    /// The count of names for which there is room.
    pub fn len(&self) -> usize
        ensures { result ≡ btree_map_len self.now.numbers }
    {
        self.numbers.len()
    }

    /// Forgets all marks.
    pub fn forget(&mut self, alloc: Global)
        ensures { (name : List ℕ) → marked self.new name ≡ false }
    {
        if self.number == u64::MAX {
            *self = Marks::new(alloc);
        } else {
            self.number += 1;
        }
    }

    /// Marks a name, and says whether it wasn't marked before.
    ///
    /// # Errors
    /// Memory runs out. A name for which there is room takes none.
    pub fn mark(&mut self, alloc: Global, name: &[u8]) -> Result<bool, AllocError>
        ensures before { IfOk result (λ fresh. fresh ≡ not (marked self.old name.now)) }
        ensures after { OnOk result ((other : List ℕ)
            → marked self.new other ≡ (bytes_eq name.now other || marked self.old other)) }
    {
        match put_number(alloc, &mut self.numbers, name, self.number)? {
            Some(was) => Ok(was != self.number),
            None => Ok(true),
        }
    }

    /// Whether a name is marked.
    pub fn is_marked(&self, name: &[u8]) -> bool
        ensures { result ≡ marked self.now name.now }
    {
        match self.numbers.get(name) {
            Some(own) => *own == self.number,
            None => false,
        }
    }

    /// Makes room for a name.
    ///
    /// # Errors
    /// Memory runs out.
    pub fn make_room(&mut self, alloc: Global, name: &[u8]) -> Result<(), AllocError> {
        if self.numbers.get(name).is_none() {
            put_number(alloc, &mut self.numbers, name, 0)?;
        }
        Ok(())
    }
}

/// Gives a name a number, and says which it had.
///
/// # Errors
/// Memory runs out, and the names have the numbers that they had. A name that has a number takes none.
fn put_number(
    alloc: Global,
    numbers: &mut BTreeMap<Vec<u8>, u64>,
    name: &[u8],
    number: u64,
) -> Result<Option<u64>, AllocError>
    ensures before { IfOk result (λ was. was ≡ number_of numbers.old name.now) }
    ensures ok { OnOk result ((other : List ℕ) → number_of numbers.new other
        ≡ (if bytes_eq name.now other then Some number else number_of numbers.old other)) }
    ensures err { OnErr result ((other : List ℕ)
        → number_of numbers.new other ≡ number_of numbers.old other) }
{
    if let Some(own) = numbers.get_mut(name) {
        let was = *own;
        *own = number;
        return Ok(Some(was));
    }
    numbers.insert(Vec::from_slice(alloc, name)?, number)?;
    Ok(None)
}
