//! Places in groups, one for each head.
ghost use Rattle.std.specs.Prelude.{◌≡◌, [], ◌∷◌, ◌++◌, false, map, IfOk};
ghost use Rattle.pathspec_heads.specs.Heads.{ends_with_head, IsRising};
ghost use Rattle.pathspec_heads.specs.Groups.{IsSortedPlaces, IsOrder, IsGrouped};

use crate::sorted_texts::SortedTexts;
use std::alloc::{AllocError, Global};

/// The texts with their places, sorted by the texts, and equal texts by their places.
fn sorted<'t>(alloc: Global, texts: &[&'t [u8]]) -> Result<Vec<(&'t [u8], usize)>, AllocError>
    ensures { IfOk result (λ entries. IsSortedPlaces (map (λ text. text.now) texts.now)
        (map (λ entry. (entry.0.now, entry.1)) entries.items)) }
{
    let mut entries = Vec::with_capacity(alloc, texts.len())?;
    for place in 0..texts.len() {
        entries.push((texts[place], place))?;
    }
    entries.sort_unstable();
    Ok(entries)
}

/// Places grouped by their heads: each head once, where its group begins, and the places group by group.
#[derive(Drop)]
pub(crate) struct Groups {
    pub(crate) heads: SortedTexts,
    pub(crate) starts: Vec<usize>,
    pub(crate) order: Vec<usize>,
}

impl Groups {
    ghost use Rattle.pathspec_heads.specs.Groups.{AddsPlace};

    /// Adds a place to the last group, or to a new one if the last has another head.
    fn add(&mut self, head: &[u8], place: usize) -> Result<(), AllocError>
        requires { ends_with_head self.old.heads head.now ≡ false
            → IsRising (self.old.heads ++ head.now ∷ []) }
        ensures { IfOk result (λ _. AddsPlace self.old.heads self.old.starts.items
            self.old.order.items self.new.heads self.new.starts.items self.new.order.items
            head.now place) }
    {
        if self.heads.push_new(head)? {
            self.starts.push(self.order.len())?;
        }
        self.order.push(place)?;
        Ok(())
    }
}

/// Groups the places of heads by head, where the place of a head is its index in the list. The cost is that of a sort.
pub(crate) fn grouped(alloc: Global, heads: &[&[u8]]) -> Result<Groups, AllocError>
    ensures order { IfOk result (λ groups.
        IsOrder groups.heads groups.starts.items groups.order.items) }
    ensures grouped { IfOk result (λ groups. IsGrouped (map (λ head. head.now) heads.now)
        groups.heads groups.starts.items groups.order.items) }
{
    let entries = sorted(alloc, heads)?;
    let mut groups = Groups {
        heads: SortedTexts::new(alloc),
        starts: Vec::new(alloc),
        order: Vec::with_capacity(alloc, heads.len())?,
    };
    for index in 0..entries.len() {
        let (head, place) = entries[index];
        groups.add(head, place)?;
    }
    Ok(groups)
}
