//! Copies of listings as trees.
ghost use Rattle.std.specs.Prelude.{◌≡◌, ◌<◌, ◌+◌, ◌-◌, length, slice_get, IfOk, OnOk};
ghost use Rattle.std.specs.Option.{ForSome};
ghost use Rattle.pathspec_parts.specs.Entries.{own_call};
ghost use Rattle.pathspec_parts.specs.Trees.{tree_after};
ghost use Rattle.pathspec_parts.specs.Nesting.{IsMade};
ghost use Rattle.pathspec_select.specs.TreeCopies.{IsCopy, TakesNext, IsLengthAbove};

use crate::listing::outline::Outline;
use pathspec_parts::tree::{Entries, EntryPaths, Tree};
use std::alloc::{AllocError, Global};

/// Copies the entries of a listing, with their names, into a tree.
///
/// # Errors
/// Memory runs out.
pub(super) fn tree_of(alloc: Global, outline: &Outline<'_>) -> Result<Tree, AllocError>
    requires { IsMade outline.now.tree }
    ensures { IfOk result (λ tree. tree.entries ≡ outline.now.tree.entries) }
{
    let mut tree = Tree::new(alloc);
    let mut opened = Vec::new(alloc);
    for number in 0..outline.len() {
        close_ended(outline, number, &mut tree, &mut opened);
        add_entry(outline, number, &mut tree, &mut opened)?;
    }
    Ok(tree)
}

/// Closes the open directories in which the next entry, the one with this number, doesn't lie.
fn close_ended(outline: &Outline<'_>, number: usize, tree: &mut Tree, opened: &mut Vec<usize>)
    requires within { number < length outline.now.tree.entries }
    requires number { number ≡ length tree.old.entries }
    requires copy { IsCopy outline.now.tree.entries tree.old opened.old.items }
    ensures next { TakesNext outline.now.tree.entries tree.new opened.new.items }
    ensures entries { tree.new.entries ≡ tree.old.entries }
{
    while let Some(last) = opened.last() {
        if outline.end_of(*last) > number {
            return;
        }
        opened.pop();
        let _ = tree.close();
    }
}

/// Adds the entry with a number in the open directory.
///
/// # Errors
/// Memory runs out.
fn add_entry(
    outline: &Outline<'_>,
    number: usize,
    tree: &mut Tree,
    opened: &mut Vec<usize>,
) -> Result<(), AllocError>
    requires within { number < length outline.now.tree.entries }
    requires number { number ≡ length tree.old.entries }
    requires next { TakesNext outline.now.tree.entries tree.old opened.old.items }
    ensures copy { OnOk result (IsCopy outline.now.tree.entries tree.new opened.new.items) }
    ensures count { OnOk result (length tree.new.entries ≡ number + 1) }
{
    let is_dir = outline.is_dir(number);
    let above = length_above(outline, opened);
    add(tree, &outline.path(number)[above..], is_dir)?;
    if is_dir {
        opened.push(number)?;
    }
    Ok(())
}

/// The count of bytes before a name in the last of the open directories, in the name's path.
fn length_above(outline: &Outline<'_>, opened: &[usize]) -> usize
    requires { ForSome (slice_get opened.now (length opened.now - 1))
        (λ last. last < length outline.now.tree.entries) }
    ensures { IsLengthAbove outline.now.tree.entries opened.now result }
{
    match opened.last() {
        Some(last) => outline.path(*last).len() + 1,
        None => 0,
    }
}

/// Adds a directory or a file in the open directory. No name is empty.
///
/// # Errors
/// Memory runs out.
fn add(tree: &mut Tree, name: &[u8], is_dir: bool) -> Result<(), AllocError>
    ensures { OnOk result (tree.new ≡ tree_after tree.old (own_call is_dir name.now)) }
{
    let added = if is_dir {
        tree.open(name)
    } else {
        tree.file(name)
    };
    added.map_err(|_| AllocError)
}
