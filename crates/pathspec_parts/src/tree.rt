//! Trees of directories and files, and cursors over them.
ghost use Rattle.std.specs.Prelude.{◌≡◌, ◌≤◌, ◌<◌, ◌+◌, ◌-◌, ◌↔◌, [], ◌∷◌, ◌++◌, ◌&&◌, if◌then◌else◌, is_ok, length, take, nat_lt, slice_get, Some, vec_capacity, IsTrue, IfSome, OnOk, OnErr};
ghost use Rattle.pathspec_parts.specs.Bytes.{slash};
ghost use Rattle.pathspec_parts.specs.Entries.{Entry, own_call};
ghost use Rattle.pathspec_parts.specs.Entries.Call.{Open, File, Close};
ghost use Rattle.pathspec_parts.specs.Trees.{empty_tree, tree_after};
ghost use Rattle.pathspec_parts.specs.Cursors.{IsNearPath, IsPathOf, HoldsPaths};
ghost use Rattle.pathspec_parts.specs.TreeAnswers.{AnswersName, AnswersClose};
ghost use Rattle.pathspec_parts.specs.TreeLayout.{name_start_at, name_end_at, name_at, path_above};

mod cursor;
pub mod nested;
mod steps;
mod walk;

pub use cursor::Cursor;
use nested::NestedEntries;
use std::alloc::{AllocError, Global};
use std::fmt;
use std::marker::Model;
pub use steps::{Entries, EntryPaths, Steps};
use thiserror::Error;
pub use walk::Walk;

/// The reason why a tree refuses a call, which then changes nothing.
#[derive(Clone, Copy, Debug, PartialEq, Eq, Error)]
pub enum TreeError {
    /// The name of an entry is empty.
    #[error("name of an entry is empty")]
    EmptyName,
    /// No directory is open.
    #[error("no directory is open")]
    NotOpen,
    /// Memory ran out, which is also told of a path with more bytes than a `usize` counts.
    #[error("out of memory")]
    Memory,
}

/// An entry of a tree in numbers.
#[derive(Clone, Copy)]
struct Node {
    /// The end of the entry's name in the tree's names. The name begins where the one before it ends.
    name_end: usize,
    /// The count of bytes before the name in the entry's path: the path of its directory, with a slash.
    above: usize,
    /// The number of the first later entry that doesn't lie in a directory, or `usize::MAX` while it is open; 0 for a file.
    end: usize,
}

/// A tree of directories and files, in the order in which they were added, numbered from 0.
///
/// An entry takes the bytes of its name and three numbers. The debug form of a tree has only counts.
#[derive(Drop)]
pub struct Tree {
    names: Vec<u8>,
    nodes: Vec<Node>,
    /// The open directories, and the count of all directories.
    nested: NestedEntries,
    /// The length of the longest path, in bytes.
    longest: usize,
}

impl fmt::Debug for Tree {
    fn fmt<W: fmt::Write>(&self, f: &mut fmt::Formatter<W>) -> fmt::Result {
        f.debug_struct("Tree")
            .field("len", &self.len())
            .field("directories", &self.nested.directories())
            .finish()
    }
}

impl Model for Tree {
    ghost use Rattle.pathspec_parts.specs.Trees.{TreeContents};

    ghost Value = { TreeContents };

    ghost use Rattle.pathspec_parts.specs.TreeLayout.{tree_of_nodes, IsLayout};

    ghost view = { λ t. tree_of_nodes t.names.items t.nodes.items };

    ghost invariant = { λ t. IsLayout t.names.items t.nodes.items t.nested t.longest };
}

impl Tree {
    /// Makes a tree without entries. It takes no memory.
    pub fn new(alloc: Global) -> Tree
        ensures { result ≡ empty_tree }
    {
        Tree {
            names: Vec::new(alloc),
            nodes: Vec::new(alloc),
            nested: NestedEntries::new(alloc),
            longest: 0,
        }
    }

    /// The count of entries.
    pub fn len(&self) -> usize
        ensures { result ≡ length self.now.entries }
    {
        self.nodes.len()
    }

    /// Whether there are no entries.
    pub fn is_empty(&self) -> bool
        ensures { IsTrue result ↔ (self.now.entries ≡ []) }
    {
        self.nodes.is_empty()
    }

    /// Adds a directory in the open one, and opens it. A name is any bytes, and may come again. Looks at each byte of it once.
    ///
    /// # Errors
    /// [`TreeError::EmptyName`] and [`TreeError::Memory`]. The tree is then as it was.
    pub fn open(&mut self, name: &[u8]) -> Result<(), TreeError>
        ensures ok { OnOk result (self.new ≡ tree_after self.old (Open name.now)) }
        ensures err { OnErr result (self.new ≡ self.old) }
        ensures refused { AnswersName name.now result }
    {
        self.add(name, true)
    }

    /// Adds a file in the open directory. A name is any bytes, and may come again. Looks at each byte of it once.
    ///
    /// # Errors
    /// [`TreeError::EmptyName`] and [`TreeError::Memory`]. The tree is then as it was.
    pub fn file(&mut self, name: &[u8]) -> Result<(), TreeError>
        ensures ok { OnOk result (self.new ≡ tree_after self.old (File name.now)) }
        ensures err { OnErr result (self.new ≡ self.old) }
        ensures refused { AnswersName name.now result }
    {
        self.add(name, false)
    }

    /// Closes the directory that was opened last. The call takes no memory and no look at other entries.
    ///
    /// # Errors
    /// [`TreeError::NotOpen`]. The tree is then as it was.
    pub fn close(&mut self) -> Result<(), TreeError>
        ensures ok { OnOk result (self.new ≡ tree_after self.old Close) }
        ensures err { OnErr result (self.new ≡ self.old) }
        ensures refused { AnswersClose self.old.open_directories result }
    {
        let Some(place) = self.nested.close() else {
            return Err(TreeError::NotOpen);
        };
        self.nodes[place].end = self.nodes.len();
        Ok(())
    }

    /// The length of the longest path, in bytes.
    fn longest(&self) -> usize
        ensures { HoldsPaths self.now.entries result }
    {
        self.longest
    }

    /// Turns a path at or below each directory that an entry lies in into the entry's path. It takes no memory.
    fn write_path(&self, place: usize, path: &mut Vec<u8>)
        requires place { place < length self.now.entries }
        requires near { IsNearPath self.now.entries place path.old.items }
        requires room { HoldsPaths self.now.entries (vec_capacity path.old) }
        ensures path { IsPathOf self.now.entries place path.new.items }
        ensures room { vec_capacity path.old ≤ vec_capacity path.new }
    {
        cut_back(path, self.nodes[place].above);
        let _ = path.extend_from_slice(name(&self.names, &self.nodes, place));
    }

    /// Adds an entry in the open directory.
    fn add(&mut self, name: &[u8], is_dir: bool) -> Result<(), TreeError>
        ensures ok { OnOk result (self.new ≡ tree_after self.old (own_call is_dir name.now)) }
        ensures err { OnErr result (self.new ≡ self.old) }
        ensures refused { AnswersName name.now result }
    {
        if name.is_empty() {
            return Err(TreeError::EmptyName);
        }
        let Some((above, length)) = self.lengths(name.len()) else {
            return Err(TreeError::Memory);
        };
        let node = Node {
            name_end: self.names.len() + name.len(),
            above,
            end: nested::first_end(is_dir),
        };
        let number = self.nodes.len();
        if self.nested.reserve(is_dir).is_err() {
            return Err(TreeError::Memory);
        }
        if append(&mut self.names, &mut self.nodes, name, node).is_err() {
            return Err(TreeError::Memory);
        }
        self.nested.add(number, is_dir);
        self.longest = self.longest.max(length);
        Ok(())
    }

    /// The count of bytes before a new entry's name in its path, and the path's length; None where a number can't hold them.
    fn lengths(&self, name: usize) -> Option<(usize, usize)>
        ensures above { IfSome result (λ n. n.0 ≡ length (path_above self.now.open_directories)) }
        ensures length { IfSome result (λ n. n.1 ≡ n.0 + name) }
    {
        let above = self.above()?;
        Some((above, above.checked_add(name)?))
    }

    /// The length of the open directory's path with its slash, 0 where none is open; None where a number can't hold it.
    fn above(&self) -> Option<usize>
        ensures { IfSome result (λ n. n ≡ length (path_above self.now.open_directories)) }
    {
        match self.nested.innermost() {
            Some(place) => self.path_length(place).checked_add(1),
            None => Some(0),
        }
    }

    /// The length of an entry's path, in bytes.
    fn path_length(&self, place: usize) -> usize
        requires { place < length self.now.entries }
        ensures { (e : Entry) → slice_get self.now.entries place ≡ Some e → result ≡ length e.path }
    {
        self.nodes[place].above + name(&self.names, &self.nodes, place).len()
    }
}

impl Entries for Tree {
    ghost list = { λ t. t.entries };

    fn len(&self) -> usize {
        self.nodes.len()
    }

    fn directories(&self) -> usize {
        self.nested.directories()
    }

    fn is_dir(&self, number: usize) -> bool {
        self.nodes[number].end != 0
    }

    fn end_of(&self, number: usize) -> usize {
        nested::end_from(number, self.nodes[number].end)
    }
}

/// The name of an entry.
fn name<'a>(names: &'a [u8], nodes: &[Node], place: usize) -> &'a [u8]
    requires place { place < length nodes.now }
    requires start { name_start_at nodes.now place ≤ name_end_at nodes.now place }
    requires end { name_end_at nodes.now place ≤ length names.now }
    ensures { result.now ≡ name_at names.now nodes.now place }
{
    &names[name_start(nodes, place)..nodes[place].name_end]
}

/// The start of an entry's name in the tree's names.
fn name_start(nodes: &[Node], place: usize) -> usize
    requires { place < length nodes.now }
    ensures { result ≡ name_start_at nodes.now place }
{
    if place == 0 {
        0
    } else {
        nodes[place - 1].name_end
    }
}

/// Cuts a path to `above` bytes, or puts a slash after a shorter one. It takes no memory.
fn cut_back(path: &mut Vec<u8>, above: usize)
    requires { above ≤ vec_capacity path.old }
    ensures items { path.new.items ≡ (if nat_lt (length path.old.items) above
        then path.old.items ++ slash ∷ [] else take above path.old.items) }
    ensures room { vec_capacity path.old ≤ vec_capacity path.new }
{
    if path.len() >= above {
        path.truncate(above);
    } else {
        let _ = path.push(b'/');
    }
}

/// Puts a name and its node after the others.
///
/// # Errors
/// Memory runs out. All is then as it was.
fn append(
    names: &mut Vec<u8>,
    nodes: &mut Vec<Node>,
    name: &[u8],
    node: Node,
) -> Result<(), AllocError>
    ensures names { names.new.items
        ≡ (if is_ok result then names.old.items ++ name.now else names.old.items) }
    ensures nodes { nodes.new.items
        ≡ (if is_ok result then nodes.old.items ++ node ∷ [] else nodes.old.items) }
{
    names.reserve(name.len())?;
    nodes.reserve(1)?;
    names.extend_from_slice(name)?;
    nodes.push(node)?;
    Ok(())
}
