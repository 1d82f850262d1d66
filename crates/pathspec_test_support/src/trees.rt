//! Trees that are made by words.
use pathspec_parts::path;
use pathspec_parts::tree::{Tree, TreeError};
use std::alloc::Global;

/// A word with a slash at its end opens a directory, `..` closes the open one, and any other is a file.
pub fn add(tree: &mut Tree, word: &str) -> Result<(), TreeError> {
    if word == ".." {
        return tree.close();
    }
    let (name, is_dir) = path::strip_last_slash(word.as_bytes());
    if is_dir {
        tree.open(name)
    } else {
        tree.file(name)
    }
}

/// The tree that words make.
pub fn tree_of(alloc: Global, words: &[&str]) -> Result<Tree, TreeError> {
    let mut tree = Tree::new(alloc);
    for word in words {
        add(&mut tree, word)?;
    }
    Ok(tree)
}
