//! A stack of components, on which `..` is resolved.
ghost use Rattle.std.specs.Prelude.{◌≡◌, ◌≤◌, ◌<◌, ◌-◌, ◌↔◌, [], length, map, min, take, slice_get, IsTrue, OnOk, OnErr};
ghost use Rattle.std.specs.Option.{option_map};
ghost use Rattle.bstr.specs.BStr.{bstr_bytes};
ghost use Rattle.pathspec_parts.specs.Stacks.{StackContents, with_top};

use bstr::BStr;
use std::alloc::{AllocError, Global};
use std::marker::Model;

/// A stack of borrowed components, which knows how low it was since the last mark.
#[derive(Debug, Drop)]
pub struct Stack<'a> {
    names: Vec<BStr<'a>>,
    least: usize,
}

impl<'a> Model for Stack<'a> {
    ghost Value = { StackContents };

    ghost view = { λ s. record { names = map bstr_bytes s.names.items; least = s.least } };

    ghost invariant = { λ s. s.least ≤ length s.names.items };
}

impl<'a> Stack<'a> {
    /// Makes an empty stack. It takes no memory.
    pub fn new(alloc: Global) -> Stack<'a>
        ensures { result ≡ record { names = []; least = 0 } }
    {
        Stack {
            names: Vec::new(alloc),
            least: 0,
        }
    }

    /// Puts a component on top.
    ///
    /// # Errors
    /// Memory runs out. The stack is then as before.
    pub fn push(&mut self, component: BStr<'a>) -> Result<(), AllocError>
        ensures ok { OnOk result (self.new ≡ with_top self.old (bstr_bytes component.entry)) }
        ensures err { OnErr result (self.new ≡ self.old) }
    {
        self.names.push(component)?;
        Ok(())
    }

    /// Takes the top off, and says whether there was one. An empty stack stays as it is.
    pub fn pop(&mut self) -> bool
        ensures popped { IsTrue result ↔ (0 < length self.old.names) }
        ensures names { self.new.names ≡ take (length self.old.names - 1) self.old.names }
        ensures least { self.new.least ≡ min self.old.least (length self.new.names) }
        ensures empty { self.old.names ≡ [] → self.new ≡ self.old }
    {
        let popped = self.names.pop().is_some();
        self.least = self.least.min(self.names.len());
        popped
    }

    /// The count of components on the stack.
    pub fn len(&self) -> usize
        ensures { result ≡ length self.now.names }
    {
        self.names.len()
    }

    /// Whether the stack is empty.
    pub fn is_empty(&self) -> bool
        ensures { IsTrue result ↔ (self.now.names ≡ []) }
    {
        self.names.is_empty()
    }

    /// The component at an index, where the lowest has the index 0.
    pub fn get(&self, index: usize) -> Option<BStr<'a>>
        ensures { option_map bstr_bytes result ≡ slice_get self.now.names index }
    {
        self.names.get(index).copied()
    }

    /// Begins the least height anew, with the height at this moment.
    pub fn mark(&mut self)
        ensures { self.new ≡ record self.old { least = length self.old.names } }
    {
        self.least = self.names.len();
    }

    /// The least height since the last mark, that moment included; without a mark, since the start.
    pub fn least(&self) -> usize
        ensures least { result ≡ self.now.least }
        ensures within { result ≤ length self.now.names }
    {
        self.least
    }
}
