//! Normalising: the path of a pathspec from the top of the repository, without `.` and `..`.
ghost use Rattle.std.specs.Prelude.{◌≡◌, ◌≢◌, ◌∷◌, [], ◌++◌, ◌==◌, ◌≤◌, ◌-◌, not, length, min, take, if◌then◌else◌, is_some, IsTrue, IfSome, IfOk, IfErr, OnOk, OnErr};
ghost use Rattle.std.specs.Option.{option_map};
ghost use Rattle.bstr.specs.BStr.{bstr_bytes};
ghost use Rattle.pathspec_parts.specs.Bytes.{slash};
ghost use Rattle.pathspec_parts.specs.Paths.{join_names, is_parent_dir, is_clean_prefix};
ghost use Rattle.pathspec_parts.specs.Components.{remaining_components};
ghost use Rattle.pathspec_pattern.specs.Errors.{IsMemory, Computes};
ghost use Rattle.pathspec_pattern.specs.NormalForm.{IsNormal, NormalFormHasBoundary, NilHasNoDirectory, NormalFormKeepsMagic, NormalFormIsNormal, base, base_names, own_components, is_inside, parent_dir_count, kept, directory_count, directory_length, keeps_directory, new_prefix_length, stays_empty, resolved};
ghost use Rattle.pathspec_pattern.specs.Heights.{ClimbByHeight, SurvivorsByHeight, KeptIsLeastHeight};
ghost use Rattle.pathspec_pattern.specs.Resolving.{base_of, IsLeft, IsPushed};
ghost use Rattle.pathspec_pattern.specs.LongText.{AddsBytes};

use crate::{Error, MagicSignature, Pattern, error};
use bitflags::Flags;
use bstr::BStr;
use pathspec_parts::path::{self, Components, Stack};
use std::alloc::{AllocError, Global};

/// The base of a path, from which it counts.
#[derive(Clone, Copy)]
enum Base<'p> {
    /// The root of the repository: the path is absolute.
    Root,
    /// A prefix that isn't empty, by its components.
    Prefix(Components<'p>),
    /// The top of the repository.
    Top,
}

/// A path's base and its own components, and the names that are left of both when each `..` is resolved.
#[derive(Drop)]
struct Walk<'p> {
    base: Base<'p>,
    own: Components<'p>,
    stack: Stack<'p>,
    ghost left: { IsLeft (base_of base) (remaining_components own) stack },
}

/// The fields that normalising changes.
#[derive(Drop)]
struct Resolved {
    path: Vec<u8>,
    nil: bool,
    prefix_length: usize,
}

impl Pattern {
    ghost use Rattle.pathspec_pattern.specs.Patterns.{pattern_spec, pattern_normal_form};
    ghost use Rattle.pathspec_pattern.specs.Resolving.{resolved_spec, is_resolved};

    /// Normalises the path, given in the directory `prefix` of the repository at `root`, to one from its top: under `a`,
    /// `../b` becomes `b`. The prefix must be clean: names joined by single slashes, or empty.
    ///
    /// An absolute path loses the root's components. A relative one gets the prefix in front, unless the pattern has
    /// [`MagicSignature::TOP`]. Then each `..` takes off the component before it, and slashes join what is left. Where nothing
    /// is left, the root itself becomes an empty path, and an empty path without a prefix in front stays empty. Any other
    /// becomes the path `.` of a pattern that is nil.
    ///
    /// The new [`Pattern::prefix_directory`] has the names of the prefix that the path never climbs above, and of an absolute
    /// path all its names. The last name of the new path is no part of it, unless the pattern has
    /// [`MagicSignature::MUST_BE_DIR`]. Of `/r/a/b` in the root `/r` it is `a`. A nil pattern has none.
    ///
    /// The call looks at each byte of the path, of the prefix and of the root a fixed number of times. It takes as much memory
    /// as they are long, and some for each component. A clean path on the top of the repository stays, and takes none.
    ///
    /// # Errors
    /// [`Error::OutsideRoot`] for an absolute path that doesn't lie in the root or whose root isn't absolute.
    /// [`Error::LeavesRepository`] for a path that climbs above the top. Both carry the path as it was. [`Error::Memory`]. The
    /// pattern is then as it was.
    pub fn normalize(&mut self, prefix: BStr<'_>, root: BStr<'_>) -> Result<&mut Pattern, Error>
        requires { IsTrue (is_clean_prefix (bstr_bytes prefix)) }
        ensures same { IfOk result (λ p. p.ghost_name ≡ self.entry.ghost_name) }
        ensures form { Computes (λ p. pattern_spec p.now)
            (pattern_normal_form prefix.entry root.entry self.entry.now) result }
        ensures idempotent { IfOk result (λ p. IsNormal (pattern_spec p.now)) }
    {
        self.resolve(prefix, root)?;
        Ok(self)
    }

    /// Normalises the pattern as [`Pattern::normalize`] does, for a caller who goes on with it after an error, too.
    ///
    /// # Errors
    /// The errors of [`Pattern::normalize`]; the pattern is then as it was.
    pub fn resolve(&mut self, prefix: BStr<'_>, root: BStr<'_>) -> Result<(), Error>
        requires { IsTrue (is_clean_prefix (bstr_bytes prefix)) }
        ensures form { Computes (λ _. pattern_spec self.new)
            (pattern_normal_form prefix.entry root.entry self.old) result }
        ensures unchanged { OnErr result (pattern_spec self.new ≡ pattern_spec self.old) }
        ensures idempotent { OnOk result (IsNormal (pattern_spec self.new)) }
        // In the words of heights: when a path leaves, which names survive, and how many are kept.
        ensures by_heights { ClimbByHeight × SurvivorsByHeight × KeptIsLeastHeight }
        // Each normal form is its own, and keeps the signature, the mode and the attributes.
        ensures laws { NormalFormIsNormal × NormalFormKeepsMagic }
        // The prefix directory of a normal form ends where the path or one of its names does, and a nil one has none.
        ensures directory { NormalFormHasBoundary × NilHasNoDirectory }
    {
        if self.is_resolved(prefix) {
            return Ok(());
        }
        let resolved = self.resolved(prefix, root)?;
        self.path = resolved.path;
        self.nil = resolved.nil;
        self.prefix_length = resolved.prefix_length;
        Ok(())
    }

    /// Whether the pattern is resolved as it stands: it counts from the top of the repository, and its path is clean. `a/b` is
    /// clean, and `a//b` and `a/../b` are not. The call looks at each byte of the path once, and takes no memory.
    fn is_resolved(&self, prefix: BStr<'_>) -> bool
        ensures { result ≡ is_resolved (base (bstr_bytes prefix.entry) (pattern_spec self.now))
            (pattern_spec self.now) }
    {
        match self.base(prefix) {
            Base::Root | Base::Prefix(_) => false,
            Base::Top => path::is_clean_prefix(self.path()),
        }
    }

    /// Computes the fields that normalising changes.
    fn resolved(&self, prefix: BStr<'_>, root: BStr<'_>) -> Result<Resolved, Error>
        requires { IsTrue (is_clean_prefix (bstr_bytes prefix)) }
        ensures { Computes (resolved_spec (pattern_spec self.now))
            (pattern_normal_form prefix.entry root.entry self.now) result }
    {
        let alloc = *self.path.allocator();
        let base = self.base(prefix);
        let Some(own) = self.own_components(base, root) else {
            return Err(Error::OutsideRoot(error::to_vec(alloc, self.path.as_slice())?));
        };
        let Some(walk) = Walk::new(alloc, base, own)? else {
            return Err(Error::LeavesRepository(error::to_vec(alloc, self.path.as_slice())?));
        };
        self.resolved_along(&walk)
    }

    /// The base of the path, which was given in the directory `prefix`.
    fn base<'p>(&self, prefix: BStr<'p>) -> Base<'p>
        ensures { base_of result ≡ base (bstr_bytes prefix.entry) (pattern_spec self.now) }
    {
        if path::is_absolute(self.path()) {
            Base::Root
        } else if prefix.as_bytes().is_empty() || self.signature.contains(MagicSignature::TOP) {
            Base::Top
        } else {
            Base::Prefix(path::components(prefix))
        }
    }

    /// The path's own components: of an absolute path those after the root's, or None if it doesn't lie in the root.
    fn own_components(&self, base: Base<'_>, root: BStr<'_>) -> Option<Components<'_>>
        ensures { option_map remaining_components result
            ≡ own_components (base_of base.entry) (bstr_bytes root.entry)
            (pattern_spec self.now).path }
    {
        match base {
            Base::Root => path::strip_root(self.path(), root),
            Base::Prefix(_) | Base::Top => Some(path::components(self.path())),
        }
    }

    /// The fields that a walk makes of the pattern.
    fn resolved_along(&self, walk: &Walk<'_>) -> Result<Resolved, Error>
        ensures ok { IfOk result (λ r. resolved_spec (pattern_spec self.now) r
            ≡ resolved (base_of walk.now.base) (pattern_spec self.now)
            (remaining_components walk.now.own) walk.now.stack.names) }
        ensures err { IfErr result IsMemory }
    {
        if !walk.stack.is_empty() {
            return self.with_names(walk);
        }
        let alloc = *self.path.allocator();
        if self.stays_empty(walk) {
            return Ok(self.empty());
        }
        Ok(Resolved {
            path: error::to_vec(alloc, b".")?,
            nil: true,
            prefix_length: 0,
        })
    }

    /// Whether a path of which nothing is left stays empty: it is the root itself, without `..`, or was empty and counts from
    /// the top.
    fn stays_empty(&self, walk: &Walk<'_>) -> bool
        ensures { result ≡ stays_empty (base_of walk.now.base) (pattern_spec self.now)
            (remaining_components walk.now.own) }
    {
        match walk.base {
            Base::Root => !climbs(walk.own),
            Base::Prefix(_) => false,
            Base::Top => self.path.is_empty(),
        }
    }

    /// The fields that a walk makes of the pattern, where at least one name is left.
    fn with_names(&self, walk: &Walk<'_>) -> Result<Resolved, Error>
        requires { walk.now.stack.names ≢ [] }
        ensures ok { IfOk result (λ r. resolved_spec (pattern_spec self.now) r
            ≡ resolved (base_of walk.now.base) (pattern_spec self.now)
            (remaining_components walk.now.own) walk.now.stack.names) }
        ensures err { IfErr result IsMemory }
    {
        // As much room as the path had; a prefix in front of it makes it grow once.
        let mut path = Vec::with_capacity(*self.path.allocator(), self.path.len())?;
        let count = self.directory_count(walk);
        write_names(&mut path, &walk.stack, 0, count)?;
        let front = path.len();
        write_names(&mut path, &walk.stack, count, walk.stack.len())?;
        let prefix_length = self.new_prefix_length(walk, path.as_slice(), front);
        Ok(Resolved {
            path,
            nil: self.nil,
            prefix_length,
        })
    }

    /// The length of the new path's prefix directory, where `front` is that of the kept names. For a nil pattern it is 0. It
    /// stays where the path counts from the top and its bytes stay, and else is `front`.
    fn new_prefix_length(&self, walk: &Walk<'_>, path: &[u8], front: usize) -> usize
        requires path { path.now ≡ join_names walk.now.stack.names }
        requires front { front ≡ directory_length (base_of walk.now.base)
            (pattern_spec self.now) (remaining_components walk.now.own) walk.now.stack.names }
        ensures { result ≡ new_prefix_length (base_of walk.now.base)
            (pattern_spec self.now) (remaining_components walk.now.own) walk.now.stack.names }
    {
        if self.nil {
            0
        } else if self.keeps_directory(walk, path) {
            self.prefix_length
        } else {
            front
        }
    }

    /// Whether the path counts from the top of the repository, and its bytes stay.
    fn keeps_directory(&self, walk: &Walk<'_>, path: &[u8]) -> bool
        requires { path.now ≡ join_names walk.now.stack.names }
        ensures { result ≡ keeps_directory (base_of walk.now.base)
            (pattern_spec self.now) walk.now.stack.names }
    {
        match walk.base {
            Base::Root | Base::Prefix(_) => false,
            Base::Top => self.path.as_slice() == path,
        }
    }

    /// The count of names in the prefix directory: the kept ones, without the path's last unless a directory is wanted.
    fn directory_count(&self, walk: &Walk<'_>) -> usize
        ensures count { result ≡ directory_count (base_of walk.now.base) (pattern_spec self.now)
            (remaining_components walk.now.own) walk.now.stack.names }
        ensures within { result ≤ length walk.now.stack.names }
    {
        let most = if self.signature.contains(MagicSignature::MUST_BE_DIR) {
            walk.stack.len()
        } else {
            walk.stack.len().saturating_sub(1)
        };
        walk.kept().min(most)
    }

    /// The fields of the pattern with an empty path. Takes no memory.
    fn empty(&self) -> Resolved
        ensures { resolved_spec (pattern_spec self.now) result
            ≡ record (pattern_spec self.now) { path = []; prefix_length = 0 } }
    {
        Resolved {
            path: Vec::new(*self.path.allocator()),
            nil: self.nil,
            prefix_length: 0,
        }
    }
}

impl<'p> Base<'p> {
    /// The names of the base.
    fn names(self) -> Components<'p>
        ensures { remaining_components result ≡ base_names (base_of self.entry) }
    {
        match self {
            Base::Prefix(names) => names,
            Base::Root | Base::Top => path::components(BStr::new(b"")),
        }
    }
}

impl<'p> Walk<'p> {
    /// Walks a path's own components from its base, or gives None where they climb out.
    ///
    /// # Errors
    /// Memory runs out.
    fn new(
        alloc: Global,
        base: Base<'p>,
        own: Components<'p>,
    ) -> Result<Option<Walk<'p>>, AllocError>
        requires { parent_dir_count (base_names (base_of base)) ≡ 0 }
        ensures inside { IfOk result (λ walk. is_some walk
            ≡ is_inside (base_of base.entry) (remaining_components own.entry)) }
        ensures parts { IfOk result (λ walk. IfSome walk (λ w.
            (w.base ≡ base.entry) × (w.own ≡ own.entry))) }
    {
        let mut stack = Stack::new(alloc);
        if !push_components(&mut stack, base.names())? {
            return Ok(None);
        }
        stack.mark();
        if !push_components(&mut stack, own)? {
            return Ok(None);
        }
        Ok(Some(Walk { base, own, stack }))
    }

    /// The count of names that are kept for the prefix directory: those of a prefix that the path never climbs above, or on
    /// the root all.
    fn kept(&self) -> usize
        ensures count { result
            ≡ kept (base_of self.now.base) (remaining_components self.now.own) self.now.stack.names }
        ensures within { result ≤ length self.now.stack.names }
    {
        match self.base {
            Base::Root => self.stack.len(),
            Base::Prefix(_) | Base::Top => self.stack.least(),
        }
    }
}

/// Whether some component is `..`.
fn climbs(components: Components<'_>) -> bool
    ensures { result ≡ not (parent_dir_count (remaining_components components.entry) == 0) }
{
    for component in components {
        if is_parent_dir(component) {
            return true;
        }
    }
    false
}

/// Whether a component is `..`.
fn is_parent_dir(component: BStr<'_>) -> bool
    ensures { result ≡ is_parent_dir (bstr_bytes component.entry) }
{
    component.as_bytes() == b"..".as_slice()
}

/// Pushes components on a stack, where `..` pops a name. Answers whether there always was one to pop.
fn push_components<'p>(
    stack: &mut Stack<'p>,
    components: Components<'p>,
) -> Result<bool, AllocError>
    requires names { parent_dir_count stack.old.names ≡ 0 }
    requires least { stack.old.least ≤ length stack.old.names }
    ensures { IfOk result (IsPushed stack.old (remaining_components components.entry) stack.new) }
{
    for component in components {
        if !push_component(stack, component)? {
            return Ok(false);
        }
    }
    Ok(true)
}

/// Pushes a component on a stack, or pops a name for `..`. Answers whether there was one to pop.
fn push_component<'p>(stack: &mut Stack<'p>, component: BStr<'p>) -> Result<bool, AllocError>
    requires names { parent_dir_count stack.old.names ≡ 0 }
    requires least { stack.old.least ≤ length stack.old.names }
    ensures { IfOk result (IsPushed stack.old (bstr_bytes component.entry ∷ []) stack.new) }
{
    if is_parent_dir(component) {
        return Ok(stack.pop());
    }
    stack.push(component)?;
    Ok(true)
}

/// Writes the names on a stack from one index to another after those before them, with a slash between each two.
fn write_names(
    path: &mut Vec<u8>,
    stack: &Stack<'_>,
    first: usize,
    end: usize,
) -> Result<(), AllocError>
    requires order { first ≤ end }
    requires within { end ≤ length stack.now.names }
    requires before { path.old.items ≡ join_names (take first stack.now.names) }
    ensures { OnOk result (path.new.items ≡ join_names (take end stack.now.names)) }
{
    for index in first..end {
        if let Some(name) = stack.get(index) {
            write_name(path, index, name)?;
        }
    }
    Ok(())
}

/// Writes the name at an index, with a slash in front unless it is the first.
fn write_name(path: &mut Vec<u8>, index: usize, name: BStr<'_>) -> Result<(), AllocError>
    ensures { AddsBytes path.old.items path.new.items
        (if index == 0 then bstr_bytes name.entry else slash ∷ bstr_bytes name.entry) result }
{
    if index > 0 {
        path.push(b'/')?;
    }
    path.extend_from_slice(name.as_bytes())?;
    Ok(())
}
