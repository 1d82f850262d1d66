//! Tables for pruning: which paths the stems of includes reach, and which the paths of excludes take whole.
ghost use Rattle.std.specs.Prelude.{◌≡◌, ◌&&◌, true, List, IfOk};
ghost use Rattle.std.specs.List.{list_any};
ghost use Rattle.gix_pathspec.specs.Tables.{path_takes, IsTableOf};
ghost use Rattle.gix_pathspec.specs.Specs.{Spec, is_include};
ghost use Rattle.gix_pathspec.specs.Pruning.{reaches};
ghost use Rattle.gix_pathspec.specs.Reach.{reaches_unshadowed, taken_paths, stems_of, IsReachOf};
ghost use Rattle.gix_pathspec.specs.Search.{specs_of};

use crate::search::spec::CompiledSpec;
use pathspec_heads::tables::{StemScratch, StemTable};
use std::alloc::{AllocError, Global};

/// Tables of what includes reach and excludes take whole. A search makes them once, so no question goes through its specs.
#[derive(Drop)]
pub(super) struct Reach {
    /// Whether an exclude takes every path.
    pub(super) excludes_all: bool,
    /// Whether some spec is an include.
    pub(super) has_include: bool,
    /// Whether an include always matches.
    includes_all: bool,
    /// The stems of the includes that don't always match, but for those that an exclude shadows.
    reachable: Box<StemTable>,
    /// The stems of the includes that an exclude shadows: it takes all that they take.
    shadowed: Box<StemTable>,
    /// The paths at or below which an exclude takes everything.
    taken: Box<StemTable>,
}

impl Reach {
    /// Makes the tables of the specs. The cost is that of sorting copies of the includes' stems and the excludes' paths.
    ///
    /// # Errors
    /// Memory runs out.
    pub(super) fn of_specs(alloc: Global, specs: &[CompiledSpec]) -> Result<Reach, AllocError>
        ensures { IfOk result (IsReachOf (specs_of specs.now)) }
    {
        let taken = Box::new(alloc, path_table(alloc, specs)?)?;
        let reachable = Box::new(alloc, stem_table(alloc, specs, &taken, false)?)?;
        let shadowed = Box::new(alloc, stem_table(alloc, specs, &taken, true)?)?;
        let excludes_all = specs.iter().any(|spec| spec.is_total_exclude());
        let has_include = specs.iter().any(|spec| spec.is_include());
        let includes_all = specs.iter().any(|spec| spec.is_total_include());
        Ok(Reach {
            excludes_all,
            has_include,
            includes_all,
            reachable,
            shadowed,
            taken,
        })
    }

    /// Whether some include reaches the path, at the cost of [`StemTable::reaches`] for two tables.
    pub(super) fn reaches(&self, path: &[u8], is_dir: Option<bool>) -> bool
        ensures { (specs : List Spec) → IsReachOf specs self.now
            → result ≡ list_any (λ s. is_include s && reaches s path.now is_dir) specs }
    {
        self.reaches_unshadowed(path, is_dir, &mut StemScratch::new())
            || self.shadowed.reaches(path, is_dir)
    }

    /// Whether an include that no exclude shadows reaches the path, at the cost of [`StemTable::reaches_with`].
    pub(super) fn reaches_unshadowed(
        &self,
        path: &[u8],
        is_dir: Option<bool>,
        scratch: &mut StemScratch,
    ) -> bool
        ensures { (specs : List Spec) → IsReachOf specs self.now
            → result ≡ reaches_unshadowed specs path.now is_dir }
    {
        self.includes_all || self.reachable.reaches_with(path, is_dir, scratch)
    }

    /// Whether an exclude takes the directory whole by its path, at the cost of [`StemTable::takes`].
    pub(super) fn takes(&self, directory: &[u8]) -> bool
        ensures { (specs : List Spec) → IsReachOf specs self.now
            → result ≡ list_any (λ p. path_takes p directory.now true) (taken_paths specs) }
    {
        self.taken.takes(directory, true)
    }
}

/// Makes the table of the paths at or below which an exclude takes everything.
fn path_table(alloc: Global, specs: &[CompiledSpec]) -> Result<StemTable, AllocError>
    ensures { IfOk result (IsTableOf (taken_paths (specs_of specs.now))) }
{
    let mut paths = Vec::new(alloc);
    for spec in specs {
        if spec.is_tabled() {
            paths.push(spec.as_path())?;
        }
    }
    StemTable::new(alloc, &paths)
}

/// Makes the table of stems of includes that don't always match: of those that an exclude shadows, or of the others.
fn stem_table(
    alloc: Global,
    specs: &[CompiledSpec],
    taken: &StemTable,
    shadowed: bool,
) -> Result<StemTable, AllocError>
    requires { IsTableOf (taken_paths (specs_of specs.now)) taken.now }
    ensures { IfOk result (IsTableOf (stems_of shadowed (specs_of specs.now) (specs_of specs.now))) }
{
    let mut stems = Vec::new(alloc);
    for spec in specs {
        if spec.has_stem(taken, shadowed) {
            stems.push(spec.as_stem())?;
        }
    }
    StemTable::new(alloc, &stems)
}
