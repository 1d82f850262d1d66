//! Laws of all searches, for callers whose contracts rest on them. A function's contract is its law, and a call does nothing.
ghost use Rattle.gix_pathspec.specs.Search.{specs_of};
ghost use Rattle.gix_pathspec.specs.SelectionLaws.{ChosenIsTest, NoNilPrefix, SpecPathsAreBytes};

use crate::search::Search;

/// The paths of a search's specs are bytes: no number in them is above 255. The contracts of walks rest on this law.
pub fn spec_paths_are_bytes(search: &Search)
    ensures { SpecPathsAreBytes (specs_of search.now.specs) }
{
    let _ = &search.specs;
}

/// No nil spec of a search has a prefix directory. The contracts of walks rest on this law: such an exclude without case would
/// prune more than it matches.
pub fn nil_specs_lack_a_prefix(search: &Search)
    ensures { NoNilPrefix (specs_of search.now.specs) }
{
    let _ = &search.specs;
}

/// The test `is_chosen` is true just where the statement `IsChosen` holds, for all specs. A caller whose contract has the
/// statement, and who may ask no search at all, takes the law from here.
pub fn chosen_is_test()
    ensures { ChosenIsTest }
{}
