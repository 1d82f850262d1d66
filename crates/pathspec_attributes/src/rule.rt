//! Rules: a pattern that is compiled, and what it assigns to the paths that it fits (gitattributes).
ghost use Rattle.std.specs.Prelude.{◌≡◌, ◌≤◌, length, map, IfOk, OnOk};
ghost use Rattle.std.specs.List.{list_any};
ghost use Rattle.pathspec_glob.specs.Globs.{glob_tokens};
ghost use Rattle.pathspec_parts.specs.Paths.{is_slash};
ghost use Rattle.pathspec_parts.specs.AttributeStates.{assignment_view};
ghost use Rattle.pathspec_attributes.specs.Rules.{fits, glob_of, rule_of, without_first_slash, FitsIsRelation, IsBaseOf};

use crate::paths::compared;
use pathspec_glob::{Case, Glob, Mode, Scratch};
use pathspec_parts::attributes::Assignment;
use pathspec_parts::path::strip_last_slash;
use std::alloc::{AllocError, Global};
use std::marker::Model;

/// A rule of an attribute file.
#[derive(Debug, Drop)]
pub(crate) struct Rule {
    glob: Glob,
    /// The mode of the glob. In [`Mode::Shell`] it is compared with last names, and else with paths from the file's directory.
    mode: Mode,
    /// Whether the pattern has a slash at its end.
    only_directories: bool,
    assignments: Vec<Assignment>,
}

impl Model for Rule {
    ghost use Rattle.std.specs.Prelude.{◌≡◌, map};
    ghost use Rattle.pathspec_parts.specs.AttributeStates.{assignment_view};
    ghost use Rattle.pathspec_attributes.specs.Rules.{Rule};

    ghost Value = { Rule };

    ghost view = { λ r. record {
      glob = r.glob;
      only_directories = r.only_directories;
      assignments = map assignment_view r.assignments.items;
    } };

    ghost invariant = { λ r. r.glob.mode ≡ r.mode };
}

impl Rule {
    /// Compiles a pattern.
    ///
    /// # Errors
    /// Memory runs out.
    pub fn new(
        alloc: Global,
        pattern: &[u8],
        assignments: Vec<Assignment>,
    ) -> Result<Rule, AllocError>
        ensures { IfOk result (λ rule.
            rule ≡ rule_of pattern.now (map assignment_view assignments.items)) }
    {
        let (body, only_directories) = strip_last_slash(pattern);
        let mode = mode_of(body);
        Ok(Rule {
            glob: compile(alloc, body)?,
            mode,
            only_directories,
            assignments,
        })
    }

    /// What the rule assigns.
    pub fn assignments(&self) -> &[Assignment]
        ensures { map assignment_view result.now ≡ self.now.assignments }
    {
        self.assignments.as_slice()
    }

    /// Makes a scratch fit for questions of the rule.
    ///
    /// # Errors
    /// Memory runs out.
    pub fn make_room(&self, alloc: Global, scratch: &mut Scratch) -> Result<(), AllocError>
        ensures { OnOk result (length (glob_tokens self.now.glob) ≤ scratch.new.tokens) }
    {
        make_room(alloc, &self.glob, scratch)
    }

    /// Whether the rule, of a file in the directory `base`, fits a path below that directory. The path has no slash at its end.
    ///
    /// # Errors
    /// Memory runs out, where the scratch was made for fewer tokens than the rule has.
    #[tactic(auto, using(crate::proofs::RuleProofs::fits_is_relation))]
    pub fn fits(
        &self,
        alloc: Global,
        case: Case,
        base: &[u8],
        path: &[u8],
        is_dir: bool,
        scratch: &mut Scratch,
    ) -> Result<bool, AllocError>
        requires { IsBaseOf base.now path.now }
        ensures fits { IfOk result (λ fit. fit ≡ fits case base.now self.now path.now is_dir) }
        // The test gives just what the relation says.
        ensures relation { FitsIsRelation }
    {
        if self.only_directories && !is_dir {
            return Ok(false);
        }
        make_room(alloc, &self.glob, scratch)?;
        Ok(
            self.glob
                .matches(compared(self.mode, base, path), case, scratch),
        )
    }
}

/// Makes the scratch fit for the glob.
///
/// # Errors
/// Memory runs out.
fn make_room(alloc: Global, glob: &Glob, scratch: &mut Scratch) -> Result<(), AllocError>
    ensures { OnOk result (length (glob_tokens glob.now) ≤ scratch.new.tokens) }
{
    if !glob.fits(scratch) {
        *scratch = Scratch::for_tokens(alloc, glob.tokens())?;
    }
    Ok(())
}

/// The mode of the glob of a pattern without its last slash.
fn mode_of(body: &[u8]) -> Mode
    ensures { result ≡ (glob_of body.now).mode }
{
    if has_slash(body) {
        Mode::PathAware
    } else {
        Mode::Shell
    }
}

/// The glob of a pattern without its last slash.
fn compile(alloc: Global, body: &[u8]) -> Result<Glob, AllocError>
    ensures { IfOk result (λ glob. glob ≡ glob_of body.now) }
{
    if has_slash(body) {
        Glob::compile(alloc, without_first_slash(body), Mode::PathAware)
    } else {
        Glob::compile(alloc, body, Mode::Shell)
    }
}

/// Whether a text has a slash.
fn has_slash(text: &[u8]) -> bool
    ensures { result ≡ list_any is_slash text.now }
{
    text.contains(&b'/')
}

/// The text without a slash in front.
fn without_first_slash(text: &[u8]) -> &[u8]
    ensures { result.now ≡ without_first_slash text.now }
{
    match text {
        [b'/', behind @ ..] => behind,
        _ => text,
    }
}
