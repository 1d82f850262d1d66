//! Jobs, which words and the environment ask for.
ghost use Rattle.std.specs.Prelude.{◌≡◌, None, Err, map, string_bytes, IfOk, IfSome, IsTrue};
ghost use Rattle.std.specs.Option.{option_copied, option_map};
ghost use Rattle.bstr.specs.BStr.{bstr_bytes};
ghost use Rattle.pathspec_parts.specs.Paths.{is_clean_prefix};
ghost use Rattle.gix_pathspec.specs.Search.{IsFresh};
ghost use Rattle.pathspec_select.specs.RequestFaults.{RequestFault};
ghost use Rattle.pathspec_select.specs.Environment.{words_of};
ghost use Rattle.pathspec_select.specs.Options.{Options as OptionsView, options_of};
ghost use Rattle.pathspec_select.specs.OptionWords.{ShowsOptions};
ghost use Rattle.pathspec_select.specs.Refusals.{ComputesRequest};
ghost use Rattle.pathspec_select.specs.JobForms.{job_specs_view};
ghost use Rattle.pathspec_select.specs.Requests.{request_view, numbered_specs, asked_specs, request_of, search_in, source_in};

pub(crate) mod specs;

use crate::options::{self, Options};
use crate::{Environment, Refusal, rows, words};
use bstr::BStr;
use gix_pathspec::{Defaults, Search};
use pathspec_parts::attributes::Rows;
use specs::{JobSpecs, SearchBuilder};
use std::alloc::Global;
use std::fmt;
use std::marker::Model;

/// The job of a run: the specs that its records are compared with, and the byte that ends a record.
#[derive(Drop)]
pub struct Job {
    pub(crate) specs: JobSpecs,
    pub(crate) separator: u8,
}

impl fmt::Debug for Job {
    fn fmt<W: fmt::Write>(&self, f: &mut fmt::Formatter<W>) -> fmt::Result {
        f.debug_struct("Job")
            .field("search", &self.search())
            .field("source", &self.source())
            .field("separator", &self.separator)
            .finish()
    }
}

impl Model for Job {
    ghost use Rattle.pathspec_select.specs.JobForms.{job_specs_view};
    ghost use Rattle.pathspec_select.specs.Requests.{JobContents};

    ghost Value = { JobContents };

    ghost view = { λ j. record { specs = job_specs_view j.specs; separator = j.separator } };
}

impl Job {
    /// Reads a job, and the attributes of paths, from words and the environment.
    ///
    /// The words are the arguments after the program's name: options, then `--` or nothing, and the specs. The options are
    /// `-z`, `--prefix P`, `--root R`, `--attr PATH LIST` and `--specs-first NAME`. Specs are read as in the directory P of
    /// the repository at R. Of repeated `--prefix`, `--root` or `--specs-first` only the last is looked at. Where P is longer
    /// than one byte, one `/` at its end isn't part of it. A LIST is read as
    /// [`parse::attributes`](gix_pathspec::parse::attributes) reads it. No specs and a prefix stand for the prefix.
    ///
    /// With `--specs-first` no word may be a spec: each run reads the specs from the front of its input, and NAME is their
    /// source's name. So `--specs-first specs` makes a job without a search, whose [`source`](Job::source) is `specs`.
    ///
    /// The call looks at each byte a fixed number of times, and for each spec at the prefix and the root. It takes memory for
    /// the rows and for the search, or for the bytes that an error carries.
    ///
    /// # Errors
    /// The first fault, in this order: [`Refusal::Usage`]; [`Refusal::Environment`]; [`Refusal::Spec`] of the first spec that
    /// can't be read, and then of the first that has no normal form. [`Refusal::Memory`] may come for any of them. But an
    /// unknown option, a missing argument, a prefix that isn't clean and specs beside `--specs-first` are told before any
    /// memory is taken.
    pub fn from_words(
        alloc: Global,
        words: &[String],
        environment: &Environment,
    ) -> Result<(Job, Rows), Refusal>
        ensures request { ComputesRequest request_view
            (request_of (map string_bytes words.now) (words_of environment.now)) result }
        ensures fresh { IfOk result (λ pair. pair.1.failures ≡ 0) }
        // The search, if there is one, has no source, and has been asked nothing.
        ensures source { IfOk result (λ pair. IfSome (search_in pair.0.specs)
            (λ search. search.source ≡ None)) }
        ensures effort { IfOk result (λ pair. IfSome (search_in pair.0.specs)
            (λ search. IsFresh search.counts)) }
        // Wrong options are told before any memory is taken; what a list says is no part of them.
        ensures usage { options_of (map string_bytes words.now) ≡ Err RequestFault.Usage
            → result ≡ Err Refusal.Usage }
    {
        let options = options::options_from_words(words)?;
        let rows = rows::rows_from_words(alloc, words)?;
        let defaults = environment.defaults(alloc)?;
        let separator = options.separator;
        let specs = asked_specs(alloc, options, defaults)?;
        Ok((Job { specs, separator }, rows))
    }

    /// The search that chooses records; None where each run builds one from the specs in its input.
    pub fn search(&self) -> Option<&Search>
        ensures { option_copied result ≡ search_in self.now.specs }
    {
        match &self.specs {
            JobSpecs::FromWords(search) => Some(search),
            JobSpecs::FromInput(_) => None,
        }
    }

    /// The name of the source of specs that stand first in an input; None where the specs stand in the words.
    pub fn source(&self) -> Option<BStr<'_>>
        ensures { option_map bstr_bytes result ≡ source_in self.now.specs }
    {
        match &self.specs {
            JobSpecs::FromWords(_) => None,
            JobSpecs::FromInput(builder) => Some(builder.source()),
        }
    }

    /// The byte that ends a record.
    pub fn separator(&self) -> u8
        ensures { result ≡ self.now.separator }
    {
        self.separator
    }
}

/// The specs that options ask for, under the defaults.
///
/// # Errors
/// [`Refusal::Spec`], where the specs stand in the words; [`Refusal::Memory`].
fn asked_specs(alloc: Global, options: Options<'_>, defaults: Defaults) -> Result<JobSpecs, Refusal>
    requires { IsTrue (is_clean_prefix options.prefix.now) }
    ensures specs { (viewed : OptionsView) → ShowsOptions options.entry viewed
        → ComputesRequest (λ specs. numbered_specs (job_specs_view specs))
        (asked_specs viewed defaults) result }
    ensures source { IfOk result (λ specs. IfSome (search_in (job_specs_view specs))
        (λ search. search.source ≡ None)) }
    ensures effort { IfOk result (λ specs.
        IfSome (search_in (job_specs_view specs)) (λ search. IsFresh search.counts)) }
{
    if let Some(source) = options.source {
        let builder = SearchBuilder::new(alloc, source, defaults, options.prefix, options.root)?;
        return Ok(JobSpecs::FromInput(builder));
    }
    let patterns = words::parse_words(alloc, options.specs, defaults)?;
    let search = specs::search(alloc, patterns, options.prefix, options.root)?;
    Ok(JobSpecs::FromWords(search))
}
