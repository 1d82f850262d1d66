//! The specs of words.
ghost use Rattle.std.specs.Prelude.{map, string_bytes};
ghost use Rattle.gix_pathspec.specs.Patterns.{pattern_spec};
ghost use Rattle.gix_pathspec.specs.Reading.{reading};
ghost use Rattle.gix_pathspec.specs.Search.{at_number};
ghost use Rattle.gix_pathspec.specs.Lines.{readings_from};
ghost use Rattle.pathspec_select.specs.Requests.{spec_result};
ghost use Rattle.pathspec_select.specs.Refusals.{ComputesRequest};

use crate::Refusal;
use gix_pathspec::{Defaults, Pattern, parse};
use std::alloc::Global;

/// Reads the spec of each word, under the defaults. The call looks at each byte of a word a fixed number of times.
///
/// # Errors
/// The first fault: [`Refusal::Spec`]; or [`Refusal::Memory`].
pub(crate) fn parse_words(
    alloc: Global,
    texts: &[String],
    defaults: Defaults,
) -> Result<Vec<Pattern>, Refusal>
    ensures { ComputesRequest (λ ps. map pattern_spec ps.items)
        (spec_result (readings_from 0 defaults (map string_bytes texts.now))) result }
{
    let mut patterns = Vec::new(alloc);
    for (number, text) in texts.iter().enumerate() {
        let pattern = parse_word(alloc, number, text, defaults)?;
        if patterns.push(pattern).is_err() {
            return Err(Refusal::Memory);
        }
    }
    Ok(patterns)
}

/// Reads the spec of the word with a number.
fn parse_word(
    alloc: Global,
    number: usize,
    text: &String,
    defaults: Defaults,
) -> Result<Pattern, Refusal>
    ensures { ComputesRequest pattern_spec
        (spec_result (at_number number (reading defaults (string_bytes text.now)))) result }
{
    match parse::parse(alloc, text.as_bytes(), defaults) {
        Ok(pattern) => Ok(pattern),
        Err(error) => Err(Refusal::of_spec(number, error)),
    }
}
