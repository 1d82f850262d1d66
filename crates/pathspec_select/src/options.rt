//! The options of the command line, which stand before the specs.
ghost use Rattle.std.specs.Prelude.{◌≡◌, [], ◌∷◌, map, IfOk, IfErr, MatchResult, OnErr, IsTrue, string_bytes};
ghost use Rattle.pathspec_parts.specs.Paths.{is_clean_prefix};
ghost use Rattle.pathspec_select.specs.Options.{Options as OptionsView, no_options, option_word, with_setting, prefix_of, with_clean_prefix, with_specs_once, options_of};
ghost use Rattle.pathspec_select.specs.OptionWords.{option_view, setting_view, options_from, IsFirst, AreWrong, HasSettings, ShowsOptions, ComputesOptions};

use crate::Refusal;
use bstr::BStr;
use pathspec_parts::path;

/// The values of the options but for lists of attributes, and the words after them.
#[derive(Drop)]
pub(crate) struct Options<'w> {
    pub(crate) prefix: &'w [u8],
    pub(crate) root: &'w [u8],
    pub(crate) separator: u8,
    pub(crate) source: Option<&'w [u8]>,
    pub(crate) specs: &'w [String],
}

/// The meaning of a word where an option may stand.
#[derive(Drop)]
enum OptionWord {
    EndsOptions,
    SaysNul,
    NamesPrefix,
    NamesRoot,
    NamesList,
    NamesSource,
    IsUnknown,
    BeginsSpecs,
}

/// An option with its arguments.
#[derive(Drop)]
pub(crate) enum Setting<'w> {
    /// The byte 0 ends a record.
    EndsByNul,
    /// Specs are read in this directory.
    HasPrefix(&'w [u8]),
    /// The repository lies at this path.
    HasRoot(&'w [u8]),
    /// A path has this list of attributes.
    HasList(&'w [u8], &'w [u8]),
    /// The specs stand first in the input, and their source has this name.
    HasSource(&'w [u8]),
}

/// The beginning of words.
#[derive(Drop)]
pub(crate) enum Words<'w> {
    /// An option, and the words after it.
    After(Setting<'w>, &'w [String]),
    /// The specs, which are all that is left of the words.
    Specs(&'w [String]),
}

/// The first option of words, or their specs.
///
/// # Errors
/// [`Refusal::Usage`]: the option is unknown or lacks an argument.
pub(crate) fn first_option(words: &[String]) -> Result<Words<'_>, Refusal>
    ensures { MatchResult result (IsFirst (map string_bytes words.now))
        (AreWrong (map string_bytes words.now)) }
{
    let Some((word, rest)) = words.split_first() else {
        return Ok(Words::Specs(words));
    };
    match option_word(word.as_bytes()) {
        OptionWord::EndsOptions => Ok(Words::Specs(rest)),
        OptionWord::SaysNul => Ok(Words::After(Setting::EndsByNul, rest)),
        OptionWord::NamesPrefix => {
            let (path, rest) = argument(rest)?;
            Ok(Words::After(Setting::HasPrefix(path), rest))
        }
        OptionWord::NamesRoot => {
            let (path, rest) = argument(rest)?;
            Ok(Words::After(Setting::HasRoot(path), rest))
        }
        OptionWord::NamesList => {
            let (path, rest) = argument(rest)?;
            let (list, rest) = argument(rest)?;
            Ok(Words::After(Setting::HasList(path, list), rest))
        }
        OptionWord::NamesSource => {
            let (name, rest) = argument(rest)?;
            Ok(Words::After(Setting::HasSource(name), rest))
        }
        OptionWord::IsUnknown => Err(Refusal::Usage),
        OptionWord::BeginsSpecs => Ok(Words::Specs(words)),
    }
}

/// The meaning of a word where an option may stand.
fn option_word(word: &[u8]) -> OptionWord
    ensures { option_view result ≡ option_word word.now }
{
    if word == b"--".as_slice() {
        OptionWord::EndsOptions
    } else if word == b"-z".as_slice() {
        OptionWord::SaysNul
    } else if word == b"--prefix".as_slice() {
        OptionWord::NamesPrefix
    } else if word == b"--root".as_slice() {
        OptionWord::NamesRoot
    } else if word == b"--attr".as_slice() {
        OptionWord::NamesList
    } else if word == b"--specs-first".as_slice() {
        OptionWord::NamesSource
    } else if word.starts_with(b"-") {
        OptionWord::IsUnknown
    } else {
        OptionWord::BeginsSpecs
    }
}

/// An option's argument, which is the next word, and the words after it.
fn argument(words: &[String]) -> Result<(&[u8], &[String]), Refusal>
    ensures next { IfOk result
        (λ found. map string_bytes words.now ≡ found.0.now ∷ map string_bytes found.1.now) }
    ensures usage { IfErr result (λ e. e ≡ Refusal.Usage) }
    ensures missing { OnErr result (words.now ≡ []) }
{
    match words.split_first() {
        Some((argument, rest)) => Ok((argument.as_bytes(), rest)),
        None => Err(Refusal::Usage),
    }
}

/// Reads the options but for lists of attributes, up to `--`, or up to the first word that begins with no `-`. A later prefix,
/// root or source takes the place of an earlier one. The call copies nothing.
///
/// # Errors
/// [`Refusal::Usage`]: an option is unknown or lacks an argument, the prefix isn't clean, or specs stand in the words beside
/// those of the input.
pub(crate) fn options_from_words(words: &[String]) -> Result<Options<'_>, Refusal>
    ensures options { ComputesOptions (options_of (map string_bytes words.now)) result }
    ensures clean { IfOk result (λ options. IsTrue (is_clean_prefix options.prefix.now)) }
{
    with_specs_once(with_clean_prefix(unchecked_options(words)?)?)
}

/// Reads the options, where the prefix may be any argument.
fn unchecked_options(words: &[String]) -> Result<Options<'_>, Refusal>
    ensures { ComputesOptions (options_from no_options (map string_bytes words.now)) result }
{
    let mut options = Options {
        prefix: b"",
        root: b"",
        separator: b'\n',
        source: None,
        specs: words,
    };
    loop {
        match first_option(options.specs)? {
            Words::Specs(specs) => return Ok(Options { specs, ..options }),
            Words::After(setting, rest) => options = with_setting(options, setting, rest),
        }
    }
}

/// The options with one more setting, and the words after it.
fn with_setting<'w>(options: Options<'w>, setting: Setting<'w>, specs: &'w [String]) -> Options<'w>
    ensures settings { (viewed : OptionsView) → HasSettings options.entry viewed
        → HasSettings result (with_setting (setting_view setting.entry) viewed) }
    ensures specs { result.specs.now ≡ specs.now }
{
    match setting {
        Setting::EndsByNul => Options {
            separator: 0,
            specs,
            ..options
        },
        Setting::HasPrefix(prefix) => Options {
            prefix,
            specs,
            ..options
        },
        Setting::HasRoot(root) => Options {
            root,
            specs,
            ..options
        },
        Setting::HasList(..) => Options { specs, ..options },
        Setting::HasSource(name) => Options {
            source: Some(name),
            specs,
            ..options
        },
    }
}

/// The options with the prefix that their argument names, if it is clean.
fn with_clean_prefix(options: Options<'_>) -> Result<Options<'_>, Refusal>
    ensures options { (viewed : OptionsView) → ShowsOptions options.entry viewed
        → ComputesOptions (with_clean_prefix viewed) result }
    ensures clean { IfOk result (λ cleaned. IsTrue (is_clean_prefix cleaned.prefix.now)) }
{
    let prefix = prefix_of(options.prefix);
    if !path::is_clean_prefix(BStr::new(prefix)) {
        return Err(Refusal::Usage);
    }
    Ok(Options { prefix, ..options })
}

/// The options, if their specs stand in one place: the words or the input.
fn with_specs_once(options: Options<'_>) -> Result<Options<'_>, Refusal>
    ensures options { (viewed : OptionsView) → ShowsOptions options.entry viewed
        → ComputesOptions (with_specs_once viewed) result }
    ensures prefix { IfOk result (λ same. same.prefix.now ≡ options.entry.prefix.now) }
{
    if options.source.is_some() && !options.specs.is_empty() {
        return Err(Refusal::Usage);
    }
    Ok(options)
}

/// The prefix that an argument names: where it is longer than one byte, one slash at its end isn't part of it.
fn prefix_of(argument: &[u8]) -> &[u8]
    ensures { result.now ≡ prefix_of argument.now }
{
    if argument.len() > 1 {
        path::strip_last_slash(argument).0
    } else {
        argument
    }
}
