//! The tokens of globs, as they are read from a pattern.
ghost use Rattle.std.specs.Prelude.{◌≡◌, ◌+◌, ◌++◌, ◌<◌, ◌≤◌, ◌^◌, length, take, drop, map, nat_lt, not, IfOk, IfSome, OnOk, IsFalse, IsTrue, ◌==◌};
ghost use Rattle.std.specs.List.{list_any, prefix_len};
ghost use Rattle.pathspec_glob.specs.Bytes.{first_is, is_wildcard, slash, star};
ghost use Rattle.pathspec_glob.specs.GlobRelation.{is_same_byte, is_barred, takes, passes_over};
ghost use Rattle.pathspec_glob.specs.GlobForms.{one_byte_view, token_view, tokens_view};
ghost use Rattle.pathspec_glob.specs.GlobSteps.{is_wide, is_wide_at, may_pass_over_at, takes_byte, token_takes};
ghost use Rattle.pathspec_glob.specs.OpenEnds.{is_any_run, is_open};
ghost use Rattle.pathspec_glob.specs.ByteSets.{listed_tokens, listed_token_list};
ghost use Rattle.pathspec_glob.specs.GlobParts.{plain_tokens, behind_head, head_size, takes_each, tests_each, wide_size, first_token_takes, first_token_tests};
ghost use Rattle.pathspec_glob.specs.Matchers.{IsLoneStar};
ghost use Rattle.pathspec_glob.specs.Tokens.OneByte.{Byte};
ghost use Rattle.pathspec_glob.specs.Tokens.Token.{One, Star};
ghost use Rattle.pathspec_glob.specs.Counts.{BeginsAnew, HasNoSteps, KeepsCount};

pub mod word;

use crate::counted::{CountedBytes, CountedStar, CountedTokens};
use crate::sets::ByteSet;
use crate::{Case, Mode, reading};
use std::alloc::{AllocError, Global};
use std::marker::Model;

/// A rule for one byte of a text.
#[derive(Drop)]
pub enum OneByte {
    /// The byte itself.
    Byte(u8),
    /// The byte itself, which stands after a backslash in the pattern.
    Quoted(u8),
    /// Any byte; in PathAware none that is `/`.
    Any,
    /// A byte of the set, or where the bracket is negated any other; in PathAware none that is `/`.
    Bracket(bool, ByteSet),
    /// No byte.
    Dead,
}

/// One part of a glob.
#[derive(Drop)]
pub enum Token {
    /// One byte.
    One(OneByte),
    /// Any bytes without `/`.
    Star,
    /// Any bytes.
    Deep,
}

/// The star of a glob without other tokens between head and tail.
#[derive(Clone, Copy)]
pub enum LoneStar {
    /// Any bytes without `/`.
    Star,
    /// Any bytes.
    Deep,
    /// `**/*`, which matches any bytes.
    DeepSlashStar,
}

/// The tokens of a glob, or some of them that stand side by side.
#[derive(Drop)]
pub struct Tokens {
    mode: Mode,
    all: Vec<Token>,
}

impl Model for Tokens {
    ghost use Rattle.pathspec_glob.specs.GlobForms.{tokens_view};
    ghost use Rattle.pathspec_glob.specs.GlobSteps.{TokenList};

    ghost Value = { TokenList };

    ghost view = { λ t. record { mode = t.mode; tokens = tokens_view t.all.items } };
}

impl Tokens {
    /// Reads the tokens of a pattern. The cost is linear in the pattern.
    ///
    /// # Errors
    /// Memory runs out.
    pub fn of_pattern(alloc: Global, pattern: &[u8], mode: Mode) -> Result<Tokens, AllocError>
        ensures { IfOk result (λ read. read ≡ listed_token_list mode pattern.now) }
    {
        Ok(Tokens {
            mode,
            all: reading::tokens(alloc, pattern, mode)?,
        })
    }

    /// Reads the tokens of a pattern behind its head, which has no wildcard byte. The rest begins with a star, and the cost is
    /// linear in it.
    ///
    /// # Errors
    /// Memory runs out.
    pub fn behind_head(
        alloc: Global,
        head: &[u8],
        rest: &[u8],
        mode: Mode,
    ) -> Result<Tokens, AllocError>
        requires plain { IsFalse (list_any is_wildcard head.now) }
        requires wide { IsTrue (first_is (λ b. b == star) rest.now) }
        ensures { IfOk result (λ read. read ≡ record {
          mode = mode;
          tokens = behind_head (listed_tokens mode (head.now ++ rest.now));
        }) }
    {
        Ok(Tokens {
            mode,
            all: reading::behind_head(alloc, head, rest, mode)?,
        })
    }

    /// The mode of the pattern.
    pub fn mode(&self) -> Mode
        ensures { result ≡ self.now.mode }
    {
        self.mode
    }

    /// The count of tokens.
    pub fn len(&self) -> usize
        ensures { result ≡ length self.now.tokens }
    {
        self.all.len()
    }

    /// Whether the token at a place takes any number of bytes.
    pub fn is_wide(&self, place: usize) -> bool
        requires { place < length self.now.tokens }
        ensures { result ≡ is_wide_at (drop place self.now.tokens) }
    {
        self.all[place].is_wide()
    }

    /// Whether the token at a place and the next are a `**/` that may match nothing: in PathAware, `**` before a plain `/`.
    pub fn may_pass_over(&self, place: usize) -> bool
        requires { place < length self.now.tokens }
        ensures over { result ≡ may_pass_over_at self.now.mode (drop place self.now.tokens) }
        ensures next { IsTrue result → place + 1 < length self.now.tokens }
    {
        may_pass_over(self.mode, &self.all[place..])
    }

    /// The lone star that matches what the tokens match, if they are `*`, `**` or `**/*`. The last matches any text, as `**`
    /// does, since its `**/` may match nothing.
    pub fn as_lone_star(&self) -> Option<CountedStar>
        ensures whole { IfSome result (λ first. first ≡ self.now) }
        ensures alone { IfSome result IsLoneStar }
    {
        let form = match self.all.as_slice() {
            [first] if first.is_deep() => LoneStar::Deep,
            [first] if first.is_star() => LoneStar::Star,
            [_, _, last] if last.is_star() && self.may_pass_over(0) => LoneStar::DeepSlashStar,
            _ => return None,
        };
        Some(CountedStar::new(self.mode, form))
    }

    /// Whether the last token takes any bytes.
    pub fn has_open_end(&self) -> bool
        ensures { result ≡ is_open self.now.tokens }
    {
        match self.all.as_slice() {
            [.., last] => last.is_deep(),
            [] => false,
        }
    }

    /// Whether the token at a place takes a byte, alone or with others.
    pub fn takes(&self, place: usize, byte: u8, case: Case) -> bool
        requires { place < length self.now.tokens }
        ensures { result ≡ token_takes self.now case place byte }
    {
        self.all[place].takes(self.mode, case, byte)
    }

    /// Splits off the tokens from a place on.
    ///
    /// # Errors
    /// Memory runs out, and nothing was split off.
    pub fn split_off(&mut self, place: usize) -> Result<Tokens, AllocError>
        requires { place ≤ length self.old.tokens }
        ensures front { OnOk result
            (self.new ≡ record { mode = self.old.mode; tokens = take place self.old.tokens }) }
        ensures behind { IfOk result (λ behind.
            behind ≡ record { mode = self.old.mode; tokens = drop place self.old.tokens }) }
    {
        let behind = self.all.split_off(place)?;
        Ok(Tokens {
            mode: self.mode,
            all: behind,
        })
    }

    /// The count of tokens before the first that takes any number of bytes.
    pub fn head_size(&self) -> usize
        ensures size { result ≡ head_size self.now.tokens }
        ensures within { result ≤ length self.now.tokens }
    {
        head_size(&self.all)
    }

    /// The count of tokens up to the last that takes any number of bytes, and the `/` behind it where `**/` may match nothing.
    pub fn wide_size(&self) -> usize
        ensures size { result ≡ wide_size self.now.mode self.now.tokens }
        ensures within { result ≤ length self.now.tokens }
    {
        let mut size = 0;
        for place in 0..self.len() {
            if self.is_wide(place) {
                size = if self.may_pass_over(place) {
                    place + 2
                } else {
                    place + 1
                };
            }
        }
        size
    }

    /// The bytes that the tokens from a place on want, where each is a byte of the pattern; None where one isn't.
    ///
    /// # Errors
    /// Memory runs out.
    pub fn bytes_from(
        &self,
        alloc: Global,
        place: usize,
    ) -> Result<Option<CountedBytes>, AllocError>
        requires { place ≤ length self.now.tokens }
        ensures { IfOk result (λ found.
            IfSome found (λ bytes. drop place self.now.tokens ≡ plain_tokens bytes.all.items)) }
    {
        Ok(match bytes_of(alloc, &self.all[place..])? {
            Some(bytes) => Some(CountedBytes::new(bytes)),
            None => None,
        })
    }

    /// Keeps the tokens before a place.
    pub fn truncate(&mut self, place: usize)
        ensures { self.new ≡ record { mode = self.old.mode; tokens = take place self.old.tokens } }
    {
        self.all.truncate(place);
    }

    /// Wraps the tokens, so that each question about a text is counted.
    pub fn counted(self) -> CountedTokens
        ensures { result ≡ self }
    {
        CountedTokens::new(self.mode, self.all)
    }
}

/// The bytes that the tokens want, if each is a byte of the pattern.
fn bytes_of(alloc: Global, tokens: &[Token]) -> Result<Option<Vec<u8>>, AllocError>
    ensures { IfOk result (λ found.
        IfSome found (λ bytes. tokens_view tokens.now ≡ plain_tokens bytes.items)) }
{
    let mut bytes = Vec::with_capacity(alloc, tokens.len())?;
    for token in tokens {
        let Some(byte) = token.byte() else {
            return Ok(None);
        };
        bytes.push(byte)?;
    }
    Ok(Some(bytes))
}

/// The count of tokens before the first that takes any number of bytes.
fn head_size(tokens: &[Token]) -> usize
    ensures size { result ≡ prefix_len (λ t. not (is_wide (token_view t))) tokens.now }
    ensures within { result ≤ length tokens.now }
{
    tokens.iter().take_while(|token| !token.is_wide()).count()
}

/// Whether the first two tokens are a `**/` that may match nothing.
fn may_pass_over(mode: Mode, tokens: &[Token]) -> bool
    ensures { result ≡ may_pass_over_at mode (tokens_view tokens.now) }
{
    match tokens {
        [first, next, ..] => first.is_deep() && next.is_passed_over(mode),
        _ => false,
    }
}

impl Token {
    /// Whether the token takes any bytes.
    fn is_deep(&self) -> bool
        ensures { result ≡ is_any_run (token_view self.now) }
    {
        matches!(self, Token::Deep)
    }

    /// Whether the token takes any bytes without `/`.
    fn is_star(&self) -> bool
        ensures { IsTrue result → token_view self.now ≡ Star }
    {
        matches!(self, Token::Star)
    }

    /// Whether a `**` before the token may match nothing with it: in PathAware, before a plain `/`.
    fn is_passed_over(&self, mode: Mode) -> bool
        ensures { result ≡ passes_over mode (token_view self.now) }
    {
        mode == Mode::PathAware && matches!(self, Token::One(OneByte::Byte(b'/')))
    }

    /// Whether the token takes any number of bytes.
    fn is_wide(&self) -> bool
        ensures { result ≡ is_wide (token_view self.now) }
    {
        !matches!(self, Token::One(_))
    }

    /// The byte of the pattern that the token is, if it is one.
    fn byte(&self) -> Option<u8>
        ensures { IfSome result (λ byte. token_view self.now ≡ One (Byte byte)) }
    {
        match self {
            Token::One(OneByte::Byte(byte)) => Some(*byte),
            _ => None,
        }
    }

    /// Whether the token takes a byte, alone or with others.
    pub fn takes(&self, mode: Mode, case: Case, byte: u8) -> bool
        ensures { result ≡ takes_byte mode case (token_view self.now) byte }
    {
        match self {
            // As the other tokens for one byte, but in line.
            Token::One(OneByte::Byte(own)) => is_same_byte(case, *own, byte),
            Token::One(single) => single.takes(mode, case, byte),
            Token::Star => byte != b'/',
            Token::Deep => true,
        }
    }
}

impl OneByte {
    /// Whether the rule admits a byte.
    #[inline(never)]
    fn takes(&self, mode: Mode, case: Case, byte: u8) -> bool
        ensures { result ≡ takes mode case (one_byte_view self.now) byte }
    {
        match self {
            OneByte::Byte(own) | OneByte::Quoted(own) => is_same_byte(case, *own, byte),
            OneByte::Any => !is_barred(mode, byte),
            OneByte::Bracket(negated, set) => {
                !is_barred(mode, byte) && set.holds(case, byte) != *negated
            }
            OneByte::Dead => false,
        }
    }
}

/// Whether two bytes are equal, up to ASCII case where it doesn't count.
pub fn is_same_byte(case: Case, own: u8, byte: u8) -> bool
    ensures { result ≡ is_same_byte case own byte }
{
    match case {
        Case::Sensitive => own == byte,
        Case::Fold => own.eq_ignore_ascii_case(&byte),
    }
}

/// Whether the mode keeps the byte from `?` and from brackets.
fn is_barred(mode: Mode, byte: u8) -> bool
    ensures { result ≡ is_barred mode byte }
{
    mode == Mode::PathAware && byte == b'/'
}
