//! Patterns of globs, read as tokens (git's wildmatch).
ghost use Rattle.std.specs.Prelude.{◌≡◌, ◌==◌, ◌+◌, ◌++◌, ◌||◌, ◌≤◌, ◌∷◌, Bool, false, codes, length, map, nat_eq, IfOk, IfSome, IsTrue, IsFalse};
ghost use Rattle.std.specs.List.{ends_with, list_any, prefix_len};
ghost use Rattle.pathspec_glob.specs.declared.Mode.{Mode};
ghost use Rattle.pathspec_glob.specs.declared.Mode.TheVariants.{PathAware};
ghost use Rattle.pathspec_glob.specs.Bytes.{first_is, is_empty, is_one_of, is_wildcard, star};
ghost use Rattle.pathspec_glob.specs.Tokens.{escaped_piece, bracket_piece, EndsPattern, is_deep, run_token, piece_of, StandsBefore, tokens_from};
ghost use Rattle.pathspec_glob.specs.ByteSets.{listed, listed_piece, listed_tokens, ReadsOn};
ghost use Rattle.pathspec_glob.specs.GlobParts.{behind_head};
ghost use Rattle.pathspec_glob.specs.Tokens.Token.{One, Deep};
ghost use Rattle.pathspec_glob.specs.GlobForms.{one_byte_view, token_view, tokens_view, piece_view};

use crate::sets::ByteSet;
use crate::tokens::{OneByte, Token};
use crate::wildcards::is_wildcard;
use crate::{Mode, brackets};
use std::alloc::{AllocError, Global};

/// A token at the front of a pattern, and how many bytes of the pattern it takes.
#[derive(Drop)]
struct Piece {
    token: Token,
    size: usize,
}

/// Reads the tokens of a pattern, from left to right. A last backslash, or a bracket that can't be read, makes a dead token,
/// which takes no byte and is the last. The cost is linear in the pattern.
///
/// # Errors
/// Memory runs out.
pub fn tokens(alloc: Global, pattern: &[u8], mode: Mode) -> Result<Vec<Token>, AllocError>
    ensures { IfOk result (λ read. tokens_view read.items ≡ listed_tokens mode pattern.now) }
{
    tokens_from(alloc, mode, true, pattern)
}

/// Reads the tokens of a pattern behind its head, which has no wildcard byte. The rest begins with a star, and the cost is
/// linear in it.
///
/// # Errors
/// Memory runs out.
pub fn behind_head(
    alloc: Global,
    head: &[u8],
    rest: &[u8],
    mode: Mode,
) -> Result<Vec<Token>, AllocError>
    requires plain { IsFalse (list_any is_wildcard head.now) }
    requires wide { IsTrue (first_is (λ b. b == star) rest.now) }
    ensures { IfOk result (λ read. tokens_view read.items
        ≡ behind_head (listed_tokens mode (head.now ++ rest.now))) }
{
    tokens_from(alloc, mode, is_after_slash(head), rest)
}

/// Whether the pattern behind a front stands after a slash, or begins the whole.
fn is_after_slash(front: &[u8]) -> bool
    ensures { result ≡ (is_empty front.now || ends_with nat_eq front.now (codes "/")) }
{
    front.is_empty() || front.ends_with(b"/")
}

/// Reads the remaining pattern. `after_slash` says whether a leading `**` may take directories.
///
/// # Errors
/// Memory runs out.
fn tokens_from(
    alloc: Global,
    mode: Mode,
    mut after_slash: bool,
    mut rest: &[u8],
) -> Result<Vec<Token>, AllocError>
    ensures { IfOk result (λ read. tokens_view read.items
        ≡ map listed (tokens_from mode 0 after_slash rest.now)) }
{
    let mut all = Vec::with_capacity(alloc, rest.len())?;
    while let [byte, after @ ..] = rest {
        let size = push_front(alloc, &mut all, mode, after_slash, *byte, after)?;
        after_slash = rest[size - 1] == b'/';
        rest = &rest[size..];
    }
    Ok(all)
}

/// Adds the first token of the pattern `byte` and `rest`, and gives how many bytes of it the token takes. A dead token takes
/// them all. `after_slash` says whether a leading `**` may take directories.
///
/// # Errors
/// Memory runs out.
#[inline(always)]
fn push_front(
    alloc: Global,
    all: &mut Vec<Token>,
    mode: Mode,
    after_slash: bool,
    byte: u8,
    rest: &[u8],
) -> Result<usize, AllocError>
    ensures { IfOk result (ReadsOn mode after_slash (byte ∷ rest.now)
        (tokens_view all.old.items) (tokens_view all.new.items)) }
{
    if !is_wildcard(byte) {
        all.push(Token::One(OneByte::Byte(byte)))?;
        return Ok(1);
    }
    if byte == b'*' {
        let more = count_stars(rest);
        all.push(run_token(mode, after_slash, more + 1, &rest[more..]))?;
        return Ok(more + 1);
    }
    push_single(alloc, all, byte, rest)
}

// Out of line, since most bytes of patterns stand for themselves.
/// Adds the token of a `?`, `[` or backslash, and gives how many bytes of the pattern it takes. A dead token takes them all.
///
/// # Errors
/// Memory runs out.
#[inline(never)]
fn push_single(
    alloc: Global,
    all: &mut Vec<Token>,
    byte: u8,
    rest: &[u8],
) -> Result<usize, AllocError>
    requires { IsTrue (is_one_of (codes "?[\\") byte) }
    ensures { (mode : Mode) (after_slash : Bool)
        → IfOk result (ReadsOn mode after_slash (byte ∷ rest.now)
        (tokens_view all.old.items) (tokens_view all.new.items)) }
{
    let Piece { token, size } = single_piece(alloc, byte, rest)?;
    let ends = is_dead(&token);
    all.push(token)?;
    Ok(if ends { rest.len() + 1 } else { size })
}

/// Whether a token is dead, so that the pattern behind it doesn't count.
fn is_dead(token: &Token) -> bool
    ensures last { IsTrue result → EndsPattern (token_view token.now) }
    ensures more { IsFalse result → StandsBefore (token_view token.now) }
{
    matches!(token, Token::One(OneByte::Dead))
}

/// The token of a `?`, `[` or backslash, with `rest` behind it, and its size.
fn single_piece(alloc: Global, byte: u8, rest: &[u8]) -> Result<Piece, AllocError>
    requires { IsTrue (is_one_of (codes "?[\\") byte) }
    ensures { (mode : Mode) (after_slash : Bool) → IfOk result (λ piece. piece_view piece
        ≡ listed_piece (piece_of mode after_slash byte rest.now)) }
{
    Ok(match byte {
        b'\\' => escaped_piece(rest),
        b'[' => bracket_piece(alloc, rest)?,
        _ => single_byte(OneByte::Any),
    })
}

/// The piece that a single byte of a pattern is.
fn single_byte(single: OneByte) -> Piece
    ensures { piece_view result ≡ record { token = One (one_byte_view single); size = 1 } }
{
    Piece {
        token: Token::One(single),
        size: 1,
    }
}

/// The piece of a backslash and the byte that it quotes. A last backslash is dead.
fn escaped_piece(rest: &[u8]) -> Piece
    ensures { piece_view result ≡ listed_piece (escaped_piece rest.now) }
{
    match rest {
        [] => single_byte(OneByte::Dead),
        [byte, ..] => Piece {
            token: Token::One(OneByte::Quoted(*byte)),
            size: 2,
        },
    }
}

/// The piece of the bracket whose `[` stands before `rest`. One `!` or `^` negates it. A bracket that can't be read is dead.
fn bracket_piece(alloc: Global, rest: &[u8]) -> Result<Piece, AllocError>
    ensures { IfOk result (λ piece. piece_view piece ≡ listed_piece (bracket_piece rest.now)) }
{
    let negated = is_negated(rest);
    let listed = if negated { &rest[1..] } else { rest };
    Ok(match brackets::read_items(alloc, listed)? {
        None => single_byte(OneByte::Dead),
        Some(read) => Piece {
            size: rest.len() + 1 - read.rest.len(),
            token: Token::One(OneByte::Bracket(negated, ByteSet::of_items(&read.items))),
        },
    })
}

/// Whether the first byte negates a bracket.
fn is_negated(bytes: &[u8]) -> bool
    ensures { result ≡ first_is (is_one_of (codes "!^")) bytes.now }
{
    matches!(bytes, [b'!' | b'^', ..])
}

/// The count of stars at the front of a text.
fn count_stars(text: &[u8]) -> usize
    ensures count { result ≡ prefix_len (λ c. c == star) text.now }
    ensures within { result ≤ length text.now }
{
    text.iter().take_while(|byte| **byte == b'*').count()
}

/// The token of a run of stars, with `rest` behind it.
fn run_token(mode: Mode, after_slash: bool, stars: usize, rest: &[u8]) -> Token
    ensures { token_view result ≡ run_token mode after_slash stars rest.now }
{
    match mode {
        Mode::Shell => Token::Deep,
        Mode::PathAware if is_deep(after_slash, stars, rest) => Token::Deep,
        Mode::PathAware => Token::Star,
    }
}

/// Whether a run of stars takes directories. It has two or more, at the pattern's start or after a slash. Behind it the
/// pattern ends, or a slash stands, which may be quoted.
fn is_deep(after_slash: bool, stars: usize, rest: &[u8]) -> bool
    ensures { result ≡ is_deep after_slash stars rest.now }
{
    stars >= 2
        && after_slash
        && (rest.is_empty() || rest.starts_with(b"/") || rest.starts_with(b"\\/"))
}
