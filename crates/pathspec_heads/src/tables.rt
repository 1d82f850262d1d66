//! Tables of the stems of specs: whether one of them reaches a path, or takes it.
ghost use Rattle.std.specs.Prelude.{◌≡◌, ◌&&◌, true, List, map, filter, IfOk};
ghost use Rattle.std.specs.List.{list_any};
ghost use Rattle.pathspec_glob.specs.Bytes.{fold_case};
ghost use Rattle.pathspec_heads.specs.Stems.{HasSameTexts};
ghost use Rattle.pathspec_heads.specs.Tables.{StemParts, TextLists, TextTable, stem_reaches, path_takes, is_of_kind, texts_of, relation_of, stem_answers, lists_answer, IsListed, IsTableOf};

use crate::sorted_texts::{CompareScratch, SortedTexts};
use crate::stems::Relation;
use std::alloc::{AllocError, Global};
use std::fmt;
use std::marker::Model;

/// The stem of a spec, which is its path before the first wildcard, with the spec's properties.
#[derive(Debug, Drop)]
pub struct SpecStem<'s> {
    pub text: &'s [u8],
    /// Whether ASCII case doesn't count.
    pub ignores_case: bool,
    /// Whether a wildcard follows the stem.
    pub has_wildcard: bool,
    /// Whether the spec takes only directories and what lies below them.
    pub wants_directory: bool,
}

impl<'s> Model for SpecStem<'s> {
    ghost Value = { StemParts };

    ghost view = { λ s. record { text = s.text.now; ignores_case = s.ignores_case; has_wildcard = s.has_wildcard; wants_directory = s.wants_directory } };
}

/// The kind of a stem: together with case, it says in which list of a table the stem stands.
#[derive(Clone, Copy)]
enum Kind {
    /// A wildcard follows the stem.
    Wild,
    /// No wildcard follows, and files are taken too.
    Literal,
    /// No wildcard follows, and a directory is wanted.
    Directory,
}

/// A question to a table about a path.
#[derive(Clone, Copy)]
enum Question {
    /// Whether a stem reaches the path, which is that of a directory, of a file, or of either.
    Reaches(Option<bool>),
    /// Whether a stem takes the path, which is that of a directory or of a file.
    Takes(bool),
}

/// The relation that the path must have to a stem of this kind for a yes; None where the answer is always no.
#[inline(always)]
fn relation_of(kind: Kind, question: Question) -> Option<Relation>
    ensures { result ≡ relation_of kind question }
{
    match (kind, question) {
        (Kind::Wild, Question::Reaches(_)) => Some(Relation::LeadsToWild),
        (Kind::Wild, Question::Takes(_)) => None,
        (Kind::Directory, Question::Reaches(Some(false))) => Some(Relation::Below),
        (_, Question::Reaches(_)) => Some(Relation::LeadsTo),
        (Kind::Directory, Question::Takes(false)) => Some(Relation::Below),
        (_, Question::Takes(_)) => Some(Relation::AtOrBelow),
    }
}

impl SpecStem<'_> {
    /// Whether the stem has the kind, and counts case or not.
    fn is_of_kind(&self, ignore_case: bool, kind: Kind) -> bool
        ensures { result ≡ is_of_kind ignore_case kind self.now }
    {
        if self.ignores_case != ignore_case {
            return false;
        }
        match kind {
            Kind::Wild => self.has_wildcard,
            Kind::Literal => !self.has_wildcard && !self.wants_directory,
            Kind::Directory => !self.has_wildcard && self.wants_directory,
        }
    }
}

/// The texts of the stems of a kind, with case or without, as they stand.
fn texts_of_kind<'s>(
    alloc: Global,
    stems: &[SpecStem<'s>],
    ignore_case: bool,
    kind: Kind,
) -> Result<Vec<&'s [u8]>, AllocError>
    ensures { IfOk result (λ texts. map (λ text. text.now) texts.items
        ≡ map (λ s. s.text) (filter (is_of_kind ignore_case kind) stems.now)) }
{
    let mut texts = Vec::new(alloc);
    for stem in stems {
        if stem.is_of_kind(ignore_case, kind) {
            texts.push(stem.text)?;
        }
    }
    Ok(texts)
}

/// Copies of the texts in lower case.
fn lower_copies(alloc: Global, texts: &[&[u8]]) -> Result<Vec<Vec<u8>>, AllocError>
    ensures { IfOk result (λ copies. map (λ copy. copy.items) copies.items
        ≡ map (fold_case true) (map (λ text. text.now) texts.now)) }
{
    let mut copies = Vec::with_capacity(alloc, texts.len())?;
    for text in texts {
        copies.push(text.to_ascii_lowercase(alloc)?)?;
    }
    Ok(copies)
}

/// Borrows each text.
fn borrowed(alloc: Global, texts: &[Vec<u8>]) -> Result<Vec<&[u8]>, AllocError>
    ensures { IfOk result (λ slices.
        map (λ slice. slice.now) slices.items ≡ map (λ text. text.items) texts.now) }
{
    let mut slices = Vec::with_capacity(alloc, texts.len())?;
    for text in texts {
        slices.push(text.as_slice())?;
    }
    Ok(slices)
}

/// The sorted stems of a kind. Only without case are there copies of the texts while they are sorted.
fn stems_of(
    alloc: Global,
    stems: &[SpecStem<'_>],
    ignore_case: bool,
    kind: Kind,
) -> Result<SortedTexts, AllocError>
    ensures { IfOk result (HasSameTexts (texts_of ignore_case kind stems.now)) }
{
    let texts = texts_of_kind(alloc, stems, ignore_case, kind)?;
    if !ignore_case {
        return SortedTexts::of_stems(alloc, &texts);
    }
    let copies = lower_copies(alloc, &texts)?;
    let slices = borrowed(alloc, &copies)?;
    SortedTexts::of_stems(alloc, &slices)
}

/// The texts of stems by their kinds, of those with case or of those without.
#[derive(Drop)]
struct StemLists {
    wild: SortedTexts,
    literal: SortedTexts,
    directory: SortedTexts,
}

impl Model for StemLists {
    ghost Value = { TextLists };

    ghost view = { λ s. record { wild = s.wild; literal = s.literal; directory = s.directory } };
}

/// The key that lets tables alone make scratches of stems.
#[derive(Clone, Copy)]
pub(crate) struct TableKey(());

/// The scratch of questions to tables: how many stems of each kind were compared with paths, and which one last.
#[derive(Debug, Drop)]
pub struct StemScratch {
    wild: CompareScratch,
    literal: CompareScratch,
    directory: CompareScratch,
}

impl StemScratch {
    /// Makes a scratch, before the first question.
    pub fn new() -> StemScratch {
        let key = TableKey(());
        StemScratch {
            wild: CompareScratch::for_stems(&key),
            literal: CompareScratch::for_stems(&key),
            directory: CompareScratch::for_stems(&key),
        }
    }
}

impl StemLists {
    /// Makes the lists of the stems with case, or of those without.
    fn new(
        alloc: Global,
        stems: &[SpecStem<'_>],
        ignore_case: bool,
    ) -> Result<StemLists, AllocError>
        ensures { IfOk result (IsListed ignore_case stems.now) }
    {
        let wild = stems_of(alloc, stems, ignore_case, Kind::Wild)?;
        let literal = stems_of(alloc, stems, ignore_case, Kind::Literal)?;
        let directory = stems_of(alloc, stems, ignore_case, Kind::Directory)?;
        Ok(StemLists {
            wild,
            literal,
            directory,
        })
    }

    // In line, so that a list without stems costs one test.
    /// Whether one of the stems answers yes.
    #[inline(always)]
    fn answer(
        &self,
        question: Question,
        path: &[u8],
        ignore_case: bool,
        scratch: &mut StemScratch,
    ) -> bool
        ensures { result ≡ lists_answer ignore_case self.now question path.now }
    {
        let wild = relation_of(Kind::Wild, question);
        let literal = relation_of(Kind::Literal, question);
        let directory = relation_of(Kind::Directory, question);
        self.wild
            .has_related(wild, path, ignore_case, &mut scratch.wild)
            || self
                .literal
                .has_related(literal, path, ignore_case, &mut scratch.literal)
            || self
                .directory
                .has_related(directory, path, ignore_case, &mut scratch.directory)
    }
}

/// A table of the stems of specs, with case and without.
#[derive(Drop)]
pub struct StemTable {
    exact: StemLists,
    folded: StemLists,
}

impl fmt::Debug for StemTable {
    fn fmt<W: fmt::Write>(&self, f: &mut fmt::Formatter<W>) -> fmt::Result {
        f.debug_struct("StemTable").finish_non_exhaustive()
    }
}

impl Model for StemTable {
    ghost Value = { TextTable };

    ghost view = { λ t. record { exact = t.exact; folded = t.folded } };
}

impl StemTable {
    /// Makes a table of stems, in any order. It sorts copies of their texts; its memory is linear in their bytes.
    ///
    /// The stems stand in six lists: with case and without, those before a wildcard, those of directories, and the others.
    ///
    /// # Errors
    /// Memory runs out.
    pub fn new(alloc: Global, stems: &[SpecStem<'_>]) -> Result<StemTable, AllocError>
        ensures { IfOk result (IsTableOf stems.now) }
    {
        let exact = StemLists::new(alloc, stems, false)?;
        let folded = StemLists::new(alloc, stems, true)?;
        Ok(StemTable { exact, folded })
    }

    /// Whether one of the stems reaches the path, of a directory, of a file, or of either. A stem reaches a path that it is,
    /// or that lies above or below it, or that it begins before a wildcard. If it wants a directory, it reaches only files
    /// below it.
    ///
    /// The call takes no memory. In each list it compares at most as many stems as their count has binary digits, and two. It
    /// takes a link for each stem that begins the path. None of this is proved.
    pub fn reaches(&self, path: &[u8], is_dir: Option<bool>) -> bool
        ensures { (stems : List StemParts) → IsTableOf stems self.now
            → result ≡ list_any (λ stem. stem_reaches stem path.now is_dir) stems }
    {
        self.reaches_with(path, is_dir, &mut StemScratch::new())
    }

    /// Answers as [`StemTable::reaches`] does, with a scratch of the caller's. Where paths come in byte order with one
    /// scratch, one stem is often compared in each list.
    pub fn reaches_with(&self, path: &[u8], is_dir: Option<bool>, scratch: &mut StemScratch) -> bool
        ensures { (stems : List StemParts) → IsTableOf stems self.now
            → result ≡ list_any (λ stem. stem_reaches stem path.now is_dir) stems }
    {
        self.answer(Question::Reaches(is_dir), path, scratch)
    }

    /// Whether one of the stems without a wildcard takes the path, of a directory or of a file: it is the stem or lies below
    /// it. A stem that wants a directory is no file's path. The cost is that of [`StemTable::reaches`].
    pub fn takes(&self, path: &[u8], is_dir: bool) -> bool
        ensures { (stems : List StemParts) → IsTableOf stems self.now
            → result ≡ list_any (λ s. path_takes s path.now is_dir) stems }
    {
        self.answer(Question::Takes(is_dir), path, &mut StemScratch::new())
    }

    /// Whether one of the stems without case takes the path, as [`StemTable::takes`] says.
    pub fn takes_folded(&self, path: &[u8], is_dir: bool) -> bool
        ensures { (stems : List StemParts) → IsTableOf stems self.now → result
            ≡ list_any (λ s. s.ignores_case && path_takes s path.now is_dir) stems }
    {
        self.folded.answer(Question::Takes(is_dir), path, true, &mut StemScratch::new())
    }

    /// Whether one of the stems answers yes.
    #[inline(always)]
    fn answer(&self, question: Question, path: &[u8], scratch: &mut StemScratch) -> bool
        ensures { (stems : List StemParts) → IsTableOf stems self.now
            → result ≡ list_any (λ stem. stem_answers question stem path.now) stems }
    {
        self.exact.answer(question, path, false, scratch)
            || self.folded.answer(question, path, true, scratch)
    }
}
