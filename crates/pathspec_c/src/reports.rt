//! Reports to C: the spec that settles a path, the fault for which a search was not made, and the lines that a file lost.
ghost use Rattle.std.specs.Prelude.{◌≡◌, ◌≢◌, None, map, MatchOption};
ghost use Rattle.std.specs.Option.{option_map};
ghost use Rattle.gix_pathspec.specs.Errors.{fault_of};
ghost use Rattle.gix_pathspec.specs.Found.{match_view};
ghost use Rattle.gix_pathspec.specs.Search.{selects};
ghost use Rattle.pathspec_attributes.specs.Views.{left_out_view};
ghost use Rattle.pathspec_c.specs.Added.{reason_number};
ghost use Rattle.pathspec_c.specs.Calls.{IsYesOrNo, yes_no, kind_number, fault_number};

use gix_pathspec::Error;
use gix_pathspec::search::{Match, MatchKind};
use pathspec_attributes::{LeftOut, Reason};

/// The spec that settles a path.
#[repr(C)]
#[derive(Drop)]
pub struct PsMatch {
    /// The place of the spec in the list that the search was made from.
    pub number: usize,
    /// The way in which the spec matches: 1 always, 2 by its prefix, 3 by its glob, 4 verbatim. It is 0 where no spec settles
    /// the path, and 5 where memory ran out before that was known.
    pub kind: u32,
    /// 1 where the spec takes the path out, and else 0. It is no `bool`, so that a caller may hand in what the memory holds.
    pub is_excluded: u32,
}

/// The fault for which no search was made.
#[repr(C)]
#[derive(Drop)]
pub struct PsFault {
    /// The place of the spec in the list.
    pub number: usize,
    /// The number of the error.
    pub kind: u32,
}

/// The lines of an attribute file that git leaves out.
#[repr(C)]
#[derive(Drop)]
pub struct PsLeftOut {
    /// How many there are.
    pub count: usize,
    /// The number of the first of them, from 1, or 0 where there is none.
    pub line: usize,
    /// The reason why it is left out: 1 too long, 2 no name, 3 a macro where none may stand, 4 a pattern that begins with `!`;
    /// or 0 where there is none.
    pub reason: u32,
}

impl PsLeftOut {
    ghost use Rattle.pathspec_c.specs.Added.{TellsLeftOut};

    /// Tells how many lines are left out, and the first.
    pub(crate) fn tell(&mut self, lines: &[LeftOut])
        ensures { TellsLeftOut self.new (map left_out_view lines.now) }
    {
        match lines.first() {
            Some(first) => {
                self.count = lines.len();
                self.line = first.line;
                self.reason = reason_number(first.reason);
            }
            None => {
                self.count = 0;
                self.line = 0;
                self.reason = 0;
            }
        }
    }
}

impl PsMatch {
    ghost use Rattle.pathspec_c.specs.Reports.{IsUnanswered, TellsAnswer};

    /// The report that no spec settles a path.
    pub(crate) fn unsettled() -> PsMatch
        ensures { TellsAnswer result None }
    {
        PsMatch {
            number: 0,
            kind: 0,
            is_excluded: 0,
        }
    }

    /// Tells the spec that settles a path, and whether that selects it: 1 for yes and 0 for no.
    pub(crate) fn tell(&mut self, settled: &Option<Match<'_>>) -> u32
        ensures selects { result ≡ yes_no (selects (option_map match_view settled.now)) }
        ensures report { TellsAnswer self.new (option_map match_view settled.now) }
        ensures answered { self.new.kind ≢ 5 }
        ensures closed { IsYesOrNo result }
    {
        match settled {
            Some(found) => {
                self.number = found.sequence_number;
                self.kind = kind_number(found.kind);
                let is_excluded = found.is_excluded();
                self.is_excluded = u32::from(is_excluded);
                u32::from(!is_excluded)
            }
            None => {
                *self = PsMatch::unsettled();
                0
            }
        }
    }

    /// Tells that memory ran out before the question was answered: 1, so that a caller who looks no further loses no path.
    pub(crate) fn tell_unanswered(&mut self) -> u32
        ensures { IsUnanswered result self.new }
    {
        self.number = 0;
        self.kind = 5;
        self.is_excluded = 0;
        1
    }
}

/// The number of a kind.
fn kind_number(kind: MatchKind) -> u32
    ensures number { result ≡ kind_number kind }
    ensures answered { result ≢ 5 }
{
    match kind {
        MatchKind::Always => 1,
        MatchKind::Prefix => 2,
        MatchKind::WildcardMatch => 3,
        MatchKind::Verbatim => 4,
    }
}

/// The number of a reason.
fn reason_number(reason: Reason) -> u32
    ensures { result ≡ reason_number reason }
{
    match reason {
        Reason::TooLong => 1,
        Reason::InvalidName => 2,
        Reason::MacroHere => 3,
        Reason::Negative => 4,
    }
}

/// The number of an error.
pub(crate) fn error_number(error: &Error) -> u32
    ensures { MatchOption (fault_of error.now) (result ≡ 16)
        (λ fault. result ≡ fault_number fault) }
{
    match error {
        Error::Empty => 1,
        Error::UnimplementedShort(_) => 2,
        Error::MissingParen(_) => 3,
        Error::InvalidKeyword(_) => 4,
        Error::LiteralWithGlob(_) => 5,
        Error::SecondAttributes(_) => 6,
        Error::InvalidPrefix(_) => 7,
        Error::EmptyAttributes => 8,
        Error::InvalidName(_) => 9,
        Error::InvalidValueByte(_) => 10,
        Error::TrailingEscape(_) => 11,
        Error::OutsideRoot(_) => 12,
        Error::LeavesRepository(_) => 13,
        Error::NotTruth(_) => 14,
        Error::GlobAndNoGlob => 15,
        Error::Memory => 16,
    }
}
