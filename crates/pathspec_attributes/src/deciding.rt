//! How assignments decide attributes, and where macros expand (gitattributes, "DEFINING MACRO ATTRIBUTES").
ghost use Rattle.std.specs.Prelude.{◌≡◌, ◌≤◌, [], ◌∷◌, map, min, reverse, OnOk};
ghost use Rattle.std.specs.Option.{option_map};
ghost use Rattle.pathspec_parts.specs.AttributeStates.{assignment_view};
ghost use Rattle.pathspec_parts.specs.Outcomes.{names_of};
ghost use Rattle.pathspec_attributes.specs.Deciding.{body_of, DecidesOnce};
ghost use Rattle.pathspec_attributes.specs.Leading.{body_at, body_of_set, body_of_place, listed, pending_of, pending_said, weight, Leads};
ghost use Rattle.pathspec_attributes.specs.Views.{macro_view, macros_view, marked};

use crate::reading::Macro;
use crate::room::Room;
use pathspec_parts::attributes::{Assignment, Outcome, State};
use std::alloc::{AllocError, Global};

/// The macros that count, in the order in which they count. In each list the last counts most.
#[derive(Clone, Copy, Debug)]
pub(crate) struct Macros<'a> {
    pub info: &'a [Macro],
    pub top: &'a [Macro],
    pub global: &'a [Macro],
    pub built_in: &'a [Macro],
}

/// One of the lists of macros.
#[derive(Clone, Copy, Debug)]
pub(crate) enum Source {
    Info,
    Top,
    Global,
    BuiltIn,
}

/// What a macro stands for, of which so many assignments in front still count, the last first.
#[derive(Clone, Copy, Debug)]
pub(crate) struct Pending {
    pub source: Source,
    pub place: usize,
    pub left: usize,
}

/// Decides what assignments say, the last first, after what is decided. Each name is decided once, and what a macro that it
/// sets stands for counts next.
///
/// # Errors
/// Memory runs out.
#[tactic(auto, using(crate::proofs::DecidingProofs::decides_once))]
pub(crate) fn decide(
    alloc: Global,
    macros: &Macros<'_>,
    said: &[Assignment],
    room: &mut Room,
    out: &mut Outcome,
) -> Result<(), AllocError>
    ensures leads { OnOk result (Leads (macros_view macros.now)
        (reverse (map assignment_view said.now)) (marked room.old.marks) out.old
        [] (marked room.new.marks) out.new) }
    ensures names { names_of out.new ≡ names_of out.old }
    // There is always an outcome, and only one.
    ensures once { DecidesOnce }
{
    room.pending.clear();
    let mut left = said.len();
    while left > 0 {
        left -= 1;
        let next = &said[left];
        take(alloc, macros, next, room, out)?;
        expand(alloc, macros, room, out)?;
    }
    Ok(())
}

/// Decides what pending macros stand for.
///
/// # Errors
/// Memory runs out.
fn expand(
    alloc: Global,
    macros: &Macros<'_>,
    room: &mut Room,
    out: &mut Outcome,
) -> Result<(), AllocError>
    ensures leads { OnOk result (Leads (macros_view macros.now)
        (pending_said macros.now room.old.pending.items) (marked room.old.marks) out.old
        [] (marked room.new.marks) out.new) }
    ensures pending { OnOk result (room.new.pending.items ≡ []) }
    ensures names { names_of out.new ≡ names_of out.old }
{
    while let Some(next) = room.pending.pop() {
        let body = body_at(macros, next.source, next.place);
        let left = lesser(next.left, body.len());
        if left > 0 {
            room.pending.push(Pending {
                left: left - 1,
                ..next
            })?;
            let first = &body[left - 1];
            take(alloc, macros, first, room, out)?;
        }
    }
    Ok(())
}

/// The lesser of two counts.
fn lesser(one: usize, other: usize) -> usize
    ensures { result ≡ min one other }
{
    if one < other { one } else { other }
}

/// Decides the name of an assignment, if it isn't decided. What it brings along is then pending.
///
/// # Errors
/// Memory runs out.
fn take(
    alloc: Global,
    macros: &Macros<'_>,
    next: &Assignment,
    room: &mut Room,
    out: &mut Outcome,
) -> Result<(), AllocError>
    ensures leads { OnOk result (Leads (macros_view macros.now)
        (assignment_view next.now ∷ pending_said macros.now room.old.pending.items)
        (marked room.old.marks) out.old
        (pending_said macros.now room.new.pending.items) (marked room.new.marks) out.new) }
    ensures weight { OnOk result (weight macros.now room.new.pending.items (marked room.new.marks)
        ≤ weight macros.now room.old.pending.items (marked room.old.marks)) }
    ensures names { names_of out.new ≡ names_of out.old }
{
    let name = next.name.as_bytes().as_bytes();
    if !room.marks.mark(alloc, name)? {
        return Ok(());
    }
    out.set(name, next.state.as_ref())?;
    if let Some(brought) = brought(macros, next) {
        room.pending.push(brought)?;
        return Ok(());
    }
    Ok(())
}

/// What an assignment brings along: what a macro stands for, where it sets one.
fn brought(macros: &Macros<'_>, next: &Assignment) -> Option<Pending>
    ensures { option_map (pending_of macros.now) result
        ≡ option_map reverse (body_of_set (macros_view macros.now) (assignment_view next.now)) }
{
    match next.state {
        State::Set => macro_of(macros, next.name.as_bytes().as_bytes()),
        State::Unset | State::Value(_) | State::Unspecified => None,
    }
}

/// The macro of a name, of which all is pending.
fn macro_of(macros: &Macros<'_>, name: &[u8]) -> Option<Pending>
    ensures { option_map (pending_of macros.now) result
        ≡ option_map reverse (body_of (macros_view macros.now) name.now) }
{
    if let Some(place) = place_of(macros.info, name) {
        return Some(whole(macros, Source::Info, place));
    }
    if let Some(place) = place_of(macros.top, name) {
        return Some(whole(macros, Source::Top, place));
    }
    if let Some(place) = place_of(macros.global, name) {
        return Some(whole(macros, Source::Global, place));
    }
    match place_of(macros.built_in, name) {
        Some(place) => Some(whole(macros, Source::BuiltIn, place)),
        None => None,
    }
}

/// The whole of what a macro stands for.
fn whole(macros: &Macros<'_>, source: Source, place: usize) -> Pending
    ensures { pending_of macros.now result ≡ reverse (body_at macros.now source place) }
{
    let left = body_at(macros, source, place).len();
    Pending {
        source,
        place,
        left,
    }
}

/// What the macro at a place of a list stands for.
fn body_at<'a>(macros: &Macros<'a>, source: Source, place: usize) -> &'a [Assignment]
    ensures { map assignment_view result.now ≡ body_at macros.now source place }
{
    match listed(macros, source).get(place) {
        Some(own) => own.body.as_slice(),
        None => &[],
    }
}

/// A list of macros.
fn listed<'a>(macros: &Macros<'a>, source: Source) -> &'a [Macro]
    ensures { result.now ≡ listed macros.now source }
{
    match source {
        Source::Info => macros.info,
        Source::Top => macros.top,
        Source::Global => macros.global,
        Source::BuiltIn => macros.built_in,
    }
}

/// The place of the last macro of a name.
fn place_of(macros: &[Macro], name: &[u8]) -> Option<usize>
    ensures { option_map (body_of_place macros.now) result
        ≡ body_of (reverse (map macro_view macros.now)) name.now }
{
    let mut found = None;
    for (place, own) in macros.iter().enumerate() {
        if name == own.name.as_bytes().as_bytes() {
            found = Some(place);
        }
    }
    found
}
