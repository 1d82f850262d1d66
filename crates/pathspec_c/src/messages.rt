//! Messages of faults, for people: their words may change.
//!
//! Each call reads again what is at fault, at the same cost, and takes memory. A message is copied as the texts of
//! [`texts`](crate::texts) are. The status is 1 where there is one, 0 where nothing is at fault, 3 where memory ran out, and 4
//! where the prefix isn't clean. Where it isn't 1, the room is as before and the length 0.
ghost use Rattle.std.specs.Prelude.{◌≡◌, ◌≢◌, ◌↔◌, ◌⊎◌, ℕ, false, IsErr, IsOk, List, Result};
ghost use Rattle.pathspec_pattern.specs.AttributeLists.{assignments_of};
ghost use Rattle.gix_pathspec.specs.Building.{TellsFault};
ghost use Rattle.gix_pathspec.specs.Faults.{Fault};
ghost use Rattle.gix_pathspec.specs.Lines.{search_of_lines, search_of_texts};
ghost use Rattle.gix_pathspec.specs.Search.{Numbered};
ghost use Rattle.pathspec_parts.specs.Paths.{is_clean_prefix};
ghost use Rattle.pathspec_c.specs.Calls.{IsMessageStatus, defaults_from, texts_in};

use crate::build;
use crate::defaults::defaults_from;
use crate::texts::tell;
use bstr::BStr;
use gix_pathspec::{BuildError, Error, Search, parse};
use pathspec_parts::path::is_clean_prefix;
use std::alloc::Global;

/// The message of the fault that [`ps_search_new`](crate::searches::ps_search_new) tells of the same texts.
#[unsafe(no_mangle)]
pub extern "C" fn ps_search_message(
    alloc: Global,
    specs: &[u8],
    prefix: &[u8],
    root: &[u8],
    defaults: u32,
    room: &mut [u8],
    length: &mut usize,
) -> u32
    ensures closed { IsMessageStatus result }
    ensures prefix { (result ≡ 4) ↔ (is_clean_prefix prefix.now ≡ false) }
    ensures none { result ≡ 0 → IsOk (search_of_texts (defaults_from defaults)
        prefix.now root.now (texts_in specs.now)) }
    ensures told { result ≡ 1 → IsErr (search_of_texts (defaults_from defaults)
        prefix.now root.now (texts_in specs.now)) }
    ensures length { result ≢ 1 → length.new ≡ 0 }
    ensures room { result ≢ 1 → room.new ≡ room.old }
{
    *length = 0;
    if !is_clean_prefix(BStr::new(prefix)) {
        return 4;
    }
    match build::search_of_texts(alloc, specs, defaults_from(defaults), prefix, root) {
        Ok(_) => 0,
        Err(error) => tell_build_error(alloc, &error, room, length),
    }
}

/// The message of the fault that [`ps_search_from_lines`](crate::searches::ps_search_from_lines) tells of the same text.
#[unsafe(no_mangle)]
pub extern "C" fn ps_lines_message(
    alloc: Global,
    text: &[u8],
    prefix: &[u8],
    root: &[u8],
    defaults: u32,
    room: &mut [u8],
    length: &mut usize,
) -> u32
    ensures closed { IsMessageStatus result }
    ensures prefix { (result ≡ 4) ↔ (is_clean_prefix prefix.now ≡ false) }
    ensures none { result ≡ 0 → IsOk (search_of_lines (defaults_from defaults)
        prefix.now root.now text.now) }
    ensures told { result ≡ 1 → IsErr (search_of_lines (defaults_from defaults)
        prefix.now root.now text.now) }
    ensures length { result ≢ 1 → length.new ≡ 0 }
    ensures room { result ≢ 1 → room.new ≡ room.old }
{
    *length = 0;
    let prefix = BStr::new(prefix);
    if !is_clean_prefix(prefix) {
        return 4;
    }
    let defaults = defaults_from(defaults);
    let source = BStr::new(b"");
    match Search::from_lines(alloc, text, source, defaults, Some(prefix), BStr::new(root)) {
        Ok(_) => 0,
        Err(error) => tell_build_error(alloc, &error, room, length),
    }
}

/// The message of the fault that [`ps_search_assign`](crate::searches::ps_search_assign) tells of the same list.
#[unsafe(no_mangle)]
pub extern "C" fn ps_list_message(
    alloc: Global,
    list: &[u8],
    room: &mut [u8],
    length: &mut usize,
) -> u32
    ensures closed { (result ≡ 0) ⊎ (result ≡ 1) ⊎ (result ≡ 3) }
    ensures none { result ≡ 0 → IsOk (assignments_of list.now) }
    ensures told { result ≡ 1 → IsErr (assignments_of list.now) }
    ensures length { result ≢ 1 → length.new ≡ 0 }
    ensures room { result ≢ 1 → room.new ≡ room.old }
{
    *length = 0;
    match parse::attributes(alloc, list) {
        Ok(_) => 0,
        Err(Error::Memory) => 3,
        Err(error) => match format!(in alloc; "{error}") {
            Ok(message) => tell(Some(BStr::new(message.as_bytes())), room, length),
            Err(_) => 3,
        },
    }
}

/// Tells the message of the error of a spec.
fn tell_build_error(alloc: Global, error: &BuildError, room: &mut [u8], length: &mut usize) -> u32
    requires { length.old ≡ 0 }
    ensures closed { (result ≡ 1) ⊎ (result ≡ 3) }
    ensures told { (computed : Result (List Numbered) (ℕ × Fault))
        → TellsFault error.now (λ first. computed ≡ Err first) → result ≡ 1 → IsErr computed }
    ensures length { result ≢ 1 → length.new ≡ 0 }
    ensures room { result ≢ 1 → room.new ≡ room.old }
{
    match error {
        BuildError::Memory => 3,
        error => match format!(in alloc; "{error}") {
            Ok(message) => tell(Some(BStr::new(message.as_bytes())), room, length),
            Err(_) => 3,
        },
    }
}
