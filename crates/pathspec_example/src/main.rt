//! Says which of two paths a search selects, and whether a walk may skip a directory.
#![tactic(auto)]

use bstr::BStr;
use gix_pathspec::attributes::NoAttributes;
use gix_pathspec::{Defaults, Search};
use std::io;

fn main(rt: HostRuntime) -> io::Result<()> {
    let lines = b"src/*.rs\n:!src/gen\n";
    let (source, top) = (BStr::new(b"specs"), BStr::new(b""));
    let built = Search::from_lines(rt.alloc(), lines, source, Defaults::default(), None, top);
    let Ok(search) = built else {
        return println!(rt; "a spec is at fault");
    };
    let Ok(mut scratch) = search.new_scratch(rt.alloc()) else {
        return println!(rt; "out of memory");
    };
    let (library, table) = (BStr::new(b"src/lib.rs"), BStr::new(b"src/gen/table.rs"));
    let selects = search.is_selected(library, Some(false), &mut scratch, &mut NoAttributes);
    println!(rt; "src/lib.rs: {}", selects == Ok(true))?;
    let selects = search.is_selected(table, Some(false), &mut scratch, &mut NoAttributes);
    println!(rt; "src/gen/table.rs: {}", selects == Ok(true))?;
    let skips = search.may_skip(BStr::new(b"docs"), &mut scratch);
    println!(rt; "a walk may skip docs: {skips}")
}
