//! A file of attributes, read line by line.
ghost use Rattle.std.specs.Prelude.{◌≡◌, ◌++◌, [], map, OnOk, IfOk};
ghost use Rattle.pathspec_attributes.specs.Files.{empty_file, file_of, left_out, left_out_from, lines_from, macros_in, rules_in};
ghost use Rattle.pathspec_attributes.specs.Views.{file_view, left_out_view, line_in, macro_view, one_reading, rule_in};

use crate::lines::{before_nul, next_line, without_order_mark};
use crate::reading::{Macro, Reading, read_line};
use crate::reasons::LeftOut;
use crate::rule::Rule;
use std::alloc::{AllocError, Global};

/// A rule, and the number of its line, from 1.
#[derive(Debug, Drop)]
pub(crate) struct RuleLine {
    pub line: usize,
    pub rule: Rule,
}

/// The rules and the macros of a file, each in the order of their lines.
#[derive(Debug, Drop)]
pub(crate) struct File {
    pub rules: Vec<RuleLine>,
    pub macros: Vec<Macro>,
}

/// A file, and the lines of it that are left out.
#[derive(Debug, Drop)]
pub(crate) struct ReadFile {
    pub file: File,
    pub left_out: Vec<LeftOut>,
}

impl File {
    /// Makes a file that says nothing. It takes no memory.
    pub fn new(alloc: Global) -> File
        ensures { file_view result ≡ empty_file }
    {
        File {
            rules: Vec::new(alloc),
            macros: Vec::new(alloc),
        }
    }
}

/// Reads the text of a file, which may define macros or not.
///
/// The call looks at each byte a fixed number of times.
///
/// # Errors
/// Memory runs out.
pub(crate) fn read_file(
    alloc: Global,
    may_define: bool,
    text: &[u8],
) -> Result<ReadFile, AllocError>
    ensures file { IfOk result (λ read. file_view read.file ≡ file_of may_define text.now) }
    ensures left_out { IfOk result (λ read.
        map left_out_view read.left_out.items ≡ left_out may_define text.now) }
{
    let mut read = ReadFile {
        file: File::new(alloc),
        left_out: Vec::new(alloc),
    };
    let mut rest = without_order_mark(text);
    let mut number = 0;
    while let Some((line, behind)) = next_line(rest) {
        number += 1;
        let reading = read_line(alloc, may_define, before_nul(line))?;
        keep(&mut read, number, reading)?;
        rest = behind;
    }
    Ok(read)
}

/// Puts what a line says after what the lines before it said.
///
/// # Errors
/// Memory runs out.
fn keep(read: &mut ReadFile, number: usize, reading: Reading) -> Result<(), AllocError>
    ensures rules { OnOk result (map rule_in read.new.file.rules.items
        ≡ map rule_in read.old.file.rules.items ++ rules_in (one_reading reading)) }
    ensures lines { OnOk result (map line_in read.new.file.rules.items
        ≡ map line_in read.old.file.rules.items ++ lines_from number (one_reading reading)) }
    ensures macros { OnOk result (map macro_view read.new.file.macros.items
        ≡ map macro_view read.old.file.macros.items ++ macros_in (one_reading reading)) }
    ensures left_out { OnOk result (map left_out_view read.new.left_out.items
        ≡ map left_out_view read.old.left_out.items ++ left_out_from number (one_reading reading)) }
{
    match reading {
        Reading::Nothing => {}
        Reading::Ruling(rule) => read.file.rules.push(RuleLine { line: number, rule })?,
        Reading::Defining(own) => read.file.macros.push(own)?,
        Reading::Refused(reason) => read.left_out.push(LeftOut {
            line: number,
            reason,
        })?,
    }
    Ok(())
}
