//! Texts of help, broken for 80 columns.

pub(crate) const PROGRAM: &str = "Examples:
  git ls-files | pathspec filter '*.rs' ':!target'
  pathspec list -- '*.rs' ':!target'
  pathspec explain '*.rs' ':!target' --path target/x.rs
  pathspec show ':(icase)readme*'
";

pub(crate) const FILTER: &str = "Examples:
  git ls-files | pathspec filter 'src/*.rs' ':!src/gen'
  find . -type f -print0 | pathspec filter -z ':!web' | xargs -0 ls
  git diff --no-renames --name-only -z HEAD~1 |
    pathspec filter -zq docs && make docs
";

pub(crate) const LIST: &str = "Examples:
  pathspec list -- '*.rs' ':!target'
  pathspec list -z -- ':(glob)src/**/*.c' | xargs -0 wc -l
  pathspec list -q -- docs && make docs
";

pub(crate) const EXPLAIN: &str = "Examples:
  pathspec explain 'src/*.rs' ':!src/gen' --path src/gen/t.rs
  git ls-files | pathspec explain --all readme.md
";

pub(crate) const SHOW: &str = "Examples:
  pathspec show ':(icase)readme*' ':!docs/'
  pathspec show --prefix=src ../lib
";
