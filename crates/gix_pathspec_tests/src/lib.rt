//! Tests of specs and searches where memory runs out.
#![tactic(auto)]

#[cfg(test)]
mod growths_of_specs;
