//! Tests of commands where memory runs out or devices fail. How a command is run stands open for other tests.
#![tactic(auto)]

#[cfg(test)]
mod devices;
#[cfg(test)]
mod growths_of_commands;
pub mod running;
