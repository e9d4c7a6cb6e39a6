//! Tests of single calls, by vectors from outside and for what no row of nv_rows tells.
//! Modules: `fields`, `numbers`, `filters`, `rules`, `scripts`, `arrivals`: the texts; `memory`, `instructions`, `steps`, `executables`, `guests`: the
//! guest and its machine; `console`: the end of the console; `lanes`, `pool`, `places`: where events stand; `outside`: files and sinks in
//! memory; `assembler`: long texts; `made`: runs made from a number; `traces`; `command`: the words of a line.
//! Proved: that the tests do nothing undefined. What they assert is run.
#![tactic(auto)]

#[cfg(test)]
mod arrivals;
#[cfg(test)]
mod assembler;
#[cfg(test)]
mod command;
#[cfg(test)]
mod console;
#[cfg(test)]
mod executables;
#[cfg(test)]
mod fields;
#[cfg(test)]
mod filters;
#[cfg(test)]
mod guests;
#[cfg(test)]
mod instructions;
#[cfg(test)]
mod lanes;
#[cfg(test)]
mod made;
#[cfg(test)]
mod memory;
#[cfg(test)]
mod numbers;
#[cfg(test)]
mod outside;
#[cfg(test)]
mod places;
#[cfg(test)]
mod pool;
#[cfg(test)]
mod rules;
#[cfg(test)]
mod scripts;
#[cfg(test)]
mod steps;
#[cfg(test)]
mod traces;
