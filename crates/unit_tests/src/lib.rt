//! Tests of names, texts, trees, values, lists, words and constants, of keys of files and paths of modules, of hosts over
//! records, of orders and of graphs: what no justfile of `tests/scripted` shows.
#![tactic(auto)]

#[cfg(test)]
mod attributes;
#[cfg(test)]
mod constants;
#[cfg(test)]
mod excerpts;
#[cfg(test)]
mod faults;
#[cfg(test)]
mod graphs;
#[cfg(test)]
mod keys;
#[cfg(test)]
mod lists;
#[cfg(test)]
mod orders;
#[cfg(test)]
mod records;
#[cfg(test)]
mod texts;
#[cfg(test)]
mod tokens;
#[cfg(test)]
mod trees;
#[cfg(test)]
mod values;
#[cfg(test)]
mod variables;
#[cfg(test)]
mod words;
