//! Tests of the libraries, of what no contract says: each public function with memory enough, vectors
//! from outside, and faults in mid-stream. What scripts do is stored in `tests/` at the top of the
//! repository, and run through the program.
#![tactic(auto)]

#[cfg(test)]
mod base;
#[cfg(test)]
mod channels;
#[cfg(test)]
mod commands;
#[cfg(test)]
mod conditions;
#[cfg(test)]
mod draws;
#[cfg(test)]
mod evaluating;
#[cfg(test)]
mod forms;
#[cfg(test)]
mod generating;
#[cfg(test)]
mod numbers;
#[cfg(test)]
mod objects;
#[cfg(test)]
mod picks;
#[cfg(test)]
mod sleeping;
#[cfg(test)]
mod streams;
#[cfg(test)]
mod tokens;
#[cfg(test)]
mod traces;
#[cfg(test)]
mod trees;
#[cfg(test)]
mod words;
