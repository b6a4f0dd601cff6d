//! What tests alone show of the solver: that its calls succeed with ample memory, and give what was worked by hand.
//!
//! The tests of all crates of the solver are here, since a crate with tests of its own is proved once more with them. One
//! module for each subject, by the layers from the lowest, `made`, which makes problems for them, and `rows`, which reads rows
//! of text: `domains`, `functions`, `problems`, `shared_word`, `search` by one, `closing` of nodes, `whole_searches` by several
//! workers and their `teams`, `shapes` and `formulas` of the builders and `builders` that are asked for too many pieces,
//! `problem_files` and `decision_files` of the texts, `decisions` with their certificates, and `changed_decisions`, most of
//! which aren't accepted.
#![tactic(auto)]

#[cfg(test)]
mod builders;
#[cfg(test)]
mod changed_decisions;
#[cfg(test)]
mod closing;
#[cfg(test)]
mod decision_files;
#[cfg(test)]
mod decisions;
#[cfg(test)]
mod domains;
#[cfg(test)]
mod formulas;
#[cfg(test)]
mod functions;
#[cfg(test)]
mod made;
#[cfg(test)]
mod problem_files;
#[cfg(test)]
mod problems;
#[cfg(test)]
mod rows;
#[cfg(test)]
mod search;
#[cfg(test)]
mod shapes;
#[cfg(test)]
mod shared_word;
#[cfg(test)]
mod teams;
#[cfg(test)]
mod whole_searches;
