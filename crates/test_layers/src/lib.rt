//! Unit tests of library calls, for what the table-driven tests don't cover.
//!
//! They test theorems that no code calls, substitution in formulas, messages of faults, parts of
//! the testing machine, budgets of turns, files and output, what `demo` takes, a size that no file
//! has, tables used by a plain program, conditions under a limit, what is accepted, proofs that the
//! kit makes, and hosts.
//!
//! They are in a crate of their own, since `rt ci` proves all of a crate once more with its tests,
//! and in one crate, since each crate of tests is built with all crates that it depends on. Rows
//! test what a text, a code word, a term or a policy results in (test_tables, test_lf,
//! test_commands).
#![tactic(auto)]

#[cfg(test)]
mod accepted;
#[cfg(test)]
mod answers;
#[cfg(test)]
mod conditions;
#[cfg(test)]
mod connectives;
#[cfg(test)]
mod demo_input_tests;
#[cfg(test)]
mod entries;
#[cfg(test)]
mod faults;
#[cfg(test)]
mod file_port_tests;
#[cfg(test)]
mod formula_tree_tests;
#[cfg(test)]
mod law_tests;
#[cfg(test)]
mod lemma_tests;
#[cfg(test)]
mod library_tests;
#[cfg(test)]
mod loop_tests;
#[cfg(test)]
mod nodes;
#[cfg(test)]
mod pcc_asm_tests;
#[cfg(test)]
mod pcc_lines_tests;
#[cfg(test)]
mod reference_machine_tests;
#[cfg(test)]
mod relations;
#[cfg(test)]
mod rules;
#[cfg(test)]
mod terms;
#[cfg(test)]
mod turn_laws_tests;
