//! When a run follows its steps: each step's part of the log and its answer are those that its kind wants, by the books. It
//! names no function of the machine.
#![tactic(auto)]
