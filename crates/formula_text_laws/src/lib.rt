//! Laws over how formulas are written in DIMACS form: the plain text of a formula, its header and a
//! line for each clause, is read as the formula. So the reader refuses no formula within its
//! limits, and reads each as the one that was written.
#![tactic(auto)]

pub mod laws;
