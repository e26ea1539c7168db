//! Tests: each refusal of boards, comparisons, readers and makers with its number and place, worked values of every measure, worked rows and stamps,
//! all of them run; and worked runs, proved from the rules. Stands on `bitset`, `grid`, `text`, `history`, `causality` and `measures`.
#![tactic(auto)]

#[cfg(test)]
mod boards;
#[cfg(test)]
mod causal;
#[cfg(test)]
mod measuring;
#[cfg(test)]
mod reading;
pub mod runs;
