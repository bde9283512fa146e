//! Rows of what the search finds in small problems, most of them worked by hand.
#![tactic(auto)]

#[cfg(test)]
mod searches;
