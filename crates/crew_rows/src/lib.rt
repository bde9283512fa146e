//! Rows of crews worked by hand, over the public calls of the crates that start children and follow what they answer.
//!
//! - `made`: the bytes and the problem that the rows speak of; `calls`: calls of a crew of which it is known how they
//!   end
//! - `pair`: a search by a crew that answers only once two of its children were out together
//! - `book`: short stories of the book of attempts
//! - `inline`, `scripted`: what the two crews in memory answer, and the logs that they keep
#![tactic(auto)]

#[cfg(test)]
mod book;
#[cfg(test)]
mod calls;
#[cfg(test)]
mod inline;
#[cfg(test)]
mod made;
#[cfg(test)]
mod pair;
#[cfg(test)]
mod scripted;
