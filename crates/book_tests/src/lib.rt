// Tests of the book, in a crate of their own so that the book is proved once.
#![tactic(auto)]

#[cfg(test)]
mod entering;
#[cfg(test)]
mod examples;
#[cfg(test)]
mod loading;
#[cfg(test)]
mod matching;
#[cfg(test)]
mod reading;
