// Tests of what programs print, by example.
#![tactic(auto)]

#[cfg(test)]
mod answers;
#[cfg(test)]
mod reports;
