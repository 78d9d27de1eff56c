// Tests of the exact table and of sets that are one of two. The numbers that they expect were worked out apart from this code.
#![tactic(auto)]

#[cfg(test)]
mod sets;
