// Tests of the slot table. The numbers that they expect were worked out apart from this code.
#![tactic(auto)]

#[cfg(test)]
mod tables;
