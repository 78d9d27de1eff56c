// Tests of the Bloom filter. The numbers that they expect were worked out apart from this code.
#![tactic(auto)]

#[cfg(test)]
mod filters;
