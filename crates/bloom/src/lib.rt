// The Bloom filter: a live set over bytes, which covers every key and may say yes to a key that was not marked.
#![tactic(auto)]

pub mod bits;
pub mod filter;
pub mod filter_set;

pub use filter::BloomFilter;
