// Bytes and bits as people type and read them: hexadecimal words, and text of 0 and 1.
#![tactic(auto)]

pub mod bits;
pub mod hex;
