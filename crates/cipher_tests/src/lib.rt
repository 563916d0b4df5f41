//! Tests of the cipher, of sealed payloads, and of the phases of encryption.
#![tactic(auto)]

#[cfg(test)]
mod block_tests;
#[cfg(test)]
mod ciphers;
#[cfg(test)]
mod ends;
#[cfg(test)]
mod phase_tests;
#[cfg(test)]
mod scripts;
#[cfg(test)]
mod sealing_tests;
