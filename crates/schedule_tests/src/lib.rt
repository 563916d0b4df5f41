//! Tests of schedules and their words: `radio_replay` and `line_words`, over their public contracts
//! alone.
#![tactic(auto)]

#[cfg(test)]
mod calls;
#[cfg(test)]
mod loads;
#[cfg(test)]
mod schedules;
#[cfg(test)]
mod scripts;
#[cfg(test)]
mod texts;
#[cfg(test)]
mod words;
#[cfg(test)]
mod words_tests;
