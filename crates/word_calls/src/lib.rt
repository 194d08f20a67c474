//! Tests of files and streams, of the words of the command line, and of texts on the error stream.
#![tactic(auto)]

#[cfg(test)]
mod command_told;
#[cfg(test)]
mod sag_edge_calls;
#[cfg(test)]
mod sag_texts_calls;
#[cfg(test)]
mod sag_words_calls;
