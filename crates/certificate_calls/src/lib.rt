//! Tests of certificates: their text, the checker, what is done as their bytes come.
#![tactic(auto)]

#[cfg(test)]
mod cert_check_calls;
#[cfg(test)]
mod cert_convert_calls;
#[cfg(test)]
mod cert_stream_calls;
#[cfg(test)]
mod cert_text_calls;
#[cfg(test)]
mod graph_check_calls;
