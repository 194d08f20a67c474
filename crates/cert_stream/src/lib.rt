//! The lines of a certificate, handed on one by one as its bytes come in pieces that may be cut anywhere.
//!
//! Nothing of the bytes is kept but the line that has begun, as far as it is read. It stands on cert_text, of either version,
//! and knows nothing of what takes the lines.
#![tactic(auto)]

mod feeding;

pub use feeding::{TakeLine, close_lines, feed_lines};
