//! Lists and orders: general definitions (specs/) and lemmas (proofs/), which are about nothing else.
#![tactic(auto)]
