//! Worked examples for the definitions of `lc_model`: tokens and rules of texts, tables from bytes, and the output
//! of whole runs. Each stands in `proofs/` as an equation that holds by computing. The crate has no code; it stands
//! alone so that no other crate waits for it.
#![tactic(auto)]
