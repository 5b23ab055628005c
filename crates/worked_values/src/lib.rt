//! Tests of values, texts, names, schemas and rows: their order against other languages' orders, and
//! their limits at the limits.
#![tactic(auto)]

#[cfg(test)]
mod tests;
