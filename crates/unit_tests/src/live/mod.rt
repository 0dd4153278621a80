//! Tests of what is live in functions that are read.

#[cfg(test)]
mod worked;
