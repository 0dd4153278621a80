//! Tests of the verifiers over functions that no text spells.

#[cfg(test)]
mod unspelled;
