//! Tests of target_base, mir_func and slot_index: each public call once, over the built-in target.

#[cfg(test)]
mod edits;
#[cfg(test)]
mod look_ups;
