//! Tests of the top call and of the files and sinks in memory.

#[cfg(test)]
mod failing;
#[cfg(test)]
mod rows;
