//! Whole runs with threads, over readers and writers in memory: what no contract says of them, that
//! they come to an end, and that where there is memory nothing is wanting.
//!
//! They stand above the floor, and so apart from the other tests, which are proved earlier.
#![tactic(auto)]

#[cfg(test)]
mod failing;
#[cfg(test)]
mod lines;
#[cfg(test)]
mod one_line;
#[cfg(test)]
mod serving;
#[cfg(test)]
mod spaces;
#[cfg(test)]
mod talks;
#[cfg(test)]
mod watch;
