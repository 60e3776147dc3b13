//! What only a call in code can show, once each: that calls succeed with ample memory, and that laws are there to be called.
//!
//! Whole commands are rows of `camkes_rows`; nothing that a row can say stands here.
#![tactic(auto)]

#[cfg(test)]
mod connectors;
#[cfg(test)]
mod edges;
#[cfg(test)]
mod laws;
#[cfg(test)]
mod memory;
#[cfg(test)]
mod names;
#[cfg(test)]
mod numbers;
#[cfg(test)]
mod paths;
