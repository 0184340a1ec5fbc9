//! Tests of the tool: what words choose; and over shelves and sinks in memory what is fetched, and
//! what comes of a file or a sink that fails.
#![tactic(auto)]

#[cfg(test)]
mod samples;
#[cfg(test)]
mod stop_tests;
#[cfg(test)]
mod tool_tests;
#[cfg(test)]
mod words_samples;
#[cfg(test)]
mod words_tests;
