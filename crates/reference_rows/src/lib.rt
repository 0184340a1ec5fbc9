//! Tests of records and references. They make records in a table, and compare what the steps do to
//! its words with a count of the references that is kept by hand.
#![tactic(auto)]

#[cfg(test)]
mod filling;
#[cfg(test)]
mod hand;
#[cfg(test)]
mod making;
#[cfg(test)]
mod named;
#[cfg(test)]
mod random;
#[cfg(test)]
mod records;
#[cfg(test)]
mod rows;
#[cfg(test)]
mod tables;
