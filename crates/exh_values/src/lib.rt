//! Values worked out by hand that no contract has, and that no script and no file can ask of the program. It has tests
//! alone.
//!
//! Each public call of the upper libraries that no other run makes, from the crate that hands it out, with ample memory. It
//! has tests alone.
#![tactic(auto)]

#[cfg(test)]
mod audits;
#[cfg(test)]
mod copies;
#[cfg(test)]
mod diaries;
#[cfg(test)]
mod file;
#[cfg(test)]
mod images;
#[cfg(test)]
mod joins;
#[cfg(test)]
mod keys;
#[cfg(test)]
mod leaves;
#[cfg(test)]
mod live;
#[cfg(test)]
mod notices;
#[cfg(test)]
mod page;
#[cfg(test)]
mod texts;
#[cfg(test)]
mod walks;
#[cfg(test)]
mod world;
