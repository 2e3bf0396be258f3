//! Files over disks in memory, with blocks worked out by hand: commits of blocks, of a map and of calls, and a changer of one's
//! own. No script can ask the program for it, and no contract says it. It has tests alone.
#![tactic(auto)]

#[cfg(test)]
mod commits;
#[cfg(test)]
mod map_commits;
#[cfg(test)]
mod three_pairs;
