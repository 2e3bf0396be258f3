//! What words ask for of a list of kinds of run.

use crate::run::USUAL_ROUNDS;
use crate::{Named, Run};
use std::alloc::Global;

/// What words ask for: the seed of the dice, how long the random runs are, which kinds of
/// run are made, and whether the slow code gives one wrong answer in each.
#[derive(Clone, Copy)]
pub struct Job<'a, K> {
    pub seed: u64,
    pub rounds: u32,
    pub kinds: &'a [K],
    pub is_wrong: bool,
}

impl<'a, K: Named> Job<'a, K> {
    /// The start of a run.
    pub fn new_run(&self, alloc: Global) -> Run {
        Run::new(alloc, self.seed, self.rounds, self.is_wrong)
    }

    // All kinds of run, at their usual length.
    fn usual(kinds: &'a [K]) -> Job<'a, K> {
        Job {
            seed: 1979,
            rounds: USUAL_ROUNDS,
            kinds,
            is_wrong: false,
        }
    }

    /// What words ask for of these kinds of run, the usual runs of all where there is none: `None` where they name no
    /// run. There is one round at least.
    pub fn of_words(words: &[String], kinds: &'a [K]) -> Option<Job<'a, K>> {
        if words.is_empty() {
            return Some(Job::usual(kinds));
        }
        let seed = words.first()?.parse::<u64>().ok()?;
        let rounds = words.get(1)?.parse::<u32>().ok()?;
        let kinds = match words.get(2) {
            None => kinds,
            Some(word) if word.as_str() == "all" => kinds,
            Some(word) => named(kinds, word)?,
        };
        let is_wrong = match words.get(3) {
            None => false,
            Some(word) if word.as_str() == "wrong" => true,
            Some(_) => return None,
        };
        if rounds == 0 || words.len() > 4 {
            return None;
        }
        Some(Job {
            seed,
            rounds,
            kinds,
            is_wrong,
        })
    }
}

/// The one kind of a name, if there is one.
pub fn named<'a, K: Named>(kinds: &'a [K], name: &str) -> Option<&'a [K]> {
    let at = kinds.iter().position(|kind| kind.name() == name)?;
    kinds.get(at..)?.get(..1)
}
