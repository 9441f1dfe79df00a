//! The score of a trial: how many cases were tried, and what is printed of each and at the end.

#![tactic(auto)]

ghost use Rattle.std.specs.Prelude.{◌≡◌, ◌==◌, Some, codes, is_ok};
ghost use Rattle.score.specs.Cases.{Cases, no_cases, counted, word_of, summary};

use std::error::Error;
use std::io::Print;
use std::marker::Model;
use std::{fmt, io};

/// How many cases were tried, and how many failed.
#[derive(Debug, Drop)]
pub struct Score {
    tried: u32,
    failed: u32,
}

impl Model for Score {
    ghost Value = { Cases };

    ghost view = { λ s. record { tried = s.tried; failed = s.failed } };
}

impl Default for Score {
    ghost is_default = { λ s. s ≡ no_cases };

    fn default() -> Self {
        Self::new()
    }
}

impl fmt::Display for Score {
    ghost output = { λ s. Some (summary s) };

    fn fmt<W: fmt::Write>(&self, f: &mut fmt::Formatter<W>) -> fmt::Result {
        write!(f, "{} cases, {} failed", self.tried, self.failed)
    }
}

/// Some case failed.
#[derive(Clone, Copy, Debug, PartialEq, Eq)]
pub struct CaseFailed;

impl fmt::Display for CaseFailed {
    ghost output = { λ _. Some (codes "a case failed") };

    fn fmt<W: fmt::Write>(&self, f: &mut fmt::Formatter<W>) -> fmt::Result {
        f.write_str("a case failed")
    }
}

impl Error for CaseFailed {}

impl Score {
    /// The score before the first case.
    pub fn new() -> Self
        ensures { result ≡ no_cases }
    {
        Score {
            tried: 0,
            failed: 0,
        }
    }

    /// Counts one case, and answers the word that is printed of it.
    pub fn count(&mut self, good: bool) -> &'static str
        ensures cases { self.new ≡ counted self.old good }
        ensures word { result.now ≡ word_of good }
    {
        self.tried = self.tried.saturating_add(1);
        if good {
            return "ok";
        }
        self.failed = self.failed.saturating_add(1);
        "FAILED"
    }

    /// An error where a case failed.
    pub fn verdict(&self) -> Result<(), CaseFailed>
        ensures { is_ok result ≡ (self.now.failed == 0) }
    {
        if self.failed > 0 {
            return Err(CaseFailed);
        }
        Ok(())
    }
}

/// The cases of a trial as they are tried: their score, and the runtime that prints a line of each.
#[derive(Drop)]
pub struct Report<'a, R> {
    /// What the cases run on.
    pub rt: &'a R,
    score: Score,
}

impl<'a, R: Print> Report<'a, R> {
    /// The report before the first case.
    pub fn new(rt: &'a R) -> Self
        ensures runtime { result.rt.now ≡ rt.now }
        ensures score { result.score ≡ no_cases }
    {
        Report {
            rt,
            score: Score::new(),
        }
    }

    /// Counts one case, and prints its word and what was tried.
    pub fn case(&mut self, good: bool, tried: &impl fmt::Display) -> io::Result<()>
        ensures score { self.new.score ≡ counted self.old.score good }
        ensures runtime { self.new.rt ≡ self.old.rt }
    {
        let word = self.score.count(good);
        println!(self.rt; "{word} {tried}")
    }

    /// The score of all cases.
    pub fn into_score(self) -> Score
        ensures { result ≡ self.entry.score }
    {
        let Report { score, .. } = self;
        score
    }
}
