ghost use Rattle.std.specs.Prelude.{◌≡◌, ◌↔◌, ◌+◌, ◌%◌, ◌∷◌, ◌++◌, [], ℕ, List, ℤ, ◌≤ℤ◌, ◌<ℤ◌, IfOk, IsErr};
ghost use Rattle.jt_rng.specs.Generator.{IsGenerator};
ghost use Rattle.jt_rng.specs.Range.{range_value};
ghost use Rattle.jt_rng.specs.Stream.{stream_at, stream_after, draw_at};
ghost use Rattle.jt_rng.specs.Words.{started, output_of, next_state, after_fork, forked};

use crate::words::{child_words, generator_of, next_fork_word};
use rand_core::utils::{NextWord, read_u64};
use rand_xoshiro::Xoshiro256PlusPlus;
use std::marker::Model;
use thiserror::Error;

/// The bounds of a range are in the wrong order.
#[derive(Clone, Copy, Debug, PartialEq, Eq, Error)]
#[error("empty range")]
pub struct EmptyRange;

/// A task's stream of random words. Contracts see its state, a list of five words: four of
/// xoshiro256++, and the one by which it forks.
#[derive(Debug, Drop)]
pub struct TaskRng {
    generator: Xoshiro256PlusPlus,
    fork_word: u64,
}

impl Model for TaskRng {
    ghost Value = { List ℕ };

    ghost view = { λ r. r.generator ++ r.fork_word ∷ [] };

    ghost invariant = { λ r. IsGenerator r.generator };
}

impl TaskRng {
    /// The stream with these words. Four zeros, which no generator can begin with, become
    /// 1, 0, 0, 0.
    pub fn from_words(words: [u64; 5]) -> TaskRng
        ensures value { result ≡ started words }
        ensures beginning { result ≡ stream_at words [] }

        // the words with which any stream begins are taken as they are
        ensures taken { (seeds : List ℕ) (path : List (ℕ × ℕ)) → words ≡ stream_at seeds path → result ≡ words }
    {
        let [s0, s1, s2, s3, fork_word] = words;
        TaskRng {
            generator: generator_of([s0, s1, s2, s3]),
            fork_word,
        }
    }

    /// The five words now.
    pub fn words(&self) -> [u64; 5]
        ensures { result ≡ self.now }
    {
        let bytes = self.generator.state();
        [
            read_u64(&bytes, 0),
            read_u64(&bytes, 1),
            read_u64(&bytes, 2),
            read_u64(&bytes, 3),
            self.fork_word,
        ]
    }

    /// The next word, by xoshiro256++.
    pub fn draw(&mut self) -> u64
        ensures value { result ≡ output_of self.old }
        ensures moved { self.new ≡ next_state self.old }

        // a task's draws are those of its fork path
        ensures along { (seeds : List ℕ) (path : List (ℕ × ℕ)) (d f : ℕ) → self.old ≡ stream_after seeds path d f
            → (result ≡ draw_at seeds path d) × (self.new ≡ stream_after seeds path (d + 1) f) }
    {
        self.generator.next_word()
    }

    /// The stream of a child. The draws of this stream stay as they were.
    pub fn fork(&mut self) -> TaskRng
        ensures child { result ≡ forked self.old }
        ensures parent { self.new ≡ after_fork self.old }

        // the child's fork path has the parent's draws and forks until now at its end
        ensures along { (seeds : List ℕ) (path : List (ℕ × ℕ)) (d f : ℕ) → self.old ≡ stream_after seeds path d f
            → (result ≡ stream_at seeds (path ++ (d, f) ∷ [])) × (self.new ≡ stream_after seeds path d (f + 1)) }
    {
        let words = self.words();
        self.fork_word = next_fork_word(self.fork_word);
        TaskRng {
            generator: generator_of(child_words(words)),
            fork_word: self.fork_word,
        }
    }

    /// A number from `a` to `b`: `a` plus the next word modulo the number of them.
    ///
    /// `EmptyRange` comes where `b` is less than `a`, without a draw.
    pub fn in_range(&mut self, a: i64, b: i64) -> Result<i64, EmptyRange>
        ensures empty { IsErr result ↔ (b <ℤ a) }
        ensures value { IfOk result (λ v. v ≡ range_value a b (output_of self.old)) }
        ensures bounds { IfOk result (λ v. (a ≤ℤ v) × (v ≤ℤ b)) }
        ensures unmoved { b <ℤ a → self.new ≡ self.old }
        ensures moved { a ≤ℤ b → self.new ≡ next_state self.old }
        ensures along { (seeds : List ℕ) (path : List (ℕ × ℕ)) (d f : ℕ) → self.old ≡ stream_after seeds path d f
            → a ≤ℤ b → self.new ≡ stream_after seeds path (d + 1) f }
        ensures drawn { IfOk result (λ v. (seeds : List ℕ) (path : List (ℕ × ℕ)) (d f : ℕ) → self.old ≡ stream_after seeds path d f → v ≡ range_value a b (draw_at seeds path d)) }
    {
        if b < a {
            return Err(EmptyRange);
        }
        let word = self.draw();
        let offset = remainder_through(word, b.abs_diff(a));
        Ok(a.wrapping_add_unsigned(offset))
    }
}

// `word` modulo `last + 1`, which may be 2^64.
fn remainder_through(word: u64, last: u64) -> u64
    ensures { result ≡ word % (last + 1) }
{
    if last == u64::MAX {
        word
    } else {
        word % (last + 1)
    }
}
