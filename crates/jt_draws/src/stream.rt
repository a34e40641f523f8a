//! The stream of a task, by its ancestors.

ghost use Rattle.std.specs.Prelude.{◌≡◌, ◌++◌, ◌∷◌, [], ℕ, List};
ghost use Rattle.jt_draws.specs.Draws.{fork_path};
ghost use Rattle.jt_rng.specs.Stream.{after_draws, after_forks, stream_at};

use jt_base::Seeds;
use jt_rng::TaskRng;
use jt_words::Ancestor;

/// Draws so many words.
#[tactic(auto, using(crate::proofs::Streams::no_draws, crate::proofs::Streams::one_draw_more))]
fn skip_draws(stream: &mut TaskRng, count: u32)
    ensures { stream.new ≡ after_draws stream.old count }
{
    for _draw in 0..count {
        stream.draw();
    }
}

/// Forks so many children.
#[tactic(auto, using(crate::proofs::Streams::no_forks, crate::proofs::Streams::one_fork_more))]
fn skip_forks(stream: &mut TaskRng, count: u32)
    ensures { stream.new ≡ after_forks stream.old count }
{
    for _fork in 0..count {
        stream.fork();
    }
}

/// The stream of the child that an ancestor with this stream makes behind its draws and forks.
fn child_of(stream: &mut TaskRng, ancestor: Ancestor) -> TaskRng
    ensures { (seeds : List ℕ) (path : List (ℕ × ℕ)) → stream.old ≡ stream_at seeds path
        → result ≡ stream_at seeds (path ++ (ancestor.draws, ancestor.forks) ∷ []) }
{
    skip_draws(stream, ancestor.draws);
    skip_forks(stream, ancestor.forks);
    stream.fork()
}

/// The stream of the task with these ancestors, before its first draw.
pub(crate) fn stream_of(seeds: Seeds, ancestors: &[Ancestor]) -> TaskRng
    ensures { result ≡ stream_at seeds.words (fork_path ancestors.now) }
{
    let mut stream = TaskRng::from_words(seeds.words);
    for ancestor in ancestors {
        stream = child_of(&mut stream, *ancestor);
    }
    stream
}
