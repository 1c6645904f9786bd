//! Words that a random number generator generates, by their position in its stream.

ghost use Rattle.std.specs.Prelude.{◌≡◌};
ghost use Rattle.stun_types_base.specs.GeneratorWords.{stream_after, word_at, words_of};

use rand_core::Rng;

/// Generates the next `COUNT` words of a generator.
pub fn draw_words<const COUNT: usize, R: Rng>(rng: &mut R) -> [u32; COUNT]
    ensures words { result ≡ words_of COUNT (R.stream rng.old) }
    ensures stream { R.stream rng.new ≡ stream_after COUNT (R.stream rng.old) }
{
    let mut words = [0; COUNT];
    for word in words.iter_mut() {
        *word = draw_word(rng);
    }
    words
}

/// Generates the next word of a generator.
#[tactic(auto, unfolding(crate::specs::GeneratorWords::stream_after))]
fn draw_word<R: Rng>(rng: &mut R) -> u32
    ensures word { result ≡ word_at (R.stream rng.old) 0 }
    ensures stream { R.stream rng.new ≡ stream_after 1 (R.stream rng.old) }
{
    rng.next_u32()
}
