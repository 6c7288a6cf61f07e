//! The draws of the generator.

ghost use Rattle.std.specs.Prelude.{◌≡◌, ◌≤◌, ◌%◌};
ghost use Rattle.rz_generate.specs.Draws.{draw, drawn_from, seeded};

use rand_core::SeedableRng;
use rand_core::utils::NextWord;
use rand_pcg::Lcg64Xsh32;

/// The generator of a seed.
#[tactic(auto, unfolding(crate::specs::Draws::seeded))]
pub fn generator_of(seed: u64) -> Lcg64Xsh32
    ensures { result ≡ seeded seed }
{
    Lcg64Xsh32::seed_from_u64(seed)
}

/// The next draw.
#[tactic(auto, unfolding(crate::specs::Draws::draw, crate::specs::Draws::drawn_from))]
pub fn next_draw(generator: &mut Lcg64Xsh32) -> u32
    ensures value { result ≡ draw generator.old }
    ensures after { generator.new ≡ drawn_from generator.old }
{
    generator.next_word()
}

/// The next draw, as the seed of a block.
pub fn next_seed(generator: &mut Lcg64Xsh32) -> u8
    ensures value { result ≡ draw generator.old % 256 }
    ensures small { result ≤ 255 }
    ensures after { generator.new ≡ drawn_from generator.old }
{
    (next_draw(generator) % 256) as u8
}
