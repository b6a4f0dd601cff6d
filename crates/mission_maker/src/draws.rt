// Drawing numbers, each by its own place in the generator.
ghost use Rattle.std.specs.Prelude.{◌≡◌, ◌<◌};
ghost use Rattle.mission_maker.specs.Draws.{draw};

use rand_core::utils::NextWord;
use rand_pcg::Pcg32;

/// The draw of a number below `n` behind `draws` others. It is looked up by a jump of the generator, so no line of
/// a script rests on how another one was made.
#[tactic(auto, unfolding(crate::specs::Draws::draw, crate::specs::Draws::generator_behind))]
pub fn draw(number: u64, draws: u64, n: u32) -> u32
    requires { 0 < n }
    ensures drawn { result ≡ draw number draws n }
    ensures below { result < n }
{
    let mut generator = Pcg32::new(number, 0);
    generator.advance(draws);
    generator.next_word() % n
}
