// Whether a pattern takes a name.
ghost use Rattle.std.specs.Prelude.{◌≡◌, ◌==◌, ◌||◌};
ghost use Rattle.std.specs.List.{list_all};
ghost use Rattle.moos_post.specs.Patterns.{matches};

use moos_post::Pattern;

// The latest star of a pattern: what of the pattern follows it, and the part of the name where that was tried
// last. The star takes all that is before this part.
#[derive(Clone, Copy)]
struct Star<'a> {
    after: &'a [u8],
    from: &'a [u8],
}

/// Whether the pattern matches all of the name: `*` takes any run of bytes, none included, `?` takes any one byte, and
/// every other byte takes itself.
///
/// Only the latest star is tried again: whatever an earlier one could take more, the latest one can take too.
pub fn matches(p: &Pattern, s: &[u8]) -> bool
    ensures { result ≡ matches p.now s.now }
{
    let mut pattern = p.bytes();
    let mut name = s;
    let mut star: Option<Star> = None;
    while let [byte, rest @ ..] = name {
        match pattern {
            [sign, after @ ..] if *sign == b'*' => {
                star = Some(Star { after, from: name });
                pattern = after;
            }
            [sign, after @ ..] if takes(*sign, *byte) => {
                pattern = after;
                name = rest;
            }
            _ => match star {
                Some(
                    Star {
                        after,
                        from: [_, next @ ..],
                    },
                ) => {
                    star = Some(Star { after, from: next });
                    pattern = after;
                    name = next;
                }
                _ => return false,
            },
        }
    }
    are_stars(pattern)
}

// The sign, which is no star, takes this byte.
fn takes(sign: u8, byte: u8) -> bool
    ensures { result ≡ (sign == 63 || sign == byte) }
{
    sign == b'?' || sign == byte
}

// Each sign that is left can take nothing.
fn are_stars(pattern: &[u8]) -> bool
    ensures { result ≡ list_all (λ sign. sign == 42) pattern.now }
{
    pattern.iter().all(|&sign| sign == b'*')
}
