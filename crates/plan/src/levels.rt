// The checks of the levels, one loop each.
ghost use Rattle.std.specs.Prelude.{◌≡◌, [], ltb};
ghost use Rattle.exact.specs.Lists.{outside, product};
ghost use Rattle.rules.specs.Plan.{plan, lowest_level, highest_level, highest_product};
ghost use Rattle.rules.specs.Refusals.{first_bad_level};
ghost use Rattle.plan.specs.Given.{FromOne};

use rules::sizes::{HIGHEST_LEVEL, HIGHEST_PRODUCT, LOWEST_LEVEL};

fn is_outside(level: u8) -> bool
    ensures { result ≡ outside lowest_level highest_level level }
{
    level < LOWEST_LEVEL || HIGHEST_LEVEL < level
}

// The first column whose level is out of range, and the number of columns where there is none.
pub(crate) fn first_bad_level(levels: &[u8]) -> usize
    ensures { result ≡ first_bad_level (plan levels.now []) }
{
    for (i, level) in levels.iter().enumerate() {
        if is_outside(*level) {
            return i;
        }
    }
    levels.len()
}

// Whether the product of the levels is above its limit. No level is 0, so that a product above it stays there, and 24 levels
// never pass 64 bits.
pub(crate) fn product_above(levels: &[u8]) -> bool
    requires { FromOne levels.now }
    ensures { result ≡ ltb highest_product (product levels.now) }
{
    let mut product: u64 = 1;
    for level in levels {
        product *= u64::from(*level);
        if HIGHEST_PRODUCT < product {
            return true;
        }
    }
    false
}
