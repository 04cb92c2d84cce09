// What is so of every number.

ghost use Rattle.cap_words.specs.Laws.{WrapsToTheOneInRange};

/// Reduced modulo 2^31 into range, each number is one from -1073741824 to 1073741823 that differs from it by a multiple of 2^31, and no
/// other number in that range does. So `wrap_add`, `wrap_sub` and `wrap_mul` give the one fixnum that the sum, difference or product is
/// congruent to.
pub fn wraps_to_the_one_in_range()
    ensures { WrapsToTheOneInRange }
{}
