// How long a block and its line may be.
use cyclic3::Cyclic3;

// Questions 5 and 17: the most bytes that a block counts, in every method what methods 3 and 4 allow.
pub const COUNTED_LIMIT: usize = Cyclic3::LIMIT;

// Question 11: the most bytes of a line.
pub const LINE_LIMIT: usize = 16384;
