// How long a slip and its lines are, as specs/Sizes.antt says.
use columns::fields;

// A field.
pub const FIELD_WIDTH: usize = fields::WIDTH;

// Kind, n and k.
pub const FAMILY_WIDTH: usize = 3 * FIELD_WIDTH;

// These and the number that the first object gets.
pub const HEAD_WIDTH: usize = FAMILY_WIDTH + FIELD_WIDTH;

// The counts of the longest second line: n of kind 2 is a field itself.
pub const MOST_COUNTS: usize = fields::LARGEST;

// The longest slip.
pub const LONGEST_SLIP: usize = HEAD_WIDTH + 1 + FIELD_WIDTH * MOST_COUNTS + 1;
