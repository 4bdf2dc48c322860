// How long lines and texts are, as specs/Sizes.antt says.
use basics::LONGEST_OBJECT;
use columns::fields;
use grammar::FAMILY_WIDTH;

// A number of the family, and a byte of an object.
pub const FIELD_WIDTH: usize = fields::WIDTH;

// A count, the number of an object, or a word in its place.
pub const COUNT_WIDTH: usize = 20;

// At most so many objects are listed.
pub const LISTED_AT_MOST: u64 = 1000;

// The first line,
const FIRST_LINE: usize = FAMILY_WIDTH + COUNT_WIDTH + 1;

// a line of the longest object,
const OBJECT_LINE: usize = COUNT_WIDTH + FIELD_WIDTH * LONGEST_OBJECT + 1;

// the line END or MORE,
const LAST_LINE: usize = COUNT_WIDTH + 1;

// and the longest text.
pub const LARGEST: usize = FIRST_LINE + OBJECT_LINE * LISTED_AT_MOST as usize + LAST_LINE;
