// What the program prints for a family: the first line, a line an object, and END or MORE; or a refusal.
ghost use Rattle.std.specs.Prelude.{◌≡◌, true, cond, ◌+◌, ◌*◌, ◌≤◌, length};
ghost use Rattle.std.proofs.Math.Option.{some};
ghost use mathlib.Core.List.{map, flat_map};
ghost use Rattle.basics.specs.Limits.{longest_object};
ghost use Rattle.listings.specs.Places.{First};
ghost use Rattle.families.specs.Table.{lent};
ghost use Rattle.families.specs.Answers.{number_of};
ghost use Rattle.families.specs.Families.{allowed, object_length, listing};
ghost use Rattle.columns.specs.Columns.{column};
ghost use Rattle.columns.specs.Fields.{field_width};
ghost use Rattle.columns.specs.Inner.Writing.{Wrote};
ghost use Rattle.grammar.specs.Sizes.{family_width};
ghost use Rattle.slip.specs.Sizes.{count_width, object_line_width, last_line_width, refused_width, longest_body, largest};
ghost use Rattle.slip.specs.Text.{word_end, word_more, family_columns, object_line, last_line, body, listed_text, refused_text, said, family_text};

use crate::limits::{COUNT_WIDTH, FIELD_WIDTH, LISTED_AT_MOST};
use basics::LONGEST_OBJECT;
use columns::Text;
use families::{Family, Lists, Refusal};
use listings::Step;

// "REFUSED and the number in 4 columns".
// A number and no Refusal: 9 is the program's alone, which no call answers.
#[tactic(auto, using(columns::proofs::Writes::then), unfolding(crate::specs::Text::refused_text))]
pub fn put_refused(text: &mut Text, q: u64)
    requires { text.old.len + refused_width ≤ length text.old.buffer.now }
    ensures { Wrote text.old text.new (refused_text q) }
{
    text.put_word(b"REFUSED");
    text.put_column(FIELD_WIDTH, q);
    text.put_byte(b'\n');
}

// The line MORE where objects are left, and END where none is.
// A truth value, as the definition takes it.
#[tactic(auto, using(columns::proofs::Writes::then), unfolding(crate::specs::Text::last_line))]
fn put_last(text: &mut Text, more: bool)
    requires { text.old.len + last_line_width ≤ length text.old.buffer.now }
    ensures { Wrote text.old text.new (last_line (cond more word_more word_end)) }
{
    if more {
        text.put_justified(COUNT_WIDTH, b"MORE");
        text.put_byte(b'\n');
    } else {
        text.put_justified(COUNT_WIDTH, b"END");
        text.put_byte(b'\n');
    }
}

// Kind, n and k in 4 columns each.
#[tactic(auto, using(columns::proofs::Writes::then), unfolding(crate::specs::Text::family_columns))]
fn put_family(text: &mut Text, f: Family)
    requires { text.old.len + family_width ≤ length text.old.buffer.now }
    ensures len { text.new.len ≡ text.old.len + family_width }
    ensures wrote { Wrote text.old text.new (family_columns f) }
{
    text.put_column(FIELD_WIDTH, f.kind);
    text.put_column(FIELD_WIDTH, f.n);
    text.put_column(FIELD_WIDTH, f.k);
}

// The bytes of an object, 4 columns each.
#[tactic(auto, using(columns::proofs::Writes::then, columns::proofs::Writes::wrote_nothing, crate::proofs::Lines::bytes_more, std::proofs::lemmas::Grind::common_steps))]
fn put_bytes(text: &mut Text, object: &[u8])
    requires { text.old.len + field_width * length object.now ≤ length text.old.buffer.now }
    ensures len { text.new.len ≡ text.old.len + field_width * length object.now }
    ensures wrote { Wrote text.old text.new (flat_map (column field_width) object.now) }
{
    for b in object {
        text.put_column(FIELD_WIDTH, u64::from(*b));
    }
}

// A line of an object: its number in 20 columns, and its bytes.
#[tactic(auto, using(columns::proofs::Writes::then), unfolding(crate::specs::Text::object_line))]
fn put_object(text: &mut Text, number: u64, object: &[u8])
    requires { text.old.len + object_line_width (length object.now) ≤ length text.old.buffer.now }
    ensures len { text.new.len ≡ text.old.len + object_line_width (length object.now) }
    ensures wrote { Wrote text.old text.new (object_line number object.now) }
{
    text.put_column(COUNT_WIDTH, number);
    put_bytes(text, object);
    text.put_byte(b'\n');
}

// The first objects, from the earliest on, which stands in the buffer and gets the number start, and END or MORE.
fn put_objects<'a>(text: &mut Text, start: u8, f: Family, lists: Lists<'a>, object: &mut [u8])
    requires longest_body_in_bounds { text.old.len + longest_body ≤ length text.old.buffer.now }
    requires object_len_bound { length object.old ≤ longest_object }
    requires first { First (listing f (lent (map (λ x. x.now) lists))) object.old }
    ensures { Wrote text.old text.new (body start (listing f (lent (map (λ x. x.now) lists.entry)))) }
{
    for rank in 0..LISTED_AT_MOST {
        put_object(text, u64::from(start) + rank, object);
        match families::next(f, lists, object) {
            Ok(Step::Moved) => {}
            Ok(Step::End) => return put_last(text, false),
            Err(_) => return put_last(text, false),
        }
    }
    put_last(text, true);
}

// The objects, in a buffer of an object's length, if there are any.
fn put_listing<'a>(text: &mut Text, start: u8, f: Family, lists: Lists<'a>, object: &mut [u8])
    requires longest_body_in_bounds { text.old.len + longest_body ≤ length text.old.buffer.now }
    requires object_len_bound { length object.old ≤ longest_object }
    requires object_len { length object.old ≡ object_length f (lent (map (λ x. x.now) lists)) }
    requires lists_value { allowed f (lent (map (λ x. x.now) lists)) ≡ true }
    ensures { Wrote text.old text.new (body start (listing f (lent (map (λ x. x.now) lists.entry)))) }
{
    match families::first(f, lists, object) {
        Ok(()) => put_objects(text, start, f, lists, object),
        Err(_) => put_last(text, false),
    }
}

// Everything behind the first line.
fn put_body<'a>(text: &mut Text, start: u8, f: Family, lists: Lists<'a>)
    requires longest_body_in_bounds { text.old.len + longest_body ≤ length text.old.buffer.now }
    requires lists_value { allowed f (lent (map (λ x. x.now) lists)) ≡ true }
    ensures { Wrote text.old text.new (body start (listing f (lent (map (λ x. x.now) lists.entry)))) }
{
    let Ok(size) = families::object_length(f, lists) else {
        return;
    };
    let mut space = [0u8; LONGEST_OBJECT];
    let len = size as usize;
    put_listing(text, start, f, lists, &mut space[..len]);
}

// The text of a family whose count is known.
fn put_counted<'a>(text: &mut Text, n: u64, start: u8, f: Family, lists: Lists<'a>)
    requires largest_in_bounds { text.old.len + largest ≤ length text.old.buffer.now }
    requires lists_value { allowed f (lent (map (λ x. x.now) lists)) ≡ true }
    ensures { Wrote text.old text.new (listed_text start (column count_width n) f (lent (map (λ x. x.now) lists.entry))) }
{
    put_family(text, f);
    text.put_column(COUNT_WIDTH, n);
    text.put_byte(b'\n');
    put_body(text, start, f, lists);
}

// MANY for a count that doesn't fit, and any other refusal by its number.
// By the refusal's number, since what is required and ensured goes by it.
fn put_uncounted<'a>(text: &mut Text, refusal: Refusal, start: u8, f: Family, lists: Lists<'a>)
    requires largest_in_bounds { text.old.len + largest ≤ length text.old.buffer.now }
    requires lists_value { number_of refusal ≡ 5 → allowed f (lent (map (λ x. x.now) lists)) ≡ true }
    ensures { Wrote text.old text.new (said start (some (number_of refusal)) f (lent (map (λ x. x.now) lists.entry))) }
{
    let number = u8::from(refusal);
    if number != 5 {
        put_refused(text, u64::from(number));
        return;
    }
    put_family(text, f);
    text.put_justified(COUNT_WIDTH, b"MANY");
    text.put_byte(b'\n');
    put_body(text, start, f, lists);
}

// The whole text of a well-formed slip.
pub fn put_text<'a>(text: &mut Text, start: u8, f: Family, lists: Lists<'a>)
    requires { text.old.len + largest ≤ length text.old.buffer.now }
    ensures { Wrote text.old text.new (family_text start f (lent (map (λ x. x.now) lists.entry))) }
{
    match families::count(f, lists) {
        Ok(n) => put_counted(text, n, start, f, lists),
        Err(refusal) => put_uncounted(text, refusal, start, f, lists),
    }
}
