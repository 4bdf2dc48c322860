// The calls for programs in C and Rust: a family by value, the lists behind one reference, byte slices; a code out, values through a lent
// number. `arrangements_c` exports them, and include/arrangements.h declares them.
#![tactic(auto)]

ghost use Rattle.std.specs.Prelude.{◌≡◌, [], map, length};
ghost use Rattle.listings.specs.Calls.{COUNT, FIRST, LAST, NEXT, PREVIOUS, RANK, UNRANK};
ghost use Rattle.families.specs.Table.{lent};
ghost use Rattle.families.specs.Calls.{respond, measured};
ghost use Rattle.families.specs.Codes.{Coded};
ghost use Rattle.walk.specs.declared.Way.TheVariants.{Forth, Back};
ghost use Rattle.walk.specs.Walks.{kept, step_kept};
ghost use Rattle.jump.specs.Jumps.{jump as jump_of};
ghost use Rattle.arrangements.specs.Told.{plain as plainly, told, Valued, valued, number_told, CodedStep, told_step, ToldCheck};

use checker::CheckError;
use families::{Family, Lists, Refusal, codes};
use walk::Way;

// The code that a caller is told.
// By numbers: these are the codes of the C header.
#[tactic(auto, unfolding(crate::specs::Told::plain))]
fn plain(code: u8) -> u32
    ensures { result ≡ plainly code }
{
    match code {
        20 | 21 => 0,
        _ => u32::from(code),
    }
}

// A number for the caller, and 0; or the code of a refusal, and no number.
fn tell(answer: Result<u64, Refusal>, value: &mut u64) -> u32
    ensures { ◌≡◌ {A = Valued} (result, value.new) (number_told answer value.old) }
{
    match answer {
        Ok(number) => {
            *value = number;
            0
        }
        Err(refusal) => u32::from(u8::from(refusal)),
    }
}

pub fn arrangement_object_length(f: Family, lists: &Lists, value: &mut u64) -> u32
    ensures { ◌≡◌ {A = Valued} (result, value.new) (valued (measured f (lent (map (λ x. x.now) lists.now))) value.old) }
{
    tell(families::object_length(f, *lists), value)
}

pub fn arrangement_count(f: Family, lists: &Lists, value: &mut u64) -> u32
    ensures { ◌≡◌ {A = Valued} (result, value.new) (valued (respond COUNT f (lent (map (λ x. x.now) lists.now)) []).0 value.old) }
{
    tell(families::count(f, *lists), value)
}

pub fn arrangement_first(f: Family, lists: &Lists, object: &mut [u8]) -> u32
    ensures { ◌≡◌ {A = Coded} (result, object.new) (told (respond FIRST f (lent (map (λ x. x.now) lists.now)) object.old)) }
{
    plain(codes::written(families::first(f, *lists, object)))
}

pub fn arrangement_last(f: Family, lists: &Lists, object: &mut [u8]) -> u32
    ensures { ◌≡◌ {A = Coded} (result, object.new) (told (respond LAST f (lent (map (λ x. x.now) lists.now)) object.old)) }
{
    plain(codes::written(families::last(f, *lists, object)))
}

pub fn arrangement_next(f: Family, lists: &Lists, object: &mut [u8]) -> u32
    ensures { ◌≡◌ {A = Coded} (result, object.new) (told (respond NEXT f (lent (map (λ x. x.now) lists.now)) object.old)) }
{
    plain(codes::stepped(families::next(f, *lists, object)))
}

pub fn arrangement_previous(f: Family, lists: &Lists, object: &mut [u8]) -> u32
    ensures { ◌≡◌ {A = Coded} (result, object.new) (told (respond PREVIOUS f (lent (map (λ x. x.now) lists.now)) object.old)) }
{
    plain(codes::stepped(families::previous(f, *lists, object)))
}

pub fn arrangement_rank(f: Family, lists: &Lists, object: &[u8], value: &mut u64) -> u32
    ensures { ◌≡◌ {A = Valued} (result, value.new) (valued (respond RANK f (lent (map (λ x. x.now) lists.now)) object.now).0 value.old) }
{
    tell(families::rank(f, *lists, object), value)
}

pub fn arrangement_unrank(rank: u64, f: Family, lists: &Lists, object: &mut [u8]) -> u32
    ensures { ◌≡◌ {A = Coded} (result, object.new) (told (respond (UNRANK rank) f (lent (map (λ x. x.now) lists.now)) object.old)) }
{
    plain(codes::written(families::unrank(rank, f, *lists, object)))
}

pub fn arrangement_jump(f: Family, lists: &Lists, d: i64, object: &mut [u8]) -> u32
    ensures { ◌≡◌ {A = Coded} (result, object.new) (told (jump_of f (lent (map (λ x. x.now) lists.now)) d object.old)) }
{
    plain(jump::code(jump::jump(f, *lists, d, object)))
}

// A check leaves the place open where several are wrong, and so does its contract: what is told is told of some answer that a check may give.
pub fn arrangement_check(
    f: Family,
    lists: &Lists,
    entries: u64,
    bytes: &[u8],
    place: &mut u64,
) -> u32
    ensures { ToldCheck f (lent (map (λ x. x.now) lists.now)) entries bytes.now place.old (result, place.new) }
{
    match checker::check(f, *lists, entries, bytes) {
        Ok(()) => 0,
        Err(CheckError::Wrong(wrong)) => {
            *place = wrong;
            101
        }
        Err(CheckError::Entries) => 12,
        Err(CheckError::Refused(refusal)) => u32::from(u8::from(refusal)),
    }
}

// A step of a walk on lent bytes and the lent number kept of them.
fn walk_step(way: Way, f: Family, lists: &Lists, object: &mut [u8], number: &mut u64) -> u32
    ensures { ◌≡◌ {A = CodedStep} (result, kept object.new number.new) (told_step (step_kept way f (lent (map (λ x. x.now) lists.now)) (length object.old) (kept object.old number.old))) }
{
    let before = *number;
    let after = walk::step_lent(way, before, f, *lists, object);
    *number = after.number;
    plain(codes::stepped(after.answer))
}

pub fn arrangement_walk_next(f: Family, lists: &Lists, object: &mut [u8], number: &mut u64) -> u32
    ensures { ◌≡◌ {A = CodedStep} (result, kept object.new number.new) (told_step (step_kept Forth f (lent (map (λ x. x.now) lists.now)) (length object.old) (kept object.old number.old))) }
{
    walk_step(Way::Forth, f, lists, object, number)
}

pub fn arrangement_walk_previous(
    f: Family,
    lists: &Lists,
    object: &mut [u8],
    number: &mut u64,
) -> u32
    ensures { ◌≡◌ {A = CodedStep} (result, kept object.new number.new) (told_step (step_kept Back f (lent (map (λ x. x.now) lists.now)) (length object.old) (kept object.old number.old))) }
{
    walk_step(Way::Back, f, lists, object, number)
}
