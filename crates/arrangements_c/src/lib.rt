// The calls of `arrangements` under the names that C links, one for one and with the same clauses. include/arrangements.h declares them.
#![tactic(auto)]

ghost use Rattle.std.specs.Prelude.{◌≡◌, [], map, length};
ghost use Rattle.listings.specs.Calls.{COUNT, FIRST, LAST, NEXT, PREVIOUS, RANK, UNRANK};
ghost use Rattle.families.specs.Table.{lent};
ghost use Rattle.families.specs.Calls.{respond, measured};
ghost use Rattle.families.specs.Codes.{Coded};
ghost use Rattle.walk.specs.declared.Way.TheVariants.{Forth, Back};
ghost use Rattle.walk.specs.Walks.{kept, step_kept};
ghost use Rattle.jump.specs.Jumps.{jump as jump_of};
ghost use Rattle.arrangements.specs.Told.{told, Valued, valued, CodedStep, told_step, ToldCheck};

use families::{Family, Lists};

#[unsafe(no_mangle)]
pub extern "C" fn arrangement_object_length(f: Family, lists: &Lists, value: &mut u64) -> u32
    ensures { ◌≡◌ {A = Valued} (result, value.new) (valued (measured f (lent (map (λ x. x.now) lists.now))) value.old) }
{
    arrangements::arrangement_object_length(f, lists, value)
}

#[unsafe(no_mangle)]
pub extern "C" fn arrangement_count(f: Family, lists: &Lists, value: &mut u64) -> u32
    ensures { ◌≡◌ {A = Valued} (result, value.new) (valued (respond COUNT f (lent (map (λ x. x.now) lists.now)) []).0 value.old) }
{
    arrangements::arrangement_count(f, lists, value)
}

#[unsafe(no_mangle)]
pub extern "C" fn arrangement_first(f: Family, lists: &Lists, object: &mut [u8]) -> u32
    ensures { ◌≡◌ {A = Coded} (result, object.new) (told (respond FIRST f (lent (map (λ x. x.now) lists.now)) object.old)) }
{
    arrangements::arrangement_first(f, lists, object)
}

#[unsafe(no_mangle)]
pub extern "C" fn arrangement_last(f: Family, lists: &Lists, object: &mut [u8]) -> u32
    ensures { ◌≡◌ {A = Coded} (result, object.new) (told (respond LAST f (lent (map (λ x. x.now) lists.now)) object.old)) }
{
    arrangements::arrangement_last(f, lists, object)
}

#[unsafe(no_mangle)]
pub extern "C" fn arrangement_next(f: Family, lists: &Lists, object: &mut [u8]) -> u32
    ensures { ◌≡◌ {A = Coded} (result, object.new) (told (respond NEXT f (lent (map (λ x. x.now) lists.now)) object.old)) }
{
    arrangements::arrangement_next(f, lists, object)
}

#[unsafe(no_mangle)]
pub extern "C" fn arrangement_previous(f: Family, lists: &Lists, object: &mut [u8]) -> u32
    ensures { ◌≡◌ {A = Coded} (result, object.new) (told (respond PREVIOUS f (lent (map (λ x. x.now) lists.now)) object.old)) }
{
    arrangements::arrangement_previous(f, lists, object)
}

#[unsafe(no_mangle)]
pub extern "C" fn arrangement_rank(f: Family, lists: &Lists, object: &[u8], value: &mut u64) -> u32
    ensures { ◌≡◌ {A = Valued} (result, value.new) (valued (respond RANK f (lent (map (λ x. x.now) lists.now)) object.now).0 value.old) }
{
    arrangements::arrangement_rank(f, lists, object, value)
}

#[unsafe(no_mangle)]
pub extern "C" fn arrangement_unrank(rank: u64, f: Family, lists: &Lists, object: &mut [u8]) -> u32
    ensures { ◌≡◌ {A = Coded} (result, object.new) (told (respond (UNRANK rank) f (lent (map (λ x. x.now) lists.now)) object.old)) }
{
    arrangements::arrangement_unrank(rank, f, lists, object)
}

#[unsafe(no_mangle)]
pub extern "C" fn arrangement_jump(f: Family, lists: &Lists, d: i64, object: &mut [u8]) -> u32
    ensures { ◌≡◌ {A = Coded} (result, object.new) (told (jump_of f (lent (map (λ x. x.now) lists.now)) d object.old)) }
{
    arrangements::arrangement_jump(f, lists, d, object)
}

// A check leaves the place open where several are wrong, and so does its contract: what is told is told of some answer that a check may give.
#[unsafe(no_mangle)]
pub extern "C" fn arrangement_check(
    f: Family,
    lists: &Lists,
    entries: u64,
    bytes: &[u8],
    place: &mut u64,
) -> u32
    ensures { ToldCheck f (lent (map (λ x. x.now) lists.now)) entries bytes.now place.old (result, place.new) }
{
    arrangements::arrangement_check(f, lists, entries, bytes, place)
}

#[unsafe(no_mangle)]
pub extern "C" fn arrangement_walk_next(
    f: Family,
    lists: &Lists,
    object: &mut [u8],
    number: &mut u64,
) -> u32
    ensures { ◌≡◌ {A = CodedStep} (result, kept object.new number.new) (told_step (step_kept Forth f (lent (map (λ x. x.now) lists.now)) (length object.old) (kept object.old number.old))) }
{
    arrangements::arrangement_walk_next(f, lists, object, number)
}

#[unsafe(no_mangle)]
pub extern "C" fn arrangement_walk_previous(
    f: Family,
    lists: &Lists,
    object: &mut [u8],
    number: &mut u64,
) -> u32
    ensures { ◌≡◌ {A = CodedStep} (result, kept object.new number.new) (told_step (step_kept Back f (lent (map (λ x. x.now) lists.now)) (length object.old) (kept object.old number.old))) }
{
    arrangements::arrangement_walk_previous(f, lists, object, number)
}
