// A walk that knows its number: a family, the bytes of an object and its rank, by value. A step moves the bytes as NEXT or PREVIOUS does and
// counts beside it, so no rank is worked out. No public function has a `requires`: any walk, also one that nobody started, is answered.
#![tactic(auto)]

ghost use Rattle.std.specs.Prelude.{◌≡◌, Bool, map, ℕ, ◌<◌, ◌^◌, length};
ghost use Rattle.std.proofs.Math.Option.{some};
ghost use Rattle.basics.specs.Limits.{longest_object};
ghost use Rattle.listings.specs.Bytes.{Bytes};
ghost use Rattle.listings.specs.Calls.{Answer, Said};
ghost use Rattle.families.specs.Table.{lent};
ghost use Rattle.families.specs.Families.{is_object, count_of};
ghost use Rattle.families.specs.Questions.{rank_refusal};
ghost use Rattle.families.specs.Calls.{respond};
ghost use Rattle.families.specs.Answers.{number_of, ranked_as, stepped_as};
ghost use Rattle.walk.specs.declared.Walk.{Walk as WalkOf};
ghost use Rattle.walk.specs.Walks.{call_of, kept, Outcome, step_refusal, step_kept, step_walk, start_of, way_of, run_of};
ghost use Rattle.walk.specs.declared.Way.TheVariants.{Forth, Back};

use basics::LONGEST_OBJECT;
use families::{Call, Family, Lists, Refusal, codes};
use listings::Step;

// The way a step goes: as NEXT or as PREVIOUS.
// A way and no closure: a closure would bring its law into each contract, and the definitions go by the way.
#[derive(Clone, Copy, Debug, PartialEq, Eq)]
pub enum Way {
    Forth,
    Back,
}

// The bytes kept (the first len of the array), their family and the number kept. The array stands first, so that a copy of the walk and a
// copy of its array are made of the same words.
// An array and a length: a walk is a value without a heap, and the contracts speak of the bytes behind the length.
#[derive(Clone, Copy)]
pub struct Walk {
    pub bytes: [u8; LONGEST_OBJECT],
    pub family: Family,
    pub len: u64,
    pub number: u64,
}

// Where a walk starts: what RANK answers, and the walk.
#[derive(Clone, Copy)]
pub struct Started {
    pub walk: Walk,
    pub answer: Result<u64, Refusal>,
}

// A step: what NEXT or PREVIOUS answers, and the walk.
#[derive(Clone, Copy)]
pub struct Stride {
    pub walk: Walk,
    pub answer: Result<Step, Refusal>,
}

// A step on lent bytes: the answer, and the number then.
#[derive(Clone, Copy)]
pub struct Numbered {
    pub answer: Result<Step, Refusal>,
    pub number: u64,
}

// A step on, or one back.
// Truth values come from `run`, whose clause takes a list of them.
#[tactic(auto, unfolding(crate::specs::Walks::way_of))]
fn way_of(on: bool) -> Way
    ensures { result ≡ way_of on }
{
    if on { Way::Forth } else { Way::Back }
}

// The call of a step.
#[tactic(auto, unfolding(crate::specs::Walks::call_of))]
fn call<'a>(way: Way, f: Family, lists: Lists<'a>, object: &mut [u8]) -> Result<Step, Refusal>
    ensures { ◌≡◌ {A = Said} (stepped_as result, object.new) (respond (call_of way) f (lent (map (λ x. x.now) lists.entry)) object.old) }
{
    match way {
        Way::Forth => families::next(f, lists, object),
        Way::Back => families::previous(f, lists, object),
    }
}

// The first question that a step misses whose number misses 5 or 8.
#[tactic(auto, using(crate::proofs::Asked::missed_first, crate::proofs::Asked::rank_missed))]
fn missed<'a>(f: Family, lists: Lists<'a>, object: &[u8]) -> Refusal
    ensures { (number q : ℕ) → rank_refusal number (count_of f (lent (map (λ x. x.now) lists.entry))) ≡ some q → step_refusal f (lent (map (λ x. x.now) lists.entry)) (length object.now) (is_object f (lent (map (λ x. x.now) lists.entry)) object.now) number ≡ some (number_of result) }
{
    match families::ask(Call::Rank, f, lists, object) {
        Ok(()) => Refusal::Rank,
        Err(refusal) => refusal,
    }
}

// The first question that a step misses on more bytes than any object has.
fn missed_beyond<'a>(f: Family, lists: Lists<'a>) -> Refusal
    ensures { (size : ℕ) (holds : Bool) (number : ℕ) → longest_object < size → step_refusal f (lent (map (λ x. x.now) lists.entry)) size holds number ≡ some (number_of result) }
{
    if let Err(refusal) = families::opening(Call::Rank, f, lists) {
        return refusal;
    }
    match families::rank_below(0, f, lists) {
        Ok(()) => Refusal::Length,
        Err(refusal) => refusal,
    }
}

// A step whose number is below a count that fits.
fn step_numbered<'a>(
    way: Way,
    number: u64,
    f: Family,
    lists: Lists<'a>,
    object: &mut [u8],
) -> Numbered
    requires number_bound { number < count_of f (lent (map (λ x. x.now) lists)) }
    requires lists_bound { count_of f (lent (map (λ x. x.now) lists)) < 2 ^ 64 }
    ensures { ◌≡◌ {A = Outcome} (stepped_as result.answer, kept object.new result.number) (step_kept way f (lent (map (λ x. x.now) lists.entry)) (length object.old) (kept object.old number)) }
{
    match call(way, f, lists, object) {
        Ok(Step::Moved) => {}
        Ok(Step::End) => {
            return Numbered {
                answer: Ok(Step::End),
                number,
            };
        }
        Err(refusal) => {
            return Numbered {
                answer: Err(refusal),
                number,
            };
        }
    }
    let Way::Back = way else {
        return Numbered {
            answer: Ok(Step::Moved),
            number: number + 1,
        };
    };
    if number == 0 {
        // No number is left for the object found: back to where the step came from.
        let _ = call(Way::Forth, f, lists, object);
        return Numbered {
            answer: Err(Refusal::Rank),
            number,
        };
    }
    Numbered {
        answer: Ok(Step::Moved),
        number: number - 1,
    }
}

// A step on lent bytes and the number kept of them. Questions 5 and 8 are put first, by one count: the call puts the others.
pub fn step_lent<'a>(
    way: Way,
    number: u64,
    f: Family,
    lists: Lists<'a>,
    object: &mut [u8],
) -> Numbered
    ensures { ◌≡◌ {A = Outcome} (stepped_as result.answer, kept object.new result.number) (step_kept way f (lent (map (λ x. x.now) lists.entry)) (length object.old) (kept object.old number)) }
{
    match families::rank_below(number, f, lists) {
        Ok(()) => step_numbered(way, number, f, lists, object),
        Err(_) => Numbered {
            answer: Err(missed(f, lists, object)),
            number,
        },
    }
}

impl Walk {
    // A walk from an object, with RANK's questions and its number.
    pub fn start<'a>(f: Family, lists: Lists<'a>, object: &[u8]) -> Started
        ensures { ◌≡◌ {A = Answer × WalkOf} (ranked_as result.answer, result.walk) (start_of f (lent (map (λ x. x.now) lists.entry)) object.now) }
    {
        let mut bytes = [0u8; LONGEST_OBJECT];
        let answer = families::rank(f, lists, object);
        let Ok(rank) = answer else {
            return Started {
                walk: Walk {
                    family: f,
                    bytes,
                    len: 0,
                    number: 0,
                },
                answer,
            };
        };
        let len = object.len();
        bytes[..len].copy_from_slice(object);
        Started {
            walk: Walk {
                family: f,
                bytes,
                len: len as u64,
                number: rank,
            },
            answer,
        }
    }

    // A step one way.
    pub fn step<'a>(mut self, way: Way, lists: Lists<'a>) -> Stride
        ensures { ◌≡◌ {A = Answer × WalkOf} (stepped_as result.answer, result.walk) (step_walk way (lent (map (λ x. x.now) lists.entry)) self) }
    {
        let f = self.family;
        let number = self.number;
        let size = self.len;
        let mut bytes = self.bytes;
        if size > LONGEST_OBJECT as u64 {
            return Stride {
                walk: self,
                answer: Err(missed_beyond(f, lists)),
            };
        }
        let len = size as usize;
        let after = step_lent(way, number, f, lists, &mut bytes[..len]);
        self.bytes = bytes;
        self.number = after.number;
        Stride {
            walk: self,
            answer: after.answer,
        }
    }

    // A step on, as NEXT.
    pub fn next<'a>(self, lists: Lists<'a>) -> Stride
        ensures { ◌≡◌ {A = Answer × WalkOf} (stepped_as result.answer, result.walk) (step_walk Forth (lent (map (λ x. x.now) lists.entry)) self) }
    {
        self.step(Way::Forth, lists)
    }

    // A step back, as PREVIOUS.
    pub fn previous<'a>(self, lists: Lists<'a>) -> Stride
        ensures { ◌≡◌ {A = Answer × WalkOf} (stepped_as result.answer, result.walk) (step_walk Back (lent (map (λ x. x.now) lists.entry)) self) }
    {
        self.step(Way::Back, lists)
    }

    // Steps one after the other, true for one on and false for one back, as many as have room for their answers.
    pub fn run<'a>(self, lists: Lists<'a>, on: &[bool], answers: &mut [u8]) -> Walk
        ensures { ◌≡◌ {A = WalkOf × Bytes} (result, answers.new) (run_of self (lent (map (λ x. x.now) lists.entry)) on.now answers.old) }
    {
        let mut walk = self;
        for i in 0..on.len().min(answers.len()) {
            let stride = walk.step(way_of(on[i]), lists);
            answers[i] = codes::stepped(stride.answer);
            walk = stride.walk;
        }
        walk
    }
}
