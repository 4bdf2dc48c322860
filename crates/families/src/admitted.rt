// A family that every call may go on with.
ghost use Rattle.std.specs.Prelude.{◌≡◌, true, map};
ghost use Rattle.families.specs.Table.{lent};
ghost use Rattle.families.specs.Families.{allowed};

use crate::kind::{KINDS, Kind};
use crate::{Family, Lists};

// A family and its lists, of which the questions that are put to every call have been answered by yes. Two references are passed in registers: a copy of the family,
// with its kind beside it, would be written at each call and read again, some 20 instructions.
#[derive(Clone, Copy)]
pub struct Admitted<'a> {
    pub family: &'a Family,
    pub lists: &'a Lists<'a>,
    ghost passed: { allowed family.now (lent (map (λ x. x.now) lists.now)) ≡ true },
}

impl<'a> Admitted<'a> {
    ghost use Rattle.families.specs.Inner.Kinds.{kind_number};

    // Its kind.
    pub fn kind(self) -> Kind
        ensures { self.entry.family.now.kind ≡ kind_number result }
    {
        KINDS[self.family.kind as usize - 1]
    }
}
