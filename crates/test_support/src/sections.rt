// The sections of a line, and the numbers of a section.
ghost use Rattle.std.specs.Prelude.{ℕ, ◌≡◌, ◌≤◌, ◌<◌, ◌-◌, ◌++◌, length, get_or};
ghost use Rattle.io.specs.Counts.{IsPrefixLen};

// The part in front of a letter, and the part from the letter on: all and nothing where it doesn't stand there.
pub fn cut(line: &[u8], letter: u8) -> (&[u8], &[u8])
    ensures parts { result.0.now ++ result.1.now ≡ line.now }
    ensures front { (i : ℕ) → i < length result.0.now → get_or result.0.now i 0 ≡ letter → ⊥ }
    ensures mark { 0 < length result.1.now → get_or result.1.now 0 0 ≡ letter }
{
    let at = line.iter().position(|other| *other == letter);
    line.split_at(at.unwrap_or(line.len()))
}

// What stands behind a mark (a colon or a stroke) and the blank after it.
pub fn behind(line: &[u8], mark: u8) -> &[u8]
    ensures { length result.now ≤ length line.now - 2 }
{
    let (_, marked) = cut(line, mark);
    if marked.len() < 2 { &[] } else { &marked[2..] }
}

// The numbers of a section, read from its start on, words of digits; what stands behind a word goes with it, but the stroke behind the section stays.
#[derive(Clone, Copy)]
pub struct Numbers<'a> {
    rest: &'a [u8],
}

impl<'a> Numbers<'a> {
    pub fn of(section: &'a [u8]) -> Self {
        Numbers { rest: section }
    }

    // Whether the section ends here.
    pub fn is_done(&self) -> bool {
        matches!(self.rest, [] | [b'/', ..])
    }

    // Passes over a minus that stands here, and answers whether one did.
    pub fn skip_minus(&mut self) -> bool {
        if let [b'-', rest @ ..] = self.rest {
            self.rest = rest;
            return true;
        }
        false
    }

    // The number that begins here, the largest where it is too large; none, which is 0, where the section ends.
    // 0 for none, since a case leaves out numbers that are 0. No parse: what is too large is the largest, what is below '0' ends a word, and a word
    // of letters is passed over as a number is.
    pub fn number(&mut self) -> u64 {
        let rest = self.rest;
        let mut value: u64 = 0;
        for (i, letter) in rest.iter().enumerate() {
            if *letter == b'/' {
                self.rest = &rest[i..];
                return value;
            }
            if *letter < b'0' {
                self.rest = &rest[i + 1..];
                return value;
            }
            value = value
                .saturating_mul(10)
                .saturating_add(u64::from(*letter - b'0'));
        }
        self.rest = &[];
        value
    }

    // Reads the numbers up to the section's end, each as the room holds it, as far as there is room, and answers how many.
    pub fn fill<T: Copy, F: Fn(u64) -> T>(&mut self, room: &mut [T], held: F) -> usize
        requires { F.IsAlwaysCallable held }
        ensures { result ≤ length room.new }
    {
        for (i, place) in room.iter_mut().enumerate() {
            if self.is_done() {
                return i;
            }
            *place = held(self.number());
        }
        room.len()
    }

    // The bytes of a list, as far as there is room, and how many there are.
    pub fn list(&mut self, room: &mut [u8]) -> usize
        ensures { IsPrefixLen result room.new }
    {
        self.fill(room, |number| (number % 256) as u8)
    }

    // Its numbers, as far as there is room, and how many there are.
    pub fn wide_list(&mut self, room: &mut [u64]) -> usize
        ensures { IsPrefixLen result room.new }
    {
        self.fill(room, |number| number)
    }
}
