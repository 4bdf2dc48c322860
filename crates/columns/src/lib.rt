// Numbers and words written in columns, each behind what is written before it.
#![tactic(auto)]

ghost use Rattle.std.specs.Prelude.{◌≡◌, ◌∷◌, [], ◌+◌, ◌≤◌, length, replicate};
ghost use Rattle.columns.specs.Columns.{blank, column, justified};
ghost use Rattle.columns.specs.Inner.Writing.{Wrote};

pub mod fields;

// A text: the first bytes of a lent buffer, as many as are written.
// No Vec or String: nothing in the library takes memory.
#[derive(Drop)]
pub struct Text<'a> {
    pub buffer: &'a mut [u8],
    pub len: usize,
}

impl<'a> Text<'a> {
    // Nothing is written.
    pub fn new(buffer: &'a mut [u8]) -> Text<'a>
        ensures len { result.len ≡ 0 }
        ensures same_bytes { result.buffer.now ≡ buffer.old }
        ensures same_buffer { result.buffer.ghost_name ≡ buffer.entry.ghost_name }
    {
        Text { buffer, len: 0 }
    }

    // One byte.
    pub fn put_byte(&mut self, b: u8)
        requires { self.old.len + 1 ≤ length self.old.buffer.now }
        ensures len { self.new.len ≡ self.old.len + 1 }
        ensures wrote { Wrote self.old self.new (b ∷ []) }
    {
        self.buffer[self.len] = b;
        self.len += 1;
    }

    // A word as it is.
    pub fn put_word(&mut self, word: &[u8])
        requires { self.old.len + length word.now ≤ length self.old.buffer.now }
        ensures len { self.new.len ≡ self.old.len + length word.now }
        ensures wrote { Wrote self.old self.new word.now }
    {
        let end = self.len + word.len();
        self.buffer[self.len..end].copy_from_slice(word);
        self.len = end;
    }

    // Blanks, as many as asked for.
    fn put_blanks(&mut self, count: usize)
        requires { self.old.len + count ≤ length self.old.buffer.now }
        ensures len { self.new.len ≡ self.old.len + count }
        ensures wrote { Wrote self.old self.new (replicate count blank) }
    {
        let end = self.len + count;
        self.buffer[self.len..end].fill(b' ');
        self.len = end;
    }

    // A word, right-justified in width columns.
    #[tactic(auto, using(crate::proofs::Writes::then), unfolding(crate::specs::Columns::justified))]
    pub fn put_justified(&mut self, width: usize, word: &[u8])
        requires word_len_bound { length word.now ≤ width }
        requires width_in_bounds { self.old.len + width ≤ length self.old.buffer.now }
        ensures len { self.new.len ≡ self.old.len + width }
        ensures wrote { Wrote self.old self.new (justified width word.now) }
    {
        self.put_blanks(width - word.len());
        self.put_word(word);
    }

    // A number, right-justified in width columns.
    #[tactic(auto, using(crate::proofs::ColumnLaws::column_cases, std::proofs::lemmas::Grind::common_steps))]
    pub fn put_column(&mut self, width: usize, n: u64)
        requires { self.old.len + width ≤ length self.old.buffer.now }
        ensures len { self.new.len ≡ self.old.len + width }
        ensures wrote { Wrote self.old self.new (column width n) }
    {
        let end = self.len + width;
        fill_column(&mut self.buffer[self.len..end], n);
        self.len = end;
    }
}

// A number, right-justified in the whole part: its last digit, and before it the digits that are left, or blanks.
// By hand and not by Display: the contract is the column, byte for byte, and no memory is taken.
#[tactic(auto, using(crate::proofs::ColumnLaws::column_cases, std::proofs::lemmas::Grind::common_steps))]
fn fill_column(part: &mut [u8], n: u64)
    ensures { part.new ≡ column (length part.old) n }
{
    let Some((last, before)) = part.split_last_mut() else {
        return;
    };
    *last = b'0' + (n % 10) as u8;
    if n < 10 {
        before.fill(b' ');
    } else {
        fill_column(before, n / 10);
    }
}
