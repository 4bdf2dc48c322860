// The letters that are left while a word is read or written place after place: how many words they make, and how many of these start with
// which letter. Of M words of m letters M * c / m start with a letter that is left c times.
ghost use Rattle.std.specs.Prelude.{◌≡◌, true, ◌+◌, ◌*◌, ◌/◌, ◌≤◌, ◌<◌, ◌^◌, length, take, get_or};
ghost use Rattle.basics.specs.Limits.{places};
ghost use Rattle.basics.specs.Sums.{total};
ghost use Rattle.numbers.specs.Numbers.{multinomial_of, one_less};
ghost use Rattle.listings.specs.Places.{At, count_before};
ghost use Rattle.anagrams.specs.Objects.{is_anagram, anagram_before};
ghost use Rattle.anagrams.specs.Listing.{anagrams};

use basics::sum;
use counting::multinomial;

// The number of words, where it fits.
#[tactic(auto, using(crate::proofs::Counts::answer_is_exact))]
pub fn all_words(counts: &[u8]) -> u64
    requires { (total counts.now ≤ places) × (multinomial_of counts.now < 2 ^ 64) }
    ensures { result ≡ multinomial_of counts.now }
{
    multinomial(counts).unwrap()
}

// How often each letter is left, how many letters that are, and how many words they make.
#[derive(Drop)]
struct Letters<'a> {
    counts: &'a mut [u8],
    size: u64,
    words: u64,
    ghost sized: { total counts.now ≡ size },
    ghost short: { size ≤ places },
    ghost counted: { words ≡ multinomial_of counts.now },
}

impl Letters<'_> {
    // How many words start with one of so many of the letters: words * some / size, with nothing on the way above 64 bits.
    #[tactic(auto, using(crate::proofs::Ranks::share_parts))]
    fn share(&self, some: u64) -> u64
        requires { (some ≤ self.now.size) × (0 < self.now.size) }
        ensures { result ≡ self.now.words * some / self.now.size }
    {
        self.words / self.size * some + self.words % self.size * some / self.size
    }

    // How many words start with a letter in front of this one.
    #[tactic(auto, using(crate::proofs::Ranks::some_letters))]
    fn earlier(&self, place: usize) -> u64
        requires { (place ≤ length self.now.counts.now) × (0 < self.now.size) }
        ensures { result ≡ self.now.words * total (take place self.now.counts.now) / self.now.size }
    {
        self.share(sum(&self.counts[..place]))
    }

    // The first letter of the word of a rank, and the rank among the words that start with it.
    fn first_letter(&self, rank: u64) -> (usize, u64)
        requires { (rank < self.now.words) × (0 < self.now.size) }
        ensures place_bound { result.0 < length self.now.counts.now }
        ensures rank_among { self.now.words * total (take result.0 self.now.counts.now) / self.now.size + result.1 ≡ rank }
        ensures rank_bound { rank < self.now.words * total (take (result.0 + 1) self.now.counts.now) / self.now.size }
    {
        let mut letters = 0;
        let mut earlier = 0;
        for (place, count) in self.counts.iter().enumerate() {
            letters += u64::from(*count);
            let through = self.share(letters);
            if rank < through {
                return (place, rank - earlier);
            }
            earlier = through;
        }
        unreachable!()
    }

    // Without this letter, which is taken: the words are then those that started with it.
    fn without(self, place: usize) -> Self
        requires { (place < length self.counts.now) × (0 < get_or self.counts.now place 0) }
        ensures { result.counts.now ≡ one_less self.entry.counts.now place }
    {
        let words = self.share(u64::from(self.counts[place]));
        let Letters { counts, size, .. } = self;
        counts[place] -= 1;
        Letters {
            counts,
            size: size - 1,
            words,
        }
    }
}

// How many words come before this one. Place after place: the words that start with an earlier letter, and then those with this one.
pub fn rank_of(counts: &mut [u8], words: u64, object: &[u8]) -> u64
    requires counts_bound { total counts.old ≤ places }
    requires object_value { is_anagram counts.old object.now ≡ true }
    requires words_value { words ≡ multinomial_of counts.old }
    ensures { result ≡ count_before anagram_before object.now (anagrams counts.old) }
{
    let mut left = Letters {
        counts,
        size: object.len() as u64,
        words,
    };
    let mut rank = 0;
    for letter in object {
        let place = usize::from(*letter) - 1;
        rank += left.earlier(place);
        left = left.without(place);
    }
    rank
}

// The word of a rank. Place after place: the letter whose words the rank falls into, and the rank among these.
pub fn write_word(rank: u64, counts: &mut [u8], words: u64, object: &mut [u8])
    requires counts_bound { (total counts.old ≤ places) × (length object.old ≡ total counts.old) }
    requires counts_len_bound { length counts.old ≤ places }
    requires words_value { words ≡ multinomial_of counts.old }
    requires rank_lt_words { rank < words }
    ensures { At (anagrams counts.old) object.new rank }
{
    let mut left = Letters {
        counts,
        size: object.len() as u64,
        words,
    };
    let mut rest = rank;
    for letter in object.iter_mut() {
        let (place, among) = left.first_letter(rest);
        left = left.without(place);
        *letter = (place + 1) as u8;
        rest = among;
    }
}
