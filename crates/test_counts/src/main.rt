// Prints the counts that the lines of standard input ask for, on each side of 2^64 and of the limits, and then every count of n alone or of n and
// k, so all but the multinomials, within the limits and one step beyond them: of partitions with floor 1 and with floor 2. A line of the input is the
// text to print, a colon, and the numbers: n and k, behind them the floor of partitions, or the counts of a multinomial. A text says a floor behind n
// and k, and only where it isn't 1.
//
// The expected text, `stdout`, is written by tests/expected/counts.py: math.comb and math.factorial for binomials, factorials and Catalan
// numbers, factorials for multinomials, the alternating sum over binomials for Stirling numbers and derangements (not their recursion), and for
// partitions one part size after the other from the floor up, counting the parts. Of these the sums over k are held to Euler's pentagonal recurrence.
#![tactic(auto)]

ghost use Rattle.std.specs.Prelude.{◌≤◌, ◌+◌};
ghost use Rattle.basics.specs.Limits.{places};

use basics::{LONGEST_OBJECT, PLACES};
use counting::{Count, CountError};
use std::{fmt, io};
use test_support::{Numbers, behind, cut, each_line, read_input, text};

// The rows within the limits, and one beyond them.
const ROWS: u64 = PLACES + 2;

// A count that is asked for, all but the multinomials.
#[derive(Clone, Copy)]
enum Question {
    Binomial { n: u64, k: u64 },
    Stirling { n: u64, k: u64 },
    Partitions { n: u64, k: u64, floor: u64 },
    Factorial { n: u64 },
    Catalan { n: u64 },
    Derangement { n: u64 },
}

impl Question {
    // The question whose name begins with the letter; only partitions have a floor.
    // By the letter: the label is printed as the file has it, and any other letter asks for a Catalan number.
    fn new(letter: u8, n: u64, k: u64, floor: u64) -> Question {
        match letter {
            b'b' => Question::Binomial { n, k },
            b's' => Question::Stirling { n, k },
            b'p' => Question::Partitions { n, k, floor },
            b'f' => Question::Factorial { n },
            b'd' => Question::Derangement { n },
            _ => Question::Catalan { n },
        }
    }

    fn count(self) -> Count {
        match self {
            Question::Binomial { n, k } => counting::subset_count(n, k),
            Question::Stirling { n, k } => counting::stirling(n, k),
            Question::Partitions { n, k, floor } => counting::partitions(floor, n, k),
            Question::Factorial { n } => counting::factorial(n),
            Question::Catalan { n } => counting::catalan(n),
            Question::Derangement { n } => counting::derangement(n),
        }
    }
}

// The floor is said where it isn't 1.
impl fmt::Display for Question {
    fn fmt<W: fmt::Write>(&self, f: &mut fmt::Formatter<W>) -> fmt::Result {
        match *self {
            Question::Binomial { n, k } => write!(f, "binomial {n} {k}"),
            Question::Stirling { n, k } => write!(f, "stirling {n} {k}"),
            Question::Partitions { n, k, floor: 1 } => write!(f, "partitions {n} {k}"),
            Question::Partitions { n, k, floor } => write!(f, "partitions {n} {k} {floor}"),
            Question::Factorial { n } => write!(f, "factorial {n}"),
            Question::Catalan { n } => write!(f, "catalan {n}"),
            Question::Derangement { n } => write!(f, "derangement {n}"),
        }
    }
}

// What ends every line.
fn answer(rt: &impl Print, c: Count) -> io::Result<()> {
    match c {
        Ok(v) => println!(rt; ": {v}"),
        Err(CountError::TooLarge) => println!(rt; ": too large"),
        Err(CountError::Outside) => println!(rt; ": outside"),
    }
}

fn ask(rt: &impl Print, question: Question) -> io::Result<()> {
    print!(rt; "{question}")?;
    answer(rt, question.count())
}

// The two ways to a binomial; a line only where they differ, so none is expected.
fn agree(rt: &impl Print, n: u64, k: u64) -> io::Result<()> {
    let c = counting::coefficient(n, k);
    if c != counting::subset_count(n, k) {
        print!(rt; "coefficient {n} {k}")?;
        answer(rt, c)?;
    }
    Ok(())
}

// Every entry of row n, and the one behind it.
fn rows(rt: &impl Print, n: u64) -> io::Result<()>
    requires { n ≤ places + 1 }
{
    for k in 0..n + 2 {
        agree(rt, n, k)?;
        ask(rt, Question::Binomial { n, k })?;
        ask(rt, Question::Stirling { n, k })?;
        ask(rt, Question::Partitions { n, k, floor: 1 })?;
        ask(rt, Question::Partitions { n, k, floor: 2 })?;
    }
    ask(rt, Question::Factorial { n })?;
    ask(rt, Question::Catalan { n })?;
    ask(rt, Question::Derangement { n })
}

// A multinomial, of one letter more than there are places at the most.
fn word(rt: &impl Print, section: &[u8]) -> io::Result<()> {
    let mut counts = [0u8; LONGEST_OBJECT + 1];
    let len = Numbers::of(section).list(&mut counts);
    answer(rt, counting::multinomial(&counts[..len]))
}

// A line of the input: the text to print, which begins with the question's letter, a colon, and the numbers.
fn edge(rt: &impl Print, line: &[u8]) -> io::Result<()> {
    let (label, marked) = cut(line, b':');
    text(rt, label)?;
    let section = behind(marked, b':');
    let letter = line.first().copied().unwrap_or(b'\n');
    if letter == b'm' {
        return word(rt, section);
    }
    let mut numbers = Numbers::of(section);
    let n = numbers.number();
    let k = numbers.number();
    let floor = numbers.number();
    answer(rt, Question::new(letter, n, k, floor).count())
}

fn main(rt: HostRuntime) -> io::Result<()> {
    let mut input = [0u8; 65536];
    let read = read_input(&rt, &mut input)?;
    each_line(&input[..read], &|line| edge(&rt, line))?;
    for n in 0..ROWS {
        rows(&rt, n)?;
    }
    Ok(())
}
