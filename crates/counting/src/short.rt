// The three counts of which only few are below 2^64, as far as they are. A static lies in memory that is only read, where a const would be written out
// at each use.
ghost use Rattle.std.specs.Prelude.{◌<◌, ◌^◌, SomeIff};
ghost use Rattle.numbers.specs.Numbers.{factorial_of, catalan_of, derangements_of};

static FACTORIALS: [u64; 21] = [
    1,
    1,
    2,
    6,
    24,
    120,
    720,
    5040,
    40320,
    362880,
    3628800,
    39916800,
    479001600,
    6227020800,
    87178291200,
    1307674368000,
    20922789888000,
    355687428096000,
    6402373705728000,
    121645100408832000,
    2432902008176640000,
];

// n!, where that is below 2^64.
// A function a table: each is one read, and its contract names its number.
pub fn factorial(n: u64) -> Option<u64>
    ensures { SomeIff result (factorial_of n < 2 ^ 64) (factorial_of n) }
{
    FACTORIALS.get(n as usize).copied()
}

static CATALANS: [u64; 37] = [
    1,
    1,
    2,
    5,
    14,
    42,
    132,
    429,
    1430,
    4862,
    16796,
    58786,
    208012,
    742900,
    2674440,
    9694845,
    35357670,
    129644790,
    477638700,
    1767263190,
    6564120420,
    24466267020,
    91482563640,
    343059613650,
    1289904147324,
    4861946401452,
    18367353072152,
    69533550916004,
    263747951750360,
    1002242216651368,
    3814986502092304,
    14544636039226909,
    55534064877048198,
    212336130412243110,
    812944042149730764,
    3116285494907301262,
    11959798385860453492,
];

// The Catalan number of n, where it is below 2^64.
pub fn catalan(n: u64) -> Option<u64>
    ensures { SomeIff result (catalan_of n < 2 ^ 64) (catalan_of n) }
{
    CATALANS.get(n as usize).copied()
}

static DERANGEMENTS: [u64; 21] = [
    1,
    0,
    1,
    2,
    9,
    44,
    265,
    1854,
    14833,
    133496,
    1334961,
    14684570,
    176214841,
    2290792932,
    32071101049,
    481066515734,
    7697064251745,
    130850092279664,
    2355301661033953,
    44750731559645106,
    895014631192902121,
];

// The derangements of n, where their number is below 2^64.
pub fn derangement(n: u64) -> Option<u64>
    ensures { SomeIff result (derangements_of n < 2 ^ 64) (derangements_of n) }
{
    DERANGEMENTS.get(n as usize).copied()
}
