// The keys of a run.
ghost use Rattle.std.specs.Prelude.{◌≡◌, map, true, IfSome, string_bytes};
ghost use Rattle.hum_command.specs.Keys as spec;
ghost use Rattle.hum_command.specs.Grants.{grant_of, lanes_of};

use vm_machine::Lanes;
use vm_sponsor::Grant;

/// What a word `KEY=N` gives a number to.
#[derive(Clone, Copy, Debug, PartialEq, Eq)]
pub enum Key {
    Memory,
    Events,
    Cycles,
    Lanes,
    Seed,
    Bound,
}

/// What the root sponsor is granted, in quads, events and cycles; how many events may be in flight; the seed of the picks; and after how
/// many events the run stops, if it does.
#[derive(Clone, Copy, Debug, PartialEq, Eq)]
pub struct Keys {
    pub memory: u32,
    pub events: u32,
    pub cycles: u32,
    pub lanes: u32,
    pub seed: u32,
    pub bound: Option<u32>,
}

impl Keys {
    /// What the root sponsor is granted.
    pub fn grant(self) -> Grant
        requires { spec.WithinLimits self }
        ensures { result ≡ grant_of self }
    {
        match Grant::new(self.memory, self.events, self.cycles) {
            Some(grant) => grant,
            None => unreachable!(),
        }
    }

    /// How many events may be in flight, and the seed of the picks.
    pub fn in_flight(self) -> Lanes
        ensures { result ≡ lanes_of self }
    {
        Lanes {
            count: self.lanes,
            seed: self.seed,
        }
    }
}

/// The keys of a run.
pub const RUN_KEYS: [Key; 6] = [
    Key::Memory,
    Key::Events,
    Key::Cycles,
    Key::Lanes,
    Key::Seed,
    Key::Bound,
];

/// The keys of a machine that is debugged.
pub const DEBUG_KEYS: [Key; 5] = [Key::Memory, Key::Events, Key::Cycles, Key::Lanes, Key::Seed];

impl Key {
    fn front(self) -> &'static [u8]
        ensures { result.now ≡ spec.front_of self }
    {
        match self {
            Key::Memory => b"memory=",
            Key::Events => b"events=",
            Key::Cycles => b"cycles=",
            Key::Lanes => b"lanes=",
            Key::Seed => b"seed=",
            Key::Bound => b"bound=",
        }
    }

    fn takes(self, number: u32) -> bool
        ensures { result ≡ spec.takes self number }
    {
        match self {
            Key::Memory => number <= 16_777_216,
            Key::Events => number <= 4_194_304,
            Key::Cycles => number <= 1_073_741_823,
            Key::Lanes => number >= 1 && number <= 64,
            Key::Seed | Key::Bound => true,
        }
    }
}

fn number_from(digits: &[u8]) -> Option<u32>
    ensures { result ≡ spec.number_from 0 digits.now }
{
    let mut number: u32 = 0;
    for digit in digits {
        if !digit.is_ascii_digit() {
            return None;
        }
        let next = 10 * number as u64 + (*digit - b'0') as u64;
        if next > 4_294_967_295 {
            return None;
        }
        number = next as u32;
    }
    Some(number)
}

pub fn number_of(digits: &[u8]) -> Option<u32>
    ensures { result ≡ spec.number_of digits.now }
{
    if digits.len() >= 1 && digits.len() <= 10 {
        number_from(digits)
    } else {
        None
    }
}

// The number that a word gives a key.
fn number_for(key: Key, word: &[u8]) -> Option<u32>
    ensures value { result ≡ spec.number_for key word.now }
    ensures takes { IfSome result (λ n. spec.takes key n ≡ true) }
{
    let front = key.front();
    if !word.starts_with(front) {
        return None;
    }
    let number = number_of(&word[front.len()..])?;
    if key.takes(number) {
        Some(number)
    } else {
        None
    }
}

// The number that the first of the words gives a key that gives it one.
fn number_in(key: Key, words: &[String]) -> Option<u32>
    ensures value { result ≡ spec.number_in key (map string_bytes words.now) }
    ensures takes { IfSome result (λ n. spec.takes key n ≡ true) }
{
    let mut rest = words;
    while let [word, more @ ..] = rest {
        if let Some(number) = number_for(key, word.as_bytes()) {
            return Some(number);
        }
        rest = more;
    }
    None
}

// Whether a word gives a number to a key that these words give none.
fn is_new(word: &[u8], words: &[String], key: Key) -> bool
    ensures { result ≡ spec.is_new word.now (map string_bytes words.now) key }
{
    number_for(key, word).is_some() && number_in(key, words).is_none()
}

// Whether each word gives one of these keys its number, and no key gets two.
fn are_keys(allowed: &[Key], words: &[String]) -> bool
    ensures { result ≡ spec.are_keys allowed.now (map string_bytes words.now) }
{
    match words {
        [] => true,
        [word, more @ ..] => {
            gives_one(allowed, word.as_bytes(), more) && are_keys(allowed, more)
        }
    }
}

// Whether a word gives a number to one of these keys, and these words give that key none.
fn gives_one(allowed: &[Key], word: &[u8], words: &[String]) -> bool
    ensures { result ≡ spec.gives_one allowed.now word.now (map string_bytes words.now) }
{
    allowed.iter().any(|key| is_new(word, words, *key))
}

// The number that the words give a key, or else its default.
fn number_or(key: Key, words: &[String], default: u32) -> u32
    requires { spec.takes key default ≡ true }
    ensures value { result ≡ spec.number_or key (map string_bytes words.now) default }
    ensures takes { spec.takes key result ≡ true }
{
    match number_in(key, words) {
        Some(number) => number,
        None => default,
    }
}

/// The keys that the words give, each of those allowed at most once and in any order, and the defaults of the others; None where a word gives
/// none, or a key gets two numbers.
pub fn keys_of(allowed: &[Key], words: &[String]) -> Option<Keys>
    ensures value { result ≡ spec.keys_of allowed.now (map string_bytes words.now) }
    ensures limits { IfSome result spec.WithinLimits }
{
    if !are_keys(allowed, words) {
        return None;
    }
    Some(Keys {
        memory: number_or(Key::Memory, words, 1_048_576),
        events: number_or(Key::Events, words, 65_536),
        cycles: number_or(Key::Cycles, words, 16_777_216),
        lanes: number_or(Key::Lanes, words, 1),
        seed: number_or(Key::Seed, words, 0),
        bound: number_in(Key::Bound, words),
    })
}
