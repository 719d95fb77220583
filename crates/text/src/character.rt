//! One character at a time.
ghost use Rattle.std.specs.Prelude.{◌≡◌, ℕ, ◌+◌, ◌*◌, ◌%◌, ◌^◌, ◌<◌, ◌≤◌, List, ◌∷◌, cond, drop, Decides};
ghost use Rattle.text.specs.Octets.{announced, counted, Tail, Shortest};
ghost use Rattle.text.specs.Recv.{character, text_end};

// Where the longest row of whole characters ends.
pub fn whole_characters(bytes: &[u8]) -> usize
    ensures { result ≡ text_end bytes.now }
{
    let mut at = 0;
    while let Some(length) = character_length(bytes, at) {
        at += length;
    }
    at
}

// The length of the whole character at `at`.
fn character_length(bytes: &[u8], at: usize) -> Option<usize>
    ensures { result ≡ counted (character (drop at bytes.now)) }
{
    if at >= bytes.len() {
        return None;
    }
    let first = bytes[at];
    // Most characters are of one octet.
    if first < 0x80 {
        return Some(1);
    }
    let length = sequence_length(first)?;
    // No shortest form begins with C0 or C1.
    if first == 0xC0 || first == 0xC1 {
        return None;
    }
    if bytes.len() - at < length {
        return None;
    }
    // Each length by its own number, so that the next place does not wait for the count of ones.
    match length {
        2 => two_octets(first, bytes[at + 1]).then_some(2),
        3 => three_octets(first, bytes[at + 1], bytes[at + 2]).then_some(3),
        _ => four_octets(first, bytes[at + 1], bytes[at + 2], bytes[at + 3]).then_some(4),
    }
}

// How many octets the first one announces.
#[tactic(auto, using(crate::proofs::Ones::led, crate::proofs::Ones::led_few, crate::proofs::Ones::led_many))]
fn sequence_length(first: u8) -> Option<usize>
    requires { 0x80 ≤ first }
    ensures { result ≡ counted (announced first) }
{
    match first.leading_ones() {
        length @ 2..=4 => Some(length as usize),
        _ => None,
    }
}

// Whether the octets are a character; the first is one that announces two.
fn two_octets(first: u8, second: u8) -> bool
    requires { (0xC0 ≤ first) × (first < 0xE0) }
    ensures { (rest : List ℕ) → cond result 2 0 ≡ character (first ∷ second ∷ rest) }
{
    let value = with_tail(u32::from(first & 0x1F), second);
    is_tail(second) && is_shortest_scalar(value, 0x80)
}

// Whether the octets are a character; the first is one that announces three.
fn three_octets(first: u8, second: u8, third: u8) -> bool
    requires { (0xE0 ≤ first) × (first < 0xF0) }
    ensures { (rest : List ℕ) → cond result 3 0 ≡ character (first ∷ second ∷ third ∷ rest) }
{
    let value = with_tail(with_tail(u32::from(first & 0x0F), second), third);
    is_tail(second) && is_tail(third) && is_shortest_scalar(value, 0x800)
}

// Whether the octets are a character; the first is one that announces four.
fn four_octets(first: u8, second: u8, third: u8, fourth: u8) -> bool
    requires { (0xF0 ≤ first) × (first < 0xF8) }
    ensures { (rest : List ℕ) → cond result 4 0 ≡ character (first ∷ second ∷ third ∷ fourth ∷ rest) }
{
    let high = with_tail(u32::from(first & 0x07), second);
    let value = with_tail(with_tail(high, third), fourth);
    is_tail(second) && is_tail(third) && is_tail(fourth) && is_shortest_scalar(value, 0x10000)
}

// Whether an octet continues a character: 80 to BF.
fn is_tail(octet: u8) -> bool
    ensures { Decides result (Tail octet) }
{
    octet >= 0x80 && octet <= 0xBF
}

// The bits so far, and the six of a further octet.
fn with_tail(bits: u32, octet: u8) -> u32
    requires { bits < 2 ^ 15 }
    ensures { result ≡ bits * 64 + octet % 64 }
{
    (bits << 6) | u32::from(octet & 0x3F)
}

// Whether a value needs its length, which is for `least` and above, and is a Unicode scalar value.
fn is_shortest_scalar(value: u32, least: u32) -> bool
    ensures { Decides result (Shortest least value) }
{
    value >= least && (value < 0xD800 || value > 0xDFFF) && value <= 0x10FFFF
}
