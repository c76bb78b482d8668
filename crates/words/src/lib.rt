// Words as bytes: two bytes to a word, low byte first. Each function is total: past the end of some bytes stand zeros. And the larger and the
// smaller of two numbers.
#![tactic(auto)]

ghost use Rattle.std.specs.Prelude.{◌≡◌, ℕ, max, min, ◌+◌, ◌*◌, ◌/◌, ◌%◌, ◌<◌, length, get_or};
ghost use Rattle.lists.specs.Bytes.{byte_values, word_at, words_of};
ghost use Rattle.words.specs.Transfer.{words_into, bytes_into, copied_into};

// Byte i, as a number.
pub fn byte_at(bytes: &[u8], i: usize) -> usize
    ensures { (result ≡ get_or bytes.now i 0) × (result < byte_values) }
{
    usize::from(bytes.get(i).copied().unwrap_or(0))
}

// The word at a place, as a number.
pub fn word_at(bytes: &[u8], at: usize) -> usize
    ensures { (result ≡ word_at bytes.now at) × (result < 65536) }
{
    if at < bytes.len() {
        byte_at(bytes, at) + 256 * byte_at(bytes, at + 1)
    } else {
        0
    }
}

// The low byte of a word.
pub fn low(word: u16) -> u8
    ensures { result ≡ word % 256 }
{
    word.to_le_bytes()[0]
}

// The high byte of a word.
pub fn high(word: u16) -> u8
    ensures { result ≡ word / 256 }
{
    word.to_le_bytes()[1]
}

// The words of some bytes, as many as the slice takes, zeros after them. No test stands in the loop, so that LLVM takes several words at a
// time. A proof sees nothing of what a `zip` over `iter_mut` has written, so the loop writes by index.
pub fn read_words(bytes: &[u8], words: &mut [u16])
    ensures { words.new ≡ words_into (length words.old) bytes.now }
{
    let (pairs, _) = bytes.as_chunks::<2>();
    let n = words.len().min(pairs.len());
    for (k, pair) in pairs[..n].iter().enumerate() {
        words[k] = u16::from_le_bytes(*pair);
    }
    words[n..].fill(0);
}

// The bytes of some words, in a slice of exactly so many bytes; nothing in another.
pub fn write_words(words: &[u16], bytes: &mut [u8])
    ensures { bytes.new ≡ bytes_into words.now bytes.old }
{
    if bytes.len() % 2 == 1 {
        return;
    }
    if bytes.len() / 2 != words.len() {
        return;
    }
    for (k, word) in words.iter().enumerate() {
        let [low, high] = word.to_le_bytes();
        bytes[2 * k] = low;
        bytes[2 * k + 1] = high;
    }
}

// The words of a slice, in another of as many; nothing in one of another length.
pub fn copy(from: &[u16], to: &mut [u16])
    ensures { to.new ≡ copied_into from.now to.old }
{
    if from.len() == to.len() {
        to.copy_from_slice(from);
    }
}

// The larger of two numbers.
pub fn larger(a: usize, b: usize) -> usize
    ensures { result ≡ max a b }
{
    a.max(b)
}

// The smaller of two numbers.
pub fn smaller(a: usize, b: usize) -> usize
    ensures { result ≡ min a b }
{
    a.min(b)
}
