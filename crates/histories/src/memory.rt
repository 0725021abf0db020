// The memory of a history: more words than a pool has, of which calls get the first ones.

// A word is put into the memory from outside, if there is such a place.
pub fn put(at: usize, word: u64, words: &mut [u64]) {
    if let Some(place) = words.get_mut(at) {
        *place = word;
    }
}

// A number that changes with any word of the memory.
pub fn checksum(words: &[u64]) -> u64 {
    words.iter().fold(0, |h, word| mixed(h, *word))
}

// 31 times what was before, its upper half and the word, wrapped.
fn mixed(h: u64, word: u64) -> u64 {
    (h << 5)
        .wrapping_sub(h)
        .wrapping_add(h >> 32)
        .wrapping_add(word)
}
