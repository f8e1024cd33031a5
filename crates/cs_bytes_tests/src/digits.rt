//! Words sorted digit by digit, beside std's sort of the same words.

use cs_order::digits::*;
use std::alloc::{AllocError, Global};

/// Words as a row of the table tells them.
#[derive(Clone, Copy)]
struct Words {
    /// How many they are.
    count: usize,
    /// How many bits the place takes.
    bits: u32,
    /// How many bits stand above it.
    rank_bits: u32,
    /// How many words there are of one place: where there are more than one, words don't hold their own places.
    at_a_place: usize,
}

/// A row of the table.
fn words_of(count: usize, bits: u32, rank_bits: u32, at_a_place: usize) -> Words {
    Words {
        count,
        bits,
        rank_bits,
        at_a_place,
    }
}

/// So many words, whose ranks jump about, each above its place.
fn made(alloc: Global, row: &Words) -> Result<Vec<usize>, AllocError> {
    let mut words = Vec::with_capacity(alloc, row.count)?;
    let ranks = 1usize << (row.rank_bits % 64);
    let mut seed = 1usize;
    for at in 0..row.count {
        seed = seed
            .wrapping_mul(6_364_136_223_846_793_005)
            .wrapping_add(1_442_695_040_888_963_407);
        let rank = (seed >> 11) % ranks.max(1);
        words.push((rank << (row.bits % 64)) | (at / row.at_a_place.max(1)))?;
    }
    Ok(words)
}

/// Whether the words are sorted as std's sort does it.
fn sorts(alloc: Global, row: &Words) -> Result<bool, AllocError> {
    let mut words = made(alloc, row)?;
    let mut expected = Vec::from_slice(alloc, words.as_slice())?;
    expected.sort_unstable();
    sort(alloc, &mut words, row.bits % 64);
    Ok(words == expected)
}

// No word. Too few words for a pass, and as many as it takes. Words of two passes, too few for two, and too many. Words of one wide
// digit, and of one bit more. Words of three passes, and of so many that std's sort does it. Words all of one rank. Words that don't
// hold their own places, since two have one place and since a place takes more bits than are told. The most words that go digit by
// digit. More words of few ranks, each of which comes often, which are dealt into one bucket and into two.
#[test]
fn sorts_as_std_does(rt: HostRuntime) {
    let rows = [
        words_of(0, 0, 8, 1),
        words_of(511, 9, 10, 1),
        words_of(512, 9, 11, 1),
        words_of(2_000, 11, 22, 1),
        words_of(1_023, 10, 22, 1),
        words_of(16_385, 15, 22, 1),
        words_of(10_000, 14, 14, 1),
        words_of(10_000, 14, 15, 1),
        words_of(2_000, 11, 33, 1),
        words_of(2_000, 11, 53, 1),
        words_of(1_000, 10, 0, 1),
        words_of(1_000, 10, 11, 3),
        words_of(1_000, 8, 11, 1),
        words_of(200_000, 18, 11, 1),
        words_of(200_001, 18, 11, 1),
        words_of(250_000, 18, 12, 1),
    ];
    for row in &rows {
        assert!(rt; sorts(rt.alloc(), row) == Ok(true));
    }
}

/// So many words, whose ranks jump about among so many, no rank twice where the step shares no divisor with these. Every second one
/// stands so many ranks further.
fn made_once(
    alloc: Global,
    count: usize,
    ranks: usize,
    step: usize,
    further: usize,
) -> Result<Vec<usize>, AllocError> {
    let mut words = Vec::with_capacity(alloc, count)?;
    for at in 0..count {
        let rank = (at.wrapping_mul(step) % ranks.max(1)).wrapping_add(
            (at % 2).wrapping_mul(further),
        );
        words.push((rank << 18) | at)?;
    }
    Ok(words)
}

/// Whether words of two clusters so far apart are sorted as std's sort does it.
fn sorts_clusters(
    alloc: Global,
    count: usize,
    ranks: usize,
    step: usize,
    further: usize,
) -> Result<bool, AllocError> {
    let mut words = made_once(alloc, count, ranks, step, further)?;
    let mut expected = Vec::from_slice(alloc, words.as_slice())?;
    expected.sort_unstable();
    sort(alloc, &mut words, 18);
    Ok(words == expected)
}

/// How many words there are, among how many ranks, in what steps, and how far apart two clusters are.
type Clusters = (usize, usize, usize, usize);

/// Whether words of each are sorted so.
fn sort_all(alloc: Global, rows: &[Clusters]) -> Result<bool, AllocError> {
    let mut all = true;
    for (count, ranks, step, further) in rows {
        all = sorts_clusters(alloc, *count, *ranks, *step, *further)? && all;
    }
    Ok(all)
}

// Too few words to note their places, and as many as it takes. No rank left out. As many left out as there are words, and more.
// Words in order already. One rank that comes twice, at the last word. The most words whose places are noted, and one more.
// More words, which stand mixed, and which don't.
const ONCE: [Clusters; 11] = [
    (63, 64, 7, 0),
    (64, 64, 7, 0),
    (10_000, 10_000, 7_919, 0),
    (1_000, 2_001, 7, 0),
    (1_000, 2_003, 7, 0),
    (1_000, 1_000, 1, 0),
    (1_001, 1_000, 7, 0),
    (200_000, 200_003, 7_919, 0),
    (200_001, 200_003, 7_919, 0),
    (250_000, 300_007, 7_919, 0),
    (250_000, 300_007, 1, 4),
];

#[test]
fn sorts_ranks_that_come_once(rt: HostRuntime) {
    assert!(rt; sort_all(rt.alloc(), &ONCE) == Ok(true));
}

// Two clusters near one another. Two so far apart that they are sections of their own, of words whose places are noted, and of more
// words, which are dealt. So many ranks that more of them than words would be left out, which the first words tell alone, and
// which the later ones do.
const APART: [Clusters; 6] = [
    (10_000, 10_007, 7_919, 20_000),
    (10_000, 10_007, 7_919, 1 << 30),
    (100_000, 100_003, 7_919, 1 << 30),
    (250_000, 250_007, 7_919, 1 << 30),
    (10_000, 1 << 40, 7_919_000_003, 1 << 41),
    (10_000, 1 << 40, 2, 1 << 41),
];

#[test]
fn sorts_ranks_in_clusters(rt: HostRuntime) {
    assert!(rt; sort_all(rt.alloc(), &APART) == Ok(true));
}
