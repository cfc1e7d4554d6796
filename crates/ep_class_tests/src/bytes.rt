// Bytes of states, canonical or not, written, compared and read.

use crate::contractions::line;
use crate::made::{ALL_OF_TWO, Given, contracted, state};
use ep_bytes::{ReadError, read_state, write_state};
use ep_canon::{Canon, CanonError, same};
use ep_kripke::State;
use ep_logic::{List, OutOfMemory};
use std::alloc::Global;
use std::process::Abort;
use std::test::Fail;

const LONE: Given<'static> = Given {
    agents: 2,
    atoms: 1,
    worlds: &[&[0]],
    links: &[(0, 0, 0), (1, 0, 0)],
    designated: &[0],
};

const COIN: Given<'static> = Given {
    agents: 2,
    atoms: 1,
    worlds: &[&[0], &[]],
    links: ALL_OF_TWO,
    designated: &[0],
};

// Each world of the coin twice.
const COIN_TWICE: Given<'static> = Given {
    agents: 2,
    atoms: 1,
    worlds: &[&[0], &[], &[0], &[]],
    links: &[
        (0, 0, 0),
        (0, 0, 1),
        (0, 1, 2),
        (0, 1, 3),
        (0, 2, 2),
        (0, 2, 3),
        (0, 3, 2),
        (0, 3, 1),
        (1, 0, 0),
        (1, 0, 1),
        (1, 1, 0),
        (1, 1, 1),
        (1, 2, 0),
        (1, 2, 3),
        (1, 3, 0),
        (1, 3, 3),
    ],
    designated: &[2],
};

// The first agent has looked at the coin.
const PEEKED: Given<'static> = Given {
    agents: 2,
    atoms: 1,
    worlds: &[&[0], &[]],
    links: &[
        (0, 0, 0),
        (0, 1, 1),
        (1, 0, 0),
        (1, 0, 1),
        (1, 1, 0),
        (1, 1, 1),
    ],
    designated: &[0],
};

// Chains of worlds without atoms, from the designated one on.
const THREE: Given<'static> = Given {
    agents: 1,
    atoms: 0,
    worlds: &[&[], &[], &[]],
    links: &[(0, 0, 1), (0, 1, 2)],
    designated: &[0],
};

const FOUR: Given<'static> = Given {
    agents: 1,
    atoms: 0,
    worlds: &[&[], &[], &[], &[]],
    links: &[(0, 0, 1), (0, 1, 2), (0, 2, 3)],
    designated: &[0],
};

const NINE: Given<'static> = Given {
    agents: 1,
    atoms: 0,
    worlds: &[&[], &[], &[], &[], &[], &[], &[], &[], &[]],
    links: &[
        (0, 0, 1),
        (0, 1, 2),
        (0, 2, 3),
        (0, 3, 4),
        (0, 4, 5),
        (0, 5, 6),
        (0, 6, 7),
        (0, 7, 8),
    ],
    designated: &[0],
};

// A state without links, with more atoms than a byte tells, and no agent.
const MANY_ATOMS: Given<'static> = Given {
    agents: 0,
    atoms: 256,
    worlds: &[&[0]],
    links: &[],
    designated: &[0],
};

const BYTES: [(Given<'static>, &[u8]); 5] = [
    (LONE, &[0, 1, 2, 0, 1, 1, 1, 1, 1]),
    (COIN, &[0, 2, 2, 0, 1, 0, 1, 3, 3, 3, 3, 2]),
    (PEEKED, &[0, 2, 2, 0, 1, 0, 1, 1, 2, 3, 3, 2]),
    (THREE, &[0, 3, 1, 0, 0, 0, 1, 2, 4]),
    (
        NINE,
        &[
            0, 9, 1, 0, 0, 0, 0, 1, 0, 2, 0, 4, 0, 8, 0, 16, 0, 32, 0, 64, 0, 128, 0, 0, 1,
        ],
    ),
];

fn bytes_of(rt: &impl Abort, alloc: Global, given: &Given<'_>) -> Result<List<u8>, Fail> {
    let s = state(rt, alloc, given)?;
    let canon = contracted(rt, alloc, &s)?;
    Ok(canon.bytes(alloc)?)
}

#[test]
fn bytes_of_contractions(rt: HostRuntime) -> Result<(), Fail> {
    for (given, wanted) in BYTES {
        let bytes = bytes_of(&rt, rt.alloc(), &given)?;
        assert_eq!(rt; bytes.as_slice(), wanted);
    }
    Ok(())
}

#[test]
fn bytes_of_256_atoms(rt: HostRuntime) -> Result<(), Fail> {
    let bytes = bytes_of(&rt, rt.alloc(), &MANY_ATOMS)?;
    let bytes = bytes.as_slice();
    assert_eq!(rt; bytes.len(), 38);
    assert_eq!(rt; &bytes[..7], [0, 1, 0, 1, 0, 1, 0].as_slice());
    assert_eq!(rt; bytes[37], 1);
    Ok(())
}

const PAIRS: [(Given<'static>, Given<'static>, bool); 6] = [
    (COIN, COIN_TWICE, true),
    (COIN, PEEKED, false),
    (THREE, FOUR, false),
    (THREE, THREE, true),
    (LONE, COIN, false),
    // Another number of agents.
    (MANY_ATOMS, THREE, false),
];

fn check_same(
    rt: &impl Abort,
    alloc: Global,
    first: &State,
    second: &State,
    wanted: bool,
) -> Result<(), OutOfMemory> {
    assert!(rt; first.worlds() <= 4096 && second.worlds() <= 4096);
    let found = same(alloc, first, second)?;
    assert_eq!(rt; found, wanted);
    Ok(())
}

#[test]
fn bisimilar_or_not(rt: HostRuntime) -> Result<(), Fail> {
    for (first, second, wanted) in PAIRS {
        let first = state(&rt, rt.alloc(), &first)?;
        let second = state(&rt, rt.alloc(), &second)?;
        check_same(&rt, rt.alloc(), &first, &second, wanted)?;
    }
    Ok(())
}

// The bytes, whose second tells the worlds, are read and written again.
fn check_read(rt: &impl Abort, alloc: Global, bytes: &[u8]) -> Result<(), CanonError> {
    assert!(rt; bytes.len() > 1);
    let canon = Canon::read(alloc, bytes)?;
    assert_eq!(rt; canon.state().worlds(), u32::from(bytes[1]));
    let again = canon.bytes(alloc)?;
    assert_eq!(rt; again.as_slice(), bytes);
    Ok(())
}

#[test]
fn bytes_are_read_and_written_again(rt: HostRuntime) -> Result<(), Fail> {
    for (_given, bytes) in BYTES {
        check_read(&rt, rt.alloc(), bytes)?;
    }
    Ok(())
}

#[test]
fn bytes_of_256_atoms_are_read(rt: HostRuntime) -> Result<(), Fail> {
    let many = bytes_of(&rt, rt.alloc(), &MANY_ATOMS)?;
    let canon = Canon::read(rt.alloc(), many.as_slice())?;
    assert_eq!(rt; canon.state().atoms(), 256);
    Ok(())
}

const NOT_CANONICAL: [&[u8]; 12] = [
    &[],
    // Worlds in another order.
    &[0, 2, 2, 0, 1, 1, 0, 3, 3, 3, 3, 1],
    // A bit past the last atom, past the last successor and past the last world.
    &[0, 1, 2, 0, 1, 3, 1, 1, 1],
    &[0, 1, 2, 0, 1, 1, 3, 1, 1],
    &[0, 1, 2, 0, 1, 1, 1, 1, 3],
    // No world is designated, and no world at all.
    &[0, 1, 2, 0, 1, 1, 1, 1, 0],
    &[0, 0, 2, 0, 1],
    // A world that is not reached, and two worlds that are bisimilar.
    &[0, 2, 0, 0, 1, 0, 1, 1],
    &[0, 2, 0, 0, 0, 3],
    // Nine agents, more worlds than there may be, and the greatest numbers.
    &[0, 1, 9, 0, 0, 0, 0, 0, 0, 0, 0, 0, 0, 0, 1],
    &[16, 1, 0, 0, 0, 1],
    &[255, 255, 255, 255, 255],
];

fn is_refused(alloc: Global, bytes: &[u8]) -> bool {
    Canon::read(alloc, bytes).err() == Some(CanonError::NotCanonical)
}

#[test]
fn bytes_that_are_not_canonical_are_refused(rt: HostRuntime) {
    for bytes in NOT_CANONICAL {
        assert!(rt; is_refused(rt.alloc(), bytes), "{bytes:?}");
    }
}

#[test]
fn bytes_cut_short_or_longer_are_refused(rt: HostRuntime) -> Result<(), Fail> {
    for (_given, bytes) in BYTES {
        for n in 0..bytes.len() {
            assert!(rt; is_refused(rt.alloc(), &bytes[..n]), "{n} of {bytes:?}");
        }
        let mut longer = Vec::from_slice(rt.alloc(), bytes)?;
        longer.push(0)?;
        assert!(rt; is_refused(rt.alloc(), &longer), "{longer:?}");
    }
    Ok(())
}

// A lone world, and one that is not reached.
const LONE_OF_TWO: Given<'static> = Given {
    agents: 2,
    atoms: 1,
    worlds: &[&[0], &[]],
    links: &[(0, 0, 0), (0, 1, 1), (1, 0, 0), (1, 1, 1)],
    designated: &[0],
};

// States that are not canonical, and their bytes.
const PLAIN: [(Given<'static>, &[u8]); 3] = [
    (LONE_OF_TWO, &[0, 2, 2, 0, 1, 1, 0, 1, 2, 1, 2, 1]),
    (COIN, &[0, 2, 2, 0, 1, 1, 0, 3, 3, 3, 3, 1]),
    (
        NINE,
        &[
            0, 9, 1, 0, 0, 2, 0, 4, 0, 8, 0, 16, 0, 32, 0, 64, 0, 128, 0, 0, 1, 0, 0, 1, 0,
        ],
    ),
];

fn plain_bytes(rt: &impl Abort, alloc: Global, s: &State) -> Result<List<u8>, OutOfMemory> {
    assert!(rt; s.worlds() <= 4096);
    write_state(alloc, s)
}

// What is read has these bytes again, and one world fewer is too few.
fn check_plain(rt: &impl Abort, alloc: Global, bytes: &[u8], worlds: u32) -> Result<(), ReadError> {
    assert!(rt; 0 < worlds && worlds <= 4096);
    let s = read_state(alloc, bytes, worlds)?;
    assert_eq!(rt; s.worlds(), worlds);
    let again = plain_bytes(rt, alloc, &s)?;
    assert_eq!(rt; again.as_slice(), bytes);
    let fewer = read_state(alloc, bytes, worlds - 1);
    assert!(rt; fewer.err() == Some(ReadError::NoState));
    Ok(())
}

#[test]
fn bytes_of_states_that_are_not_canonical(rt: HostRuntime) -> Result<(), Fail> {
    for (given, wanted) in PLAIN {
        let s = state(&rt, rt.alloc(), &given)?;
        let bytes = plain_bytes(&rt, rt.alloc(), &s)?;
        assert_eq!(rt; bytes.as_slice(), wanted);
        check_plain(&rt, rt.alloc(), wanted, s.worlds())?;
    }
    Ok(())
}

// The bytes of a line of 70 worlds with one atom, whose first agent links each world to the next: one bit a link, one
// for the designated world, and three bytes of the numbers that are not 0.
fn check_line_of_70(rt: &impl Abort, bytes: &[u8]) {
    assert_eq!(rt; bytes.len(), 1344);
    assert_eq!(rt; &bytes[..5], [0, 70, 2, 0, 1].as_slice());
    for w in 1..70usize {
        assert_eq!(rt;
            bytes[75 + 9 * (w - 1) + w / 8],
            1u8 << (w % 8),
            "world {w}"
        );
    }
    assert_eq!(rt; bytes[1335], 1);
    assert_eq!(rt; bytes.iter().filter(|byte| **byte != 0).count(), 73);
}

#[test]
fn bytes_of_rows_longer_than_a_word(rt: HostRuntime) -> Result<(), Fail> {
    let s = line(&rt, rt.alloc(), 70, false)?;
    let bytes = plain_bytes(&rt, rt.alloc(), &s)?;
    check_line_of_70(&rt, bytes.as_slice());
    check_plain(&rt, rt.alloc(), bytes.as_slice(), 70)?;
    Ok(())
}
