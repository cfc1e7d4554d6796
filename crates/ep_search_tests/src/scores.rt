//! What the guides score.

use ep_guide::{ByDepth, ByUnmet, ByWorlds, Guide, View};
use std::process::Abort;
use std::test::Fail;

// Depth, worlds and unmet parts.
const VIEWS: [(u32, u32, u32); 8] = [
    (0, 4, 3),
    (1, 2, 3),
    (5, 1, 2),
    (2, 9, 3),
    (3, 1, 0),
    (3, 1, 0),
    (700, 1, 1),
    (u32::MAX, u32::MAX, u32::MAX),
];

fn view(depth: u32, worlds: u32, unmet: u32) -> View {
    View {
        depth,
        worlds,
        designated: 1,
        unmet,
        parts: 3,
    }
}

// What the guide scores the views, one after another.
fn check(rt: &impl Abort, guide: &mut Box<dyn Guide>, wanted: &[u64; 8]) {
    for ((depth, worlds, unmet), score) in VIEWS.iter().zip(wanted) {
        assert_eq!(rt; guide.score(&view(*depth, *worlds, *unmet)), *score);
        guide.met(*depth);
    }
}

#[test]
fn by_depth_scores_the_depth(rt: HostRuntime) -> Result<(), Fail> {
    let mut guide: Box<dyn Guide> = Box::new(rt.alloc(), ByDepth::new())?;
    check(&rt, &mut guide, &[0, 1, 5, 2, 3, 3, 700, 4_294_967_295]);
    Ok(())
}

#[test]
fn by_worlds_scores_the_worlds(rt: HostRuntime) -> Result<(), Fail> {
    let mut guide: Box<dyn Guide> = Box::new(rt.alloc(), ByWorlds::new())?;
    check(&rt, &mut guide, &[4, 2, 1, 9, 1, 1, 1, 4_294_967_295]);
    Ok(())
}

// A first view whose unmet parts are fewest is preferred.
#[test]
fn by_unmet_scores_the_unmet_parts_and_the_depth(rt: HostRuntime) -> Result<(), Fail> {
    let mut guide: Box<dyn Guide> = Box::new(rt.alloc(), ByUnmet::new())?;
    let wanted = [2_560, 3_073, 1_541, 3_074, 0, 3, 1_724, 4_402_341_477_375];
    check(&rt, &mut guide, &wanted);
    Ok(())
}

// A first view whose unmet parts are the greatest number is not below it.
#[test]
fn the_greatest_number_unmet_is_not_preferred(rt: HostRuntime) {
    let mut guide = ByUnmet::new();
    assert_eq!(rt; guide.score(&view(0, 1, u32::MAX)), 4_398_046_510_080);
    assert_eq!(rt; guide.score(&view(0, 1, u32::MAX - 1)), 4_398_046_508_544);
}
