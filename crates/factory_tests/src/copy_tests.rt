//! Copies of factories make what their originals make.

use crate::configuring::{adds, adds_once_ready, frees, quarters, says, tells, tells_half};
use crate::factory_tests::changed_make_the_same;
use crate::makers::made_at_once;
use crate::making::Asked;
use crate::pairing::{chained, handed};
use crate::services::{digit, echo};
use crate::shown::{hold, holds};
use crate::words::stepping;
use std::test::Fail;

#[test]
fn copies_of_changed_factories_make_what_their_originals_make(rt: HostRuntime) -> Result<(), Fail> {
    holds(&rt, changed_make_the_same(&rt, 3, 5, 11))
}

#[test]
fn copies_of_pairs_of_factories_make_what_their_originals_make(
    rt: HostRuntime,
) -> Result<(), Fail> {
    let cfg = stepping(3);
    let one = digit(10, 1);
    let two = digit(10, 2);
    let answer = Asked::Served(8, Ok(845));
    hold(
        &rt,
        &[
            chained(&rt, made_at_once(one), made_at_once(two), &cfg, &answer),
            handed(&rt, made_at_once(one), made_at_once(two), &cfg, &answer),
        ],
    )
}

#[test]
fn copies_over_configurations_make_what_their_originals_make(rt: HostRuntime) -> Result<(), Fail> {
    let half = made_at_once(echo());
    hold(
        &rt,
        &[
            tells_half(&rt, half, &stepping(8), &Asked::Served(0, Ok(4))),
            frees(
                &rt,
                made_at_once(echo()),
                &stepping(3),
                &Asked::Served(8, Ok(8)),
            ),
        ],
    )
}

#[test]
fn copies_of_factories_of_closures_make_what_their_originals_make(
    rt: HostRuntime,
) -> Result<(), Fail> {
    hold(
        &rt,
        &[
            says(&rt, &stepping(3), &Asked::Served(7, Ok(74))),
            tells(&rt, &stepping(3), &Asked::Served(7, Ok(73))),
        ],
    )
}

#[test]
fn copies_of_applied_factories_make_what_their_originals_make(rt: HostRuntime) -> Result<(), Fail> {
    let answer = Asked::Served(8, Ok(11));
    let made = made_at_once(echo());
    hold(
        &rt,
        &[
            adds(&rt, &stepping(3), &answer),
            adds_once_ready(&rt, made, &stepping(3), &answer),
        ],
    )
}

#[test]
fn a_copy_of_an_applied_factory_makes_what_its_original_makes(rt: HostRuntime) -> Result<(), Fail> {
    let answer = Asked::Served(8, Ok(5));
    holds(
        &rt,
        quarters(&rt, made_at_once(echo()), &stepping(3), &answer),
    )
}
