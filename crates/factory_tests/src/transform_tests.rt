//! What the combinator of transforms wraps.

use crate::making::Asked;
use crate::shown::{hold, holds};
use crate::transforms::{blamed, built_wraps};
use crate::words::{Denial, Failure};
use crate::wrapping::{Asking, times};
use std::test::Fail;

#[test]
fn map_init_err_changes_what_comes_in_place_of_a_wrapped_service(
    rt: HostRuntime,
) -> Result<(), Fail> {
    let refusing = Asking {
        is_broken: true,
        ..times(1)
    };
    let broken = Asked::Denied(Failure::Broken);
    let renamed = Asked::Denied(Denial::First);
    let answer = Asked::Served(7, Ok(7));
    hold(
        &rt,
        &[
            built_wraps(&rt, Ok(refusing), &broken),
            blamed(&rt, refusing, &renamed),
            blamed(&rt, times(1), &answer),
        ],
    )
}

#[test]
fn a_shared_transform_wraps_as_its_transform(rt: HostRuntime) -> Result<(), Fail> {
    holds(&rt, blamed(&rt, times(2), &Asked::Served(7, Ok(14))))
}

#[test]
fn a_copy_of_a_changed_transform_wraps_as_its_original(rt: HostRuntime) -> Result<(), Fail> {
    holds(&rt, blamed(&rt, times(3), &Asked::Served(7, Ok(21))))
}
