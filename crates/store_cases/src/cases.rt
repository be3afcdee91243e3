//! What is done with an office without requests.
use crate::runs::sample_desk;
use crate::{calls, streams};
use std::alloc::Global;

fn holds(alloc: Global) -> bool {
    match sample_desk(alloc) {
        Some(desk) => calls::all_hold(&desk) && streams::all_hold(&desk),
        None => false,
    }
}

#[test]
fn an_office_takes_calls_and_streams(rt: HostRuntime) {
    assert!(rt; holds(rt.alloc()));
}
