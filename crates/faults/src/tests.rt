//! Each call of a run fails in its turn, and the run tells it by its status and leaves fronts alone.
use crate::cases::{
    BENCH, BOUND, CHECKBOUND, Case, REPLAY, RESUME, SOLVE, STOP, TOUR, VERIFY, VERIFY_WITHIN,
    WITHIN,
};
use crate::runs::{Kind, count_told, is_same_by_bytes, written};
use std::alloc::Global;
use std::sync::Wait;
use std::test::Fail;
use std::thread::Threads;
use tspengine::Status;

/// Whether each failing read of a case is told, and there are some: of one file, or of two.
fn reads_are_told<R: Threads + Wait + Sync>(
    rt: &R,
    alloc: Global,
    case: &Case<'_>,
    files: u64,
) -> Result<bool, Fail> {
    match count_told(rt, alloc, case, Kind::Read)? {
        // a file is read to its end: a piece, and the read that finds no more
        Some(count) => Ok(count >= files.saturating_mul(2)),
        None => Ok(false),
    }
}

/// Whether each failing write of a case is told, and each byte of its proof and its text is a write.
fn writes_are_told<R: Threads + Wait + Sync>(
    rt: &R,
    alloc: Global,
    case: &Case<'_>,
) -> Result<bool, Fail> {
    let told = count_told(rt, alloc, case, Kind::Write)?;
    let bytes = written(rt, alloc, case)?;
    Ok(bytes > 0 && told == Some(bytes))
}

#[test]
fn failing_reads_of_an_instance_are_told(rt: HostRuntime) -> Result<(), Fail> {
    let alloc = rt.alloc();
    assert!(rt; reads_are_told(&rt, alloc, &SOLVE, 1)?, "solve");
    assert!(rt; reads_are_told(&rt, alloc, &STOP, 1)?, "stopped");
    assert!(rt; reads_are_told(&rt, alloc, &RESUME, 1)?, "resume");
    assert!(rt; reads_are_told(&rt, alloc, &WITHIN, 1)?, "within");
    assert!(rt; reads_are_told(&rt, alloc, &TOUR, 1)?, "tour");
    assert!(rt; reads_are_told(&rt, alloc, &BOUND, 1)?, "bound");
    Ok(())
}

#[test]
fn failing_reads_of_a_second_file_are_told(rt: HostRuntime) -> Result<(), Fail> {
    let alloc = rt.alloc();
    assert!(rt; reads_are_told(&rt, alloc, &VERIFY, 2)?, "verify");
    assert!(rt; reads_are_told(&rt, alloc, &VERIFY_WITHIN, 2)?, "within");
    assert!(rt; reads_are_told(&rt, alloc, &REPLAY, 2)?, "replay");
    assert!(rt; reads_are_told(&rt, alloc, &CHECKBOUND, 2)?, "checkbound");
    Ok(())
}

/// `bench` reads nothing, so no read of it can fail.
#[test]
fn bench_reads_nothing(rt: HostRuntime) -> Result<(), Fail> {
    assert_eq!(rt; count_told(&rt, rt.alloc(), &BENCH, Kind::Read)?, Some(0));
    Ok(())
}

#[test]
fn failing_writes_of_a_search_are_told(rt: HostRuntime) -> Result<(), Fail> {
    let alloc = rt.alloc();
    assert!(rt; writes_are_told(&rt, alloc, &SOLVE)?, "solve");
    assert!(rt; writes_are_told(&rt, alloc, &STOP)?, "stopped");
    assert!(rt; writes_are_told(&rt, alloc, &RESUME)?, "resume");
    assert!(rt; writes_are_told(&rt, alloc, &WITHIN)?, "within");
    Ok(())
}

#[test]
fn failing_writes_of_bench_are_told(rt: HostRuntime) -> Result<(), Fail> {
    assert!(rt; writes_are_told(&rt, rt.alloc(), &BENCH)?, "bench");
    Ok(())
}

#[test]
fn failing_writes_of_other_commands_are_told(rt: HostRuntime) -> Result<(), Fail> {
    let alloc = rt.alloc();
    assert!(rt; writes_are_told(&rt, alloc, &VERIFY)?, "verify");
    assert!(rt; writes_are_told(&rt, alloc, &VERIFY_WITHIN)?, "within");
    assert!(rt; writes_are_told(&rt, alloc, &TOUR)?, "tour");
    assert!(rt; writes_are_told(&rt, alloc, &REPLAY)?, "replay");
    assert!(rt; writes_are_told(&rt, alloc, &BOUND)?, "bound");
    assert!(rt; writes_are_told(&rt, alloc, &CHECKBOUND)?, "checkbound");
    Ok(())
}

/// Whether a case calls the slots, and each of these calls is told where it fails.
fn slots_are_told<R: Threads + Wait + Sync>(
    rt: &R,
    alloc: Global,
    case: &Case<'_>,
) -> Result<bool, Fail> {
    match count_told(rt, alloc, case, Kind::Slot)? {
        Some(count) => Ok(count > 0),
        None => Ok(false),
    }
}

#[test]
fn failing_slots_are_told(rt: HostRuntime) -> Result<(), Fail> {
    let alloc = rt.alloc();
    assert!(rt; slots_are_told(&rt, alloc, &STOP)?, "stopped");
    assert!(rt; slots_are_told(&rt, alloc, &RESUME)?, "resume");
    assert!(rt; slots_are_told(&rt, alloc, &SOLVE)?, "solve");
    assert!(rt; slots_are_told(&rt, alloc, &WITHIN)?, "within");
    Ok(())
}

#[test]
fn other_commands_leave_the_slots_alone(rt: HostRuntime) -> Result<(), Fail> {
    let alloc = rt.alloc();
    assert_eq!(rt; count_told(&rt, alloc, &VERIFY, Kind::Slot)?, Some(0));
    assert_eq!(rt; count_told(&rt, alloc, &TOUR, Kind::Slot)?, Some(0));
    assert_eq!(rt; count_told(&rt, alloc, &BENCH, Kind::Slot)?, Some(0));
    assert_eq!(rt; count_told(&rt, alloc, &REPLAY, Kind::Slot)?, Some(0));
    assert_eq!(rt; count_told(&rt, alloc, &BOUND, Kind::Slot)?, Some(0));
    assert_eq!(rt; count_told(&rt, alloc, &CHECKBOUND, Kind::Slot)?, Some(0));
    Ok(())
}

#[test]
fn a_search_byte_by_byte_is_the_same(rt: HostRuntime) -> Result<(), Fail> {
    let alloc = rt.alloc();
    assert!(rt;
        is_same_by_bytes(&rt, alloc, &SOLVE, Status::Optimal)?,
        "solve"
    );
    assert!(rt;
        is_same_by_bytes(&rt, alloc, &STOP, Status::Stopped)?,
        "stopped"
    );
    assert!(rt;
        is_same_by_bytes(&rt, alloc, &RESUME, Status::Optimal)?,
        "resume"
    );
    assert!(rt;
        is_same_by_bytes(&rt, alloc, &WITHIN, Status::Within)?,
        "within"
    );
    assert!(rt;
        is_same_by_bytes(&rt, alloc, &BENCH, Status::Benched)?,
        "bench"
    );
    Ok(())
}

#[test]
fn other_commands_byte_by_byte_are_the_same(rt: HostRuntime) -> Result<(), Fail> {
    let alloc = rt.alloc();
    assert!(rt;
        is_same_by_bytes(&rt, alloc, &VERIFY, Status::Verified)?,
        "verify"
    );
    assert!(rt;
        is_same_by_bytes(&rt, alloc, &VERIFY_WITHIN, Status::VerifiedWithin)?,
        "within"
    );
    assert!(rt;
        is_same_by_bytes(&rt, alloc, &TOUR, Status::Toured)?,
        "tour"
    );
    assert!(rt;
        is_same_by_bytes(&rt, alloc, &REPLAY, Status::Replayed)?,
        "replay"
    );
    assert!(rt;
        is_same_by_bytes(&rt, alloc, &BOUND, Status::Bounded)?,
        "bound"
    );
    assert!(rt;
        is_same_by_bytes(&rt, alloc, &CHECKBOUND, Status::Checked)?,
        "checkbound"
    );
    Ok(())
}
