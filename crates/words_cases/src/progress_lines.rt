//! The line's text, and when a gate prints one.
use ports::{Gate, Point};
use progress::{How, Progress, Standing, text};
use std::alloc::AllocError;
use std::fmt::Display;
use std::io;
use std::io::ErrorKind;
use std::rt::Clock;
use std::sync::atomic::{AtomicU64, Ordering};
use std::time::Duration;

/// A clock that is set by hand, and fails once it stands at the end of time; and a standard error that counts what is printed.
#[derive(Drop)]
struct Outside {
    seconds: AtomicU64,
    printed: AtomicU64,
}

impl Clock for Outside {
    fn monotonic(&self) -> io::Result<Duration> {
        match self.seconds.load(Ordering::SeqCst) {
            u64::MAX => Err(io::Error::from(ErrorKind::Unsupported)),
            seconds => Ok(Duration::from_secs(seconds)),
        }
    }

    fn since_1970(&self) -> io::Result<Duration> {
        self.monotonic()
    }
}

impl Eprint for Outside {
    fn eprint<D: Display + Drop>(&self, _value: D) -> io::Result<()> {
        self.printed.fetch_add(1, Ordering::SeqCst);
        Ok(())
    }

    fn eprintln<D: Display + Drop>(&self, value: D) -> io::Result<()> {
        self.eprint(value)
    }
}

/// How many lines a gate has printed once it was told at each of these seconds.
fn lines_printed(rt: &impl AllocGlobal, how: How, seconds: &[u64]) -> u64 {
    let outside = Outside {
        seconds: AtomicU64::new(1000),
        printed: AtomicU64::new(0),
    };
    let progress = Progress::new(rt.alloc(), &outside, how);
    for second in seconds {
        outside
            .seconds
            .store(second.saturating_add(1000), Ordering::SeqCst);
        progress.pass(1, 0, Point::AfterReport);
        progress.stands(40, 1, 0, None);
    }
    outside.printed.load(Ordering::SeqCst)
}

#[test]
fn the_line_of_a_search(rt: HostRuntime) -> Result<(), AllocError> {
    let standing = Standing {
        seconds: 12,
        settled: 34,
        open: 5,
        best: 7542,
        bound: Some(7500),
    };
    let line = text(rt.alloc(), &standing)?;
    assert_eq!(rt;
        line.as_str(),
        "12 s: settled 34, open 5, best 7542, estimated bound 7500, gap 0.55 %"
    );
    Ok(())
}

#[test]
fn the_line_of_a_search_without_a_bound(rt: HostRuntime) -> Result<(), AllocError> {
    let standing = Standing {
        seconds: 1,
        settled: 0,
        open: 1,
        best: 40,
        bound: None,
    };
    let line = text(rt.alloc(), &standing)?;
    assert_eq!(rt; line.as_str(), "1 s: settled 0, open 1, best 40");
    Ok(())
}

#[test]
fn on_a_terminal_a_line_a_second(rt: HostRuntime) {
    assert_eq!(rt; lines_printed(&rt, How::InPlace, &[0, 0, 1, 1, 2, 5]), 3);
}

#[test]
fn elsewhere_a_line_each_half_minute(rt: HostRuntime) {
    assert_eq!(rt; lines_printed(&rt, How::Lines, &[0, 29, 30, 31, 59, 60]), 2);
}

#[test]
fn no_line_where_none_is_wanted(rt: HostRuntime) {
    assert_eq!(rt; lines_printed(&rt, How::Silent, &[0, 30, 60]), 0);
}

#[test]
fn no_line_where_the_clock_fails(rt: HostRuntime) {
    assert_eq!(rt; lines_printed(&rt, How::InPlace, &[u64::MAX, u64::MAX]), 0);
}

/// A gate that threads can share.
fn is_shared<T: Sync>(_gate: &T) -> bool {
    true
}

#[test]
fn threads_share_a_gate(rt: HostRuntime) -> Result<(), AllocError> {
    let progress = Progress::new(rt.alloc(), rt.clone()?, How::Silent);
    assert!(rt; is_shared(&progress));
    Ok(())
}
