//! The lines of replies, as they are read, and which lines were heard.

use bossx::{Asked, Expiry, Offered, Reply, Reported};
use std::alloc::Global;
use std::test::Fail;

fn own(alloc: Global, text: &str) -> Result<String, Fail> {
    Ok(format!(in alloc; "{text}\n")?)
}

fn asked_line(alloc: Global, asked: Asked) -> Result<String, Fail> {
    match asked {
        Asked::Done => own(alloc, "DONE"),
        Asked::Spent => own(alloc, "SPENT"),
        Asked::Home => own(alloc, "HOME"),
        Asked::NotYet => own(alloc, "NOTYET"),
        Asked::Leased { lease, node, best } => {
            Ok(format!(in alloc; "LEASED {lease} {node} {best}\n")?)
        }
    }
}

fn reported_line(alloc: Global, reported: Reported) -> Result<String, Fail> {
    match reported {
        Reported::Unknown => own(alloc, "UNKNOWN"),
        Reported::Stale => own(alloc, "STALE"),
        Reported::Spent => own(alloc, "SPENT"),
        Reported::Misfit(k) => Ok(format!(in alloc; "MISFIT {k}\n")?),
        Reported::Weak { bound, needed } => Ok(format!(in alloc; "WEAK {bound} {needed}\n")?),
        Reported::Taken => own(alloc, "TAKEN"),
    }
}

fn offered_line(alloc: Global, offered: Offered) -> Result<String, Fail> {
    match offered {
        Offered::OtherSize => own(alloc, "OTHERSIZE"),
        Offered::OffFixed(u, v) => {
            let (first, second) = (u.saturating_add(1), v.saturating_add(1));
            Ok(format!(in alloc; "OFFFIXED {first} {second}\n")?)
        }
        Offered::NotShorter(length) => Ok(format!(in alloc; "NOTSHORTER {length}\n")?),
        Offered::Better => own(alloc, "BETTER"),
    }
}

/// The line of a reply.
pub(super) fn line_of(alloc: Global, reply: Reply) -> Result<String, Fail> {
    match reply {
        Reply::Asked(asked) => asked_line(alloc, asked),
        Reply::Reported(reported) => reported_line(alloc, reported),
        Reply::Went(None) => own(alloc, "NONE"),
        Reply::Went(Some(lease)) => Ok(format!(in alloc; "LOST {lease}\n")?),
        Reply::Expired(Expiry::Unknown) => own(alloc, "UNKNOWN"),
        Reply::Expired(Expiry::NotHeld) => own(alloc, "NOTHELD"),
        Reply::Expired(Expiry::Expired) => own(alloc, "EXPIRED"),
        Reply::Offered(offered) => offered_line(alloc, offered),
    }
}

/// Begins of lines. Home is none of them, since it takes 256 lost leases; nor are the misfits of what no text can say.
const HEADS: [&str; 26] = [
    "DONE\n",
    "SPENT\n",
    "NOTYET\n",
    "LEASED 0 0 ",
    "LEASED 9 ",
    "UNKNOWN\n",
    "STALE\n",
    "MISFIT 3\n",
    "MISFIT 4\n",
    "MISFIT 5\n",
    "MISFIT 6\n",
    "WEAK -",
    "WEAK 4",
    "TAKEN\n",
    "NONE\n",
    "LOST ",
    "NOTHELD\n",
    "EXPIRED\n",
    "OFFFIXED 1 3\n",
    "NOTSHORTER ",
    "BETTER\n",
    "FRAME 1 ",
    "FRAME 2 ",
    "FRAME 3 ",
    "FRAME 4 ",
    "FRAME 5 ",
];

/// Which of the begins were heard, by bits.
#[derive(Drop)]
pub(super) struct Tally {
    pub heard: u32,
}

impl Tally {
    /// Notes a line.
    pub(super) fn note(&mut self, line: &str) {
        let mut bit = 1u32;
        for head in HEADS {
            if line.starts_with(head) {
                self.heard |= bit;
            }
            bit = bit.wrapping_shl(1);
        }
    }
}

/// The tally in which each begin was heard.
pub(super) const ALL_HEARD: u32 = (1 << 26) - 1;
