//! The lines of replies.
ghost use Rattle.std.specs.Prelude.{◌≡◌, IfOk};
ghost use Rattle.tapeboss.specs.Replies as lines;

use bossx::{Asked, Expiry, Offered, Reply, Reported};
use std::alloc::{AllocError, Global};

/// The line of a reply.
pub(crate) fn reply_line(alloc: Global, reply: Reply) -> Result<Vec<u8>, AllocError>
    ensures { IfOk result (λ t. t.items ≡ lines.reply_line reply) }
{
    match reply {
        Reply::Asked(asked) => asked_line(alloc, asked),
        Reply::Reported(reported) => reported_line(alloc, reported),
        Reply::Went(lease) => gone_line(alloc, lease),
        Reply::Expired(expiry) => expiry_line(alloc, expiry),
        Reply::Offered(offered) => offered_line(alloc, offered),
    }
}

fn asked_line(alloc: Global, asked: Asked) -> Result<Vec<u8>, AllocError>
    ensures { IfOk result (λ t. t.items ≡ lines.asked_line asked) }
{
    match asked {
        Asked::Done => Ok(format!(in alloc; "DONE\n")?.into_bytes()),
        Asked::Spent => Ok(format!(in alloc; "SPENT\n")?.into_bytes()),
        Asked::Home => Ok(format!(in alloc; "HOME\n")?.into_bytes()),
        Asked::NotYet => Ok(format!(in alloc; "NOTYET\n")?.into_bytes()),
        Asked::Leased { lease, node, best } => leased_line(alloc, lease, node, best),
    }
}

fn reported_line(alloc: Global, reported: Reported) -> Result<Vec<u8>, AllocError>
    ensures { IfOk result (λ t. t.items ≡ lines.reported_line reported) }
{
    match reported {
        Reported::Unknown => Ok(format!(in alloc; "UNKNOWN\n")?.into_bytes()),
        Reported::Stale => Ok(format!(in alloc; "STALE\n")?.into_bytes()),
        Reported::Spent => Ok(format!(in alloc; "SPENT\n")?.into_bytes()),
        Reported::Misfit(k) => Ok(format!(in alloc; "MISFIT {k}\n")?.into_bytes()),
        Reported::Weak { bound, needed } => weak_line(alloc, bound, needed),
        Reported::Taken => Ok(format!(in alloc; "TAKEN\n")?.into_bytes()),
    }
}

fn gone_line(alloc: Global, lease: Option<u32>) -> Result<Vec<u8>, AllocError>
    ensures { IfOk result (λ t. t.items ≡ lines.gone_line lease) }
{
    match lease {
        None => Ok(format!(in alloc; "NONE\n")?.into_bytes()),
        Some(lease) => Ok(format!(in alloc; "LOST {lease}\n")?.into_bytes()),
    }
}

fn expiry_line(alloc: Global, expiry: Expiry) -> Result<Vec<u8>, AllocError>
    ensures { IfOk result (λ t. t.items ≡ lines.expiry_line expiry) }
{
    match expiry {
        Expiry::Unknown => Ok(format!(in alloc; "UNKNOWN\n")?.into_bytes()),
        Expiry::NotHeld => Ok(format!(in alloc; "NOTHELD\n")?.into_bytes()),
        Expiry::Expired => Ok(format!(in alloc; "EXPIRED\n")?.into_bytes()),
    }
}

fn offered_line(alloc: Global, offered: Offered) -> Result<Vec<u8>, AllocError>
    ensures { IfOk result (λ t. t.items ≡ lines.offered_line offered) }
{
    match offered {
        Offered::OtherSize => Ok(format!(in alloc; "OTHERSIZE\n")?.into_bytes()),
        Offered::OffFixed(u, v) => off_fixed_line(alloc, u64::from(u) + 1, u64::from(v) + 1),
        Offered::NotShorter(length) => Ok(format!(in alloc; "NOTSHORTER {length}\n")?.into_bytes()),
        Offered::Better => Ok(format!(in alloc; "BETTER\n")?.into_bytes()),
    }
}

fn leased_line(alloc: Global, lease: u32, node: u32, best: u64) -> Result<Vec<u8>, AllocError>
    ensures { IfOk result (λ t. t.items ≡ lines.leased_line lease node best) }
{
    Ok(format!(in alloc; "LEASED {lease} {node} {best}\n")?.into_bytes())
}

fn weak_line(alloc: Global, bound: i128, needed: i128) -> Result<Vec<u8>, AllocError>
    ensures { IfOk result (λ t. t.items ≡ lines.weak_line bound needed) }
{
    Ok(format!(in alloc; "WEAK {bound} {needed}\n")?.into_bytes())
}

fn off_fixed_line(alloc: Global, u: u64, v: u64) -> Result<Vec<u8>, AllocError>
    ensures { IfOk result (λ t. t.items ≡ lines.off_fixed_line u v) }
{
    Ok(format!(in alloc; "OFFFIXED {u} {v}\n")?.into_bytes())
}

/// The line at the end of a tape: settled nodes, open ones, and the best tour's length.
pub(crate) fn end_line(
    alloc: Global,
    settled: u32,
    open_nodes: u32,
    best: u64,
) -> Result<Vec<u8>, AllocError>
    ensures { IfOk result (λ t. t.items ≡ lines.end_line settled open_nodes best) }
{
    Ok(format!(in alloc; "END {settled} {open_nodes} {best}\n")?.into_bytes())
}

/// The line of a fault, by its number, and of its frame.
pub(crate) fn fault_line(alloc: Global, fault: u32, frame: u64) -> Result<Vec<u8>, AllocError>
    ensures { IfOk result (λ t. t.items ≡ lines.fault_line fault frame) }
{
    Ok(format!(in alloc; "FRAME {fault} {frame}\n")?.into_bytes())
}
