//! The text on two channels that bring two transactions in opposite orders.
ghost use Rattle.std.specs.Prelude.{◌≡◌, ◌++◌, ◌<◌, ◌^◌, OnOk, length, map};
ghost use Rattle.fault_places.specs.Orders.{warning, inverted_pair, inverted_text};

use crate::channels::put_label_at;
use crate::lines::put;
use crate::orders::{InvertedPair, inverted_pair};
use crate::verdict_text::put_bare;
use std::alloc::{AllocError, Global};
use txn_journal::{Bundle, BundleChannel};

/// Appends the names of the two channels, and what may happen.
fn put_warning(
    out: &mut Vec<u8>,
    channels: &[BundleChannel],
    found: &InvertedPair,
) -> Result<(), AllocError>
    ensures { OnOk result (out.new.items ≡ out.old.items ++ warning channels.now found.now) }
{
    put(out, "  ")?;
    put_label_at(out, channels, found.first)?;
    put(out, " and ")?;
    put_label_at(out, channels, found.second)?;
    put(
        out,
        " preserve commit order and have these two transactions in opposite orders: a server with several workers and replica_preserve_commit_order=ON may hang there\n",
    )
}

/// Appends the warning and the places of both transactions, if a pair was found.
fn put_found(
    alloc: Global,
    out: &mut Vec<u8>,
    channels: &[BundleChannel],
    found: &Option<InvertedPair>,
    lines: &[&[u8]],
) -> Result<(), AllocError>
    requires { length lines.now < 2 ^ 63 }
    ensures { OnOk result (out.new.items ≡ out.old.items ++ inverted_text (map (λ x. x.now) lines.now) channels.now found.now) }
{
    let Some(found) = found else {
        return Ok(());
    };
    put_warning(out, channels, found)?;
    put_bare(alloc, out, &found.inversion.earlier, lines)?;
    put_bare(alloc, out, &found.inversion.later, lines)
}

/// Appends the warning and the places for the first pair of channels that preserve commit order and bring two transactions in opposite
/// orders, if there is one.
pub(crate) fn put_inverted(
    alloc: Global,
    out: &mut Vec<u8>,
    bundle: &Bundle,
    lines: &[&[u8]],
) -> Result<(), AllocError>
    requires { length lines.now < 2 ^ 63 }
    ensures { OnOk result (out.new.items ≡ out.old.items ++ inverted_text (map (λ x. x.now) lines.now) bundle.now.channels (inverted_pair bundle.now)) }
{
    let found = inverted_pair(alloc, bundle)?;
    put_found(alloc, out, bundle.channels(), &found, lines)
}
