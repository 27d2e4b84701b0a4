//! Each shared key, with the least pair that touches it.
ghost use Rattle.std.specs.Prelude.{◌≡◌, ◌++◌, IfOk, OnOk, map};
ghost use Rattle.std.specs.FinMap as finmap;
ghost use Rattle.audit.specs.Contents.{as_pair};
ghost use Rattle.audit.specs.Others.{named_by_keys, key_of_verdict, other_pairs, pair_of_key, pairs_from, pairs_of_keys};

use crate::sources::World;
use crate::touches::Touches;
use gtid_text::Gtid;
use journal::Entry;
use rows::{Key, Schema, keys_touched};
use std::alloc::{AllocError, Global};
use world::Verdict;

/// The key of the verdict, which is not reported again.
fn key_of_verdict(alloc: Global, verdict: &Verdict) -> Result<Touches, AllocError>
    ensures { IfOk result (λ named. named ≡ key_of_verdict verdict.now) }
{
    let mut named = Touches::new(alloc);
    if let Verdict::Shared(_, gtid, key) = verdict {
        let key = key.clone()?;
        named.put(key, gtid)?;
    }
    Ok(named)
}

/// The pair with which a key is reported, if a smaller source touched it and it was not reported already.
fn pair_of_key(
    seen: &Touches,
    named: &Touches,
    gtid: Gtid,
    key: &Key,
) -> Result<Option<Verdict>, AllocError>
    ensures { IfOk result (λ pair. pair ≡ pair_of_key gtid seen.now named.now key.now) }
{
    if named.has(key) {
        return Ok(None);
    }
    if let Some(before) = seen.get(key) {
        if before.source < gtid.source {
            let key = key.clone()?;
            return Ok(Some(Verdict::Shared(*before, gtid, key)));
        }
    }
    Ok(None)
}

/// Reports those of these keys that are shared and were not reported already, each with its pair.
fn push_pairs(
    found: &mut Vec<Verdict>,
    named: &mut Touches,
    seen: &Touches,
    gtid: Gtid,
    keys: &[Key],
) -> Result<(), AllocError>
    ensures found { OnOk result (found.new.items ≡ found.old.items ++ pairs_of_keys gtid seen.now named.old keys.now) }
    ensures named { OnOk result (named.new ≡ named_by_keys gtid seen.now named.old keys.now) }
{
    for key in keys {
        if let Some(pair) = pair_of_key(seen, named, gtid, key)? {
            found.push(pair)?;
            let key = key.clone()?;
            named.put(key, &gtid)?;
        }
    }
    Ok(())
}

/// Each shared key but for that of the verdict, with the least pair that touches it.
fn pairs_among(
    alloc: Global,
    schema: &Schema,
    entries: &[Entry],
    verdict: &Verdict,
) -> Result<Vec<Verdict>, AllocError>
    ensures { IfOk result (λ found. found.items ≡ pairs_from schema.now finmap.empty (key_of_verdict verdict.now) (map as_pair entries.now)) }
{
    let mut seen = Touches::new(alloc);
    let mut named = key_of_verdict(alloc, verdict)?;
    let mut found = Vec::new(alloc);
    for entry in entries {
        let keys = keys_touched(alloc, schema, &entry.txn)?;
        push_pairs(&mut found, &mut named, &seen, entry.gtid, &keys)?;
        seen.touch_first(&entry.gtid, keys)?;
    }
    Ok(found)
}

impl World {
    /// Each shared key but for that of the verdict, with the least pair that touches it.
    pub(crate) fn other_pairs(
        &self,
        alloc: Global,
        verdict: &Verdict,
    ) -> Result<Vec<Verdict>, AllocError>
        ensures { IfOk result (λ found. found.items ≡ other_pairs self.now verdict.now) }
    {
        pairs_among(alloc, self.rows().schema(), self.in_order(), verdict)
    }
}
