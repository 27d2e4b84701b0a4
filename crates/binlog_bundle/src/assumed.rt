//! What is assumed of a bundle of logs, as lines of the bundle: what was granted of its channels, its head and its rows, what of the opening set
//! the servers of channels hadn't executed, which logs may be damaged unseen, and for which statements an operator answers.
ghost use Rattle.std.specs.Prelude.{◌≡◌, ◌++◌, ◌∷◌, [], IfOk, OnOk, IfErr};
ghost use Rattle.std.specs.FinSet as set;
ghost use Rattle.gtid_set.specs.Full.{IsFaultOf};
ghost use Rattle.gtid_set.specs.Runs.{canonical};
ghost use Rattle.binlog_bundle.specs.Lines.{with_line_feed};
ghost use Rattle.binlog_bundle.specs.Assumed.{executed_line, checksums_line, opening_line, statements_line, opening_lines, checksums_lines, executed_lines, statements_lines, assumed_of, references_text, rows_text, text_of, IsAssumeText, IsSaidBefore, IsPartFault};

use crate::grants::Grants;
use gtid_set::{GtidSet, SetFault};
use row_images::ByteString;
use std::alloc::{AllocError, Global};

/// A line of what is assumed of a channel. Lines come in the order of a bundle's: by their kinds, and within a kind by their bytes.
#[derive(PartialEq, Eq, PartialOrd, Ord, Drop)]
pub struct AssumedLine {
    /// The place of its kind: 0 for `executed`, 1 for `checksums`, 2 for `opening`, 3 for `statements`.
    pub rank: u32,
    pub text: ByteString,
}

/// The line of this kind, whose last word is the channel.
fn channel_line(
    alloc: Global,
    rank: u32,
    kind: &[u8],
    channel: &[u8],
) -> Result<AssumedLine, AllocError>
    ensures { IfOk result (λ line. line ≡ record { rank = rank; text = kind.now ++ channel.now }) }
{
    let mut line = Vec::new(alloc);
    line.extend_from_slice(kind)?;
    line.extend_from_slice(channel)?;
    let text = ByteString::new(line)?;
    Ok(AssumedLine { rank, text })
}

/// The line that says that nobody said what the server of a channel had executed.
fn executed_line(alloc: Global, channel: &[u8]) -> Result<AssumedLine, AllocError>
    ensures { IfOk result (λ line. line ≡ executed_line channel.now) }
{
    channel_line(alloc, 0, b"assume executed ", channel)
}

/// The line that says that damage in the log of a channel couldn't be seen.
fn checksums_line(alloc: Global, channel: &[u8]) -> Result<AssumedLine, AllocError>
    ensures { IfOk result (λ line. line ≡ checksums_line channel.now) }
{
    channel_line(alloc, 1, b"assume checksums ", channel)
}

/// The line of this kind, whose last words are the channel and GTIDs of its log.
fn gtids_line(
    alloc: Global,
    rank: u32,
    kind: &[u8],
    channel: &[u8],
    gtids: &GtidSet,
) -> Result<AssumedLine, AllocError>
    ensures { IfOk result (λ line. line ≡ record { rank = rank; text = kind.now ++ (channel.now ++ (32 ∷ canonical gtids.now)) }) }
{
    let set = gtids.to_text(alloc)?;
    let mut line = Vec::new(alloc);
    line.extend_from_slice(kind)?;
    line.extend_from_slice(channel)?;
    line.push(b' ')?;
    line.extend_from_slice(set.as_bytes())?;
    let text = ByteString::new(line)?;
    Ok(AssumedLine { rank, text })
}

/// The line that says which part of the opening set the server of a channel hadn't executed.
fn opening_line(alloc: Global, channel: &[u8], part: &GtidSet) -> Result<AssumedLine, AllocError>
    ensures { IfOk result (λ line. line ≡ opening_line channel.now part.now) }
{
    gtids_line(alloc, 2, b"assume opening ", channel, part)
}

/// The line that says for the statements of which transactions of a channel an operator answers.
fn statements_line(
    alloc: Global,
    channel: &[u8],
    gtids: &GtidSet,
) -> Result<AssumedLine, AllocError>
    ensures { IfOk result (λ line. line ≡ statements_line channel.now gtids.now) }
{
    gtids_line(alloc, 3, b"assume statements ", channel, gtids)
}

/// Adds a line.
fn add(lines: &mut Vec<AssumedLine>, line: AssumedLine) -> Result<(), AllocError>
    ensures { OnOk result (lines.new.items ≡ lines.old.items ++ line ∷ []) }
{
    lines.push(line)?;
    Ok(())
}

/// Adds the line that says which part of the opening set the server of a channel hadn't executed, if there is one.
fn assume_opening(
    alloc: Global,
    lines: &mut Vec<AssumedLine>,
    channel: &[u8],
    opened: &GtidSet,
    executed: &GtidSet,
) -> Result<(), SetFault>
    ensures ok { OnOk result (lines.new.items ≡ lines.old.items ++ opening_lines channel.now opened.now executed.now) }
    ensures fault { IfErr result (λ fault. IsFaultOf fault (set.difference opened.now executed.now)) }
{
    if opened.is_subset(executed) {
        return Ok(());
    }
    match opened.subtract(alloc, executed) {
        Ok(part) => {
            add(lines, opening_line(alloc, channel, &part)?)?;
            Ok(())
        }
        Err(fault) => Err(fault),
    }
}

/// Adds what is assumed of a channel, by its name and what its server had executed.
fn assume_executed(
    alloc: Global,
    lines: &mut Vec<AssumedLine>,
    channel: &[u8],
    opened: &GtidSet,
    executed: &Option<GtidSet>,
) -> Result<(), SetFault>
    ensures ok { OnOk result (lines.new.items ≡ lines.old.items ++ executed_lines channel.now opened.now executed.now) }
    ensures fault { IfErr result (λ fault. IsPartFault fault opened.now executed.now) }
{
    match executed {
        Some(executed) => assume_opening(alloc, lines, channel, opened, executed),
        None => {
            add(lines, executed_line(alloc, channel)?)?;
            Ok(())
        }
    }
}

/// Adds the line that says that damage in the log of a channel couldn't be seen, if that is so.
fn assume_checksums(
    alloc: Global,
    lines: &mut Vec<AssumedLine>,
    channel: &[u8],
    is_unchecked: bool,
) -> Result<(), AllocError>
    ensures { OnOk result (lines.new.items ≡ lines.old.items ++ checksums_lines channel.now is_unchecked) }
{
    if is_unchecked {
        add(lines, checksums_line(alloc, channel)?)?;
    }
    Ok(())
}

/// Adds the line that says for the statements of which transactions of a channel an operator answers, if there are any.
fn assume_statements(
    alloc: Global,
    lines: &mut Vec<AssumedLine>,
    channel: &[u8],
    gtids: &GtidSet,
) -> Result<(), AllocError>
    ensures { OnOk result (lines.new.items ≡ lines.old.items ++ statements_lines channel.now gtids.now) }
{
    if !gtids.is_subset(&GtidSet::empty(alloc)) {
        add(lines, statements_line(alloc, channel, gtids)?)?;
    }
    Ok(())
}

/// Adds what is assumed of a channel but of its statements.
fn assume_log(
    alloc: Global,
    lines: &mut Vec<AssumedLine>,
    channel: &[u8],
    opened: &GtidSet,
    executed: &Option<GtidSet>,
    is_unchecked: bool,
) -> Result<(), SetFault>
    ensures ok { OnOk result (lines.new.items ≡ lines.old.items ++ (checksums_lines channel.now is_unchecked ++ executed_lines channel.now opened.now executed.now)) }
    ensures fault { IfErr result (λ fault. IsPartFault fault opened.now executed.now) }
{
    match assume_checksums(alloc, lines, channel, is_unchecked) {
        Ok(()) => assume_executed(alloc, lines, channel, opened, executed),
        Err(_) => Err(SetFault::Memory),
    }
}

/// Adds what is assumed of a channel, by its name, by what its server had executed, by whether damage in its log couldn't be seen, and by the
/// transactions for whose statements an operator answers.
pub fn assume_channel(
    alloc: Global,
    lines: &mut Vec<AssumedLine>,
    channel: &[u8],
    opened: &GtidSet,
    executed: &Option<GtidSet>,
    is_unchecked: bool,
    statements: &GtidSet,
) -> Result<(), SetFault>
    ensures ok { OnOk result (lines.new.items ≡ lines.old.items
        ++ assumed_of channel.now opened.now executed.now is_unchecked statements.now) }
    ensures fault { IfErr result (λ fault. IsPartFault fault opened.now executed.now) }
{
    match assume_log(alloc, lines, channel, opened, executed, is_unchecked) {
        Ok(()) => {}
        Err(fault) => return Err(fault),
    }
    assume_statements(alloc, lines, channel, statements)?;
    Ok(())
}

/// Puts a line after a text.
fn put_line(text: &mut Vec<u8>, line: &[u8]) -> Result<(), AllocError>
    ensures { OnOk result (text.new.items ≡ text.old.items ++ with_line_feed line.now) }
{
    text.extend_from_slice(line)?;
    text.push(b'\n')?;
    Ok(())
}

/// Puts lines after a text.
fn put_lines(text: &mut Vec<u8>, lines: &[AssumedLine]) -> Result<(), AllocError>
    ensures { OnOk result (text.new.items ≡ text.old.items ++ text_of lines.now) }
{
    for line in lines {
        put_line(text, line.text.as_slice())?;
    }
    Ok(())
}

/// Puts the line that says that references aren't looked at, if the head's lines of foreign keys were passed over.
fn put_references(text: &mut Vec<u8>, passed_over: bool) -> Result<(), AllocError>
    ensures { OnOk result (text.new.items ≡ text.old.items ++ references_text passed_over) }
{
    if passed_over {
        put_line(text, b"assume references")?;
    }
    Ok(())
}

/// Puts the line that says that the opening rows aren't known, if that is granted.
fn put_rows(text: &mut Vec<u8>, grants: Grants) -> Result<(), AllocError>
    ensures { OnOk result (text.new.items ≡ text.old.items ++ rows_text grants) }
{
    if grants.no_rows {
        put_line(text, b"assume rows")?;
    }
    Ok(())
}

/// The text of all lines: those of channels, in their order, and then that of references and that of rows.
fn assume_text(
    alloc: Global,
    grants: Grants,
    lines: Vec<AssumedLine>,
    passed_over: bool,
) -> Result<Vec<u8>, AllocError>
    ensures { IfOk result (λ text. IsAssumeText grants lines.items passed_over text.items) }
{
    let mut lines = lines;
    lines.sort_unstable();
    let mut text = Vec::new(alloc);
    put_lines(&mut text, &lines)?;
    put_references(&mut text, passed_over)?;
    put_rows(&mut text, grants)?;
    Ok(text)
}

/// The text of all lines, where the last line of a bundle comes next; no text, where nothing does.
pub fn said_before(
    alloc: Global,
    grants: Grants,
    left: &[u8],
    lines: Vec<AssumedLine>,
    passed_over: bool,
) -> Result<Vec<u8>, AllocError>
    ensures { IfOk result (λ text. IsSaidBefore grants left.now lines.items passed_over text.items) }
{
    if left.is_empty() {
        return Ok(Vec::new(alloc));
    }
    assume_text(alloc, grants, lines, passed_over)
}
