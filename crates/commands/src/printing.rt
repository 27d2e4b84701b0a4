//! The lines of rows, made by several threads.
ghost use Rattle.std.specs.Prelude.{◌≡◌, ◌++◌, IfOk, string_bytes};
ghost use Rattle.std.specs.Thread.{IsSync};
ghost use Rattle.rows.specs.Listing.{all_shown, rows_of};
ghost use Rattle.gtid_report.specs.State.{rows_text};

use crate::pieces::Text;
use gtid_report::render_lent_rows;
use rows::{Key, Row, Schema};
use std::alloc::{AllocError, Global};
use std::thread::{Threads, join};

/// Fewer rows are printed by one thread.
const LEAST_ROWS: usize = 8_192;

/// A text, and after it the line of each row of these tables, in the order of the list. The list is split in two `halvings` times, and each half is printed
/// on a thread of its own if one can be started. What each prints is a piece of its own.
pub(crate) fn render_beside<R: Threads + Sync>(
    rt: &R,
    alloc: Global,
    text: String,
    schema: &Schema,
    list: &[(&Key, &Row)],
    halvings: u8,
) -> Result<Text, AllocError>
    ensures { IfOk result (λ all. all ≡ string_bytes text ++ rows_text schema.now (rows_of (all_shown list.now))) }
{
    if halvings == 0 || list.len() < LEAST_ROWS {
        let mut text = text;
        render_lent_rows(&mut text, schema, list)?;
        return Ok(Text::of(alloc, text));
    }
    let left = halvings - 1;
    let (front, back) = list.split_at(list.len() / 2);
    let (first, second) = join(
        rt,
        move || -> Result<Text, AllocError>
            requires { IsSync R.row }
            ensures { IfOk result (λ all. all ≡ string_bytes text ++ rows_text schema.entry.now (rows_of (all_shown front.entry.now))) }
        { render_beside(rt, alloc, text, schema, front, left) },
        || -> Result<Text, AllocError>
            requires { IsSync R.row }
            ensures { IfOk result (λ all. all ≡ rows_text schema.entry.now (rows_of (all_shown back.entry.now))) }
        { render_beside(rt, alloc, String::new(alloc), schema, back, left) },
    );
    let mut all = first?;
    let rest = second?;
    all.append(rest)?;
    Ok(all)
}
