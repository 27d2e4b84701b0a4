ghost use Rattle.std.specs.Prelude.{◌≡◌, ◌++◌, IfOk, OnOk, string_bytes};
ghost use Rattle.gtid_report.specs.Verdicts.{row_fault_name, row_fault_place, row_fault_text, does_not_apply_line};

use crate::refusal::push_number;
use gtid_text::{Gtid, write_gtid};
use rows::RowFault;
use std::alloc::{AllocError, Global};

fn row_fault_name(fault: RowFault) -> &'static str
    ensures { result.now ≡ row_fault_name fault }
{
    match fault {
        RowFault::RowMissing { change: _, key: _ } => "E10 change ",
        RowFault::RowDiffers { change: _, key: _ } => "E11 change ",
        RowFault::DuplicateKey { change: _, key: _ } => "E12 change ",
    }
}

/// The change, from 0, and the number of the key, 0 being the primary key.
fn row_fault_place(fault: RowFault) -> (u32, u32)
    ensures { result ≡ row_fault_place fault }
{
    match fault {
        RowFault::RowMissing { change, key } => (change, key),
        RowFault::RowDiffers { change, key } => (change, key),
        RowFault::DuplicateKey { change, key } => (change, key),
    }
}

/// Appends a row fault: its number, the change, from 0, and the number of the key.
pub fn push_row_fault(out: &mut String, fault: RowFault) -> Result<(), AllocError>
    ensures { OnOk result (string_bytes out.new ≡ string_bytes out.old ++ row_fault_text fault) }
{
    let (change, key) = row_fault_place(fault);
    out.push_str(row_fault_name(fault))?;
    push_number(out, u64::from(change))?;
    out.push_str(" key ")?;
    push_number(out, u64::from(key))
}

/// The printed line of a transaction that does not apply, without the line feed.
pub fn render_does_not_apply(
    alloc: Global,
    gtid: Gtid,
    fault: RowFault,
) -> Result<String, AllocError>
    ensures { IfOk result (λ line. string_bytes line ≡ does_not_apply_line gtid fault) }
{
    let mut line = String::new(alloc);
    line.push_str("does-not-apply ")?;
    write_gtid(&mut line, gtid)?;
    line.push_str(" ")?;
    push_row_fault(&mut line, fault)?;
    Ok(line)
}
