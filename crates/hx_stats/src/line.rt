//! Totals as a line of text.
ghost use Rattle.std.specs.Prelude.{◌≡◌, ◌++◌, IfOk, OnOk, decimal, codes};
ghost use Rattle.hx_stats.specs.Report.{report_text};

use hx_base::{NoMemory, Totals};
use itoa::Buffer;
use std::alloc::Global;

fn put_count(out: &mut Vec<u8>, label: &[u8], n: u64) -> Result<(), NoMemory>
    ensures { OnOk result (out.new.items ≡ out.old.items ++ label.now ++ decimal n) }
{
    let mut buffer = Buffer::new();
    out.extend_from_slice(label)?;
    out.extend_from_slice(buffer.format(n).as_bytes())?;
    Ok(())
}

/// The totals as a line, `open 1 park 1 take 0 over 0 care 1 close 1` for instance, with its line feed.
pub fn report(alloc: Global, totals: &Totals) -> Result<Vec<u8>, NoMemory>
    ensures line { IfOk result (λ line. line.items ≡ report_text totals.now) }
{
    let mut line = Vec::new(alloc);
    put_count(&mut line, b"open ", totals.opened)?;
    put_count(&mut line, b" park ", totals.parked)?;
    put_count(&mut line, b" take ", totals.taken)?;
    put_count(&mut line, b" over ", totals.over)?;
    put_count(&mut line, b" care ", totals.care)?;
    put_count(&mut line, b" close ", totals.closed)?;
    line.push(b'\n')?;
    Ok(line)
}
