//! What a check prints of a configuration.
ghost use Rattle.std.specs.Prelude.{◌≡◌, ◌++◌, codes, decimal, IfOk, OnOk};
ghost use Rattle.std.specs.List.{flat_map};
ghost use Rattle.hx_startup.specs.Starts.{passed_line, check_lines, config_line};

use hx_base::NoMemory;
use itoa::Buffer;
use std::alloc::Global;

fn put(out: &mut Vec<u8>, text: &[u8]) -> Result<(), NoMemory>
    ensures { OnOk result (out.new.items ≡ out.old.items ++ text.now) }
{
    out.extend_from_slice(text)?;
    Ok(())
}

fn put_number(out: &mut Vec<u8>, n: u32) -> Result<(), NoMemory>
    ensures { OnOk result (out.new.items ≡ out.old.items ++ decimal n) }
{
    let mut buffer = Buffer::new();
    put(out, buffer.format(n).as_bytes())
}

#[tactic(auto, unfolding(crate::specs::Starts::passed_line))]
fn put_passed(out: &mut Vec<u8>, line: u32) -> Result<(), NoMemory>
    ensures { OnOk result (out.new.items ≡ out.old.items ++ passed_line line) }
{
    put(out, b"passed over ")?;
    put_number(out, line)?;
    put(out, b"\n")
}

fn put_all_passed(out: &mut Vec<u8>, lines: &[u32]) -> Result<(), NoMemory>
    ensures { OnOk result (out.new.items ≡ out.old.items ++ flat_map passed_line lines.now) }
{
    for line in lines {
        put_passed(out, *line)?;
    }
    Ok(())
}

/// A line for each line that was passed over, and that the configuration holds.
///
/// # Errors
/// `NoMemory`.
pub fn check_text(alloc: Global, passed_over: &[u32]) -> Result<Vec<u8>, NoMemory>
    ensures { IfOk result (λ text. text.items ≡ check_lines passed_over.now) }
{
    let mut out = Vec::new(alloc);
    put_all_passed(&mut out, passed_over)?;
    put(&mut out, b"config holds\n")?;
    Ok(out)
}

/// The line of a configuration's first fault.
pub(crate) fn fault_text(alloc: Global, line: u32, rule: u8) -> Result<Vec<u8>, NoMemory>
    ensures { IfOk result (λ text. text.items ≡ config_line line rule) }
{
    let mut out = Vec::new(alloc);
    put(&mut out, b"config ")?;
    put_number(&mut out, line)?;
    put(&mut out, b" ")?;
    put_number(&mut out, u32::from(rule))?;
    put(&mut out, b"\n")?;
    Ok(out)
}
