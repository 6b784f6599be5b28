//! The lines that a run writes.
ghost use Rattle.std.specs.Prelude.{◌≡◌, ◌++◌, codes, decimal, IfOk, OnOk};
ghost use Rattle.hx_replay.specs.Texts.{numbers_text, overrun_text};

use hx_base::NoMemory;
use itoa::Buffer;
use std::alloc::Global;

fn put(out: &mut Vec<u8>, text: &[u8]) -> Result<(), NoMemory>
    ensures { OnOk result (out.new.items ≡ out.old.items ++ text.now) }
{
    out.extend_from_slice(text)?;
    Ok(())
}

fn put_number(out: &mut Vec<u8>, n: u64) -> Result<(), NoMemory>
    ensures { OnOk result (out.new.items ≡ out.old.items ++ decimal n) }
{
    let mut buffer = Buffer::new();
    put(out, buffer.format(n).as_bytes())
}

/// The line of two numbers behind this word.
pub(crate) fn numbers_line(
    alloc: Global,
    word: &[u8],
    first: u64,
    second: u64,
) -> Result<Vec<u8>, NoMemory>
    ensures { IfOk result (λ text. text.items ≡ numbers_text word.now first second) }
{
    let mut out = Vec::new(alloc);
    put(&mut out, word)?;
    put_number(&mut out, first)?;
    put(&mut out, b" ")?;
    put_number(&mut out, second)?;
    put(&mut out, b"\n")?;
    Ok(out)
}

/// The line of a replay that made as many turns as may be.
pub(crate) fn turns_line(alloc: Global, turns: u64) -> Result<Vec<u8>, NoMemory>
    ensures { IfOk result (λ text. text.items ≡ overrun_text turns) }
{
    let mut out = Vec::new(alloc);
    put(&mut out, b"overrun ")?;
    put_number(&mut out, turns)?;
    put(&mut out, b"\n")?;
    Ok(out)
}
