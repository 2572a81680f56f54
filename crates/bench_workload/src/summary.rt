// What running the workload came to, in five lines.
ghost use Rattle.std.specs.Prelude.{◌≡◌, ◌++◌, OnOk};
ghost use Rattle.std.specs.Fmt.{decimal};
ghost use Rattle.bench_workload.specs.Summary.{word_line, summary_text};

use sig_base::NoMemory;

/// What a run of a script came to.
#[derive(Clone, Copy)]
pub struct Counts {
    /// How many commands it had. A block is one.
    pub commands: u128,
    /// How many runs of computeds were told.
    pub runs: u128,
    /// How many operations on pages were told.
    pub ops: u128,
}

fn put(out: &mut Vec<u8>, bytes: &[u8]) -> Result<(), NoMemory>
    ensures { OnOk result (out.new.items ≡ out.old.items ++ bytes.now) }
{
    out.extend_from_slice(bytes)?;
    Ok(())
}

fn put_line(out: &mut Vec<u8>, word: &[u8], told: &[u8]) -> Result<(), NoMemory>
    ensures { OnOk result (out.new.items ≡ out.old.items ++ word_line word.now told.now) }
{
    put(out, word)?;
    put(out, b" ")?;
    put(out, told)?;
    put(out, b"\n")
}

fn put_number(out: &mut Vec<u8>, word: &[u8], number: u128) -> Result<(), NoMemory>
    ensures { OnOk result (out.new.items ≡ out.old.items ++ word_line word.now (decimal number)) }
{
    let digits = number.to_string(*out.allocator())?;
    put_line(out, word, digits.as_bytes())
}

/// Appends the five lines that tell what the workload of so many rounds came to, each ended by LF: `bench` and the rounds, `commands`,
/// `runs` and `ops` with their counts, and `page` with the bytes of the page at the end.
pub fn put_summary(
    out: &mut Vec<u8>,
    rounds: u32,
    counts: Counts,
    page: &[u8],
) -> Result<(), NoMemory>
    ensures { OnOk result (out.new.items ≡ out.old.items ++ summary_text rounds counts page.now) }
{
    put_number(out, b"bench", u128::from(rounds))?;
    put_number(out, b"commands", counts.commands)?;
    put_number(out, b"runs", counts.runs)?;
    put_number(out, b"ops", counts.ops)?;
    put_line(out, b"page", page)
}
