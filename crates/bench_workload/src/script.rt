// The script of the generated workload.
ghost use Rattle.std.specs.Prelude.{◌≡◌, ◌≤◌, ◌<◌, ◌+◌, ◌*◌, ◌++◌, ◌∷◌, [], length, flat_map, IfOk, OnOk};
ghost use Rattle.std.specs.Fmt.{decimal};
ghost use Rattle.bench_workload.specs.Workload.{ended, first_lines, flush_lines, line_of_set, lines_of_round, switch_lines, workload_text};

use sig_base::NoMemory;
use std::alloc::Global;

// The cells, the computeds over them, the template and its page.
const FIRST_LINES: &str = "cell a = 0\n\
    cell s = true\n\
    computed b = a + 1\n\
    computed c = a * 2\n\
    computed d = if s then b + c else b\n\
    template t\n\
    tag @p\n\
    text d\n\
    end\n\
    end\n\
    mount p t\n";

fn put(out: &mut Vec<u8>, bytes: &[u8]) -> Result<(), NoMemory>
    ensures { OnOk result (out.new.items ≡ out.old.items ++ bytes.now) }
{
    out.extend_from_slice(bytes)?;
    Ok(())
}

#[tactic(auto, unfolding(crate::specs::Workload::first_lines))]
fn put_first(out: &mut Vec<u8>) -> Result<(), NoMemory>
    ensures { OnOk result (out.new.items ≡ out.old.items ++ flat_map ended first_lines) }
{
    put(out, FIRST_LINES.as_bytes())
}

fn put_digit(out: &mut Vec<u8>, digit: u64) -> Result<(), NoMemory>
    requires { digit < 10 }
    ensures { OnOk result (out.new.items ≡ out.old.items ++ (48 + digit) ∷ []) }
{
    out.push(b'0' + digit as u8)?;
    Ok(())
}

// Puts a number of one digit or two, as `{}` prints it.
fn put_short(out: &mut Vec<u8>, value: u64) -> Result<(), NoMemory>
    requires { value < 100 }
    ensures { OnOk result (out.new.items ≡ out.old.items ++ decimal value) }
{
    if value < 10 {
        put_digit(out, value)?;
        return Ok(());
    }
    put_digit(out, value / 10)?;
    put_digit(out, value % 10)?;
    Ok(())
}

fn put_set(out: &mut Vec<u8>, value: u64) -> Result<(), NoMemory>
    requires { value < 100 }
    ensures { OnOk result (out.new.items ≡ out.old.items ++ ended (line_of_set value)) }
{
    put(out, b"set a ")?;
    put_short(out, value)?;
    put(out, b"\n")
}

fn put_switch(out: &mut Vec<u8>, round: u32) -> Result<(), NoMemory>
    ensures { OnOk result (out.new.items ≡ out.old.items ++ flat_map ended (switch_lines round)) }
{
    if round % 6 == 3 {
        return put(out, b"set s false\n");
    }
    if round % 6 == 0 {
        return put(out, b"set s true\n");
    }
    Ok(())
}

fn put_flush(out: &mut Vec<u8>, round: u32) -> Result<(), NoMemory>
    ensures { OnOk result (out.new.items ≡ out.old.items ++ flat_map ended (flush_lines round)) }
{
    if round % 4 == 0 {
        return put(out, b"flush\n");
    }
    Ok(())
}

fn put_round(out: &mut Vec<u8>, round: u32) -> Result<(), NoMemory>
    ensures { OnOk result (out.new.items ≡ out.old.items ++ flat_map ended (lines_of_round round)) }
{
    put_set(out, 37 * (round as u64) % 100)?;
    put_switch(out, round)?;
    put_flush(out, round)?;
    Ok(())
}

/// The script of the workload of so many rounds, each line ended by LF.
///
/// First a cell `a`, a switch `s`, three computeds over them, and a page that shows the last of these. In round `i` the cell is set to
/// `37 * i % 100`; in every third round the switch is turned, and in every fourth the page is brought up to date, as once more at the end.
pub fn bench_script(alloc: Global, rounds: u32) -> Result<Vec<u8>, NoMemory>
    ensures text { IfOk result (λ script. script.items ≡ workload_text rounds) }
    ensures short { IfOk result (λ script. length script.items ≤ 148 + 27 * rounds) }
{
    let mut script = Vec::with_capacity(alloc, 148 + 27 * rounds as usize)?;
    put_first(&mut script)?;
    for done in 0..rounds {
        put_round(&mut script, done + 1)?;
    }
    put(&mut script, b"flush\n")?;
    Ok(script)
}
