// Writes the lines of watchers.
ghost use Rattle.std.specs.Prelude.{◌≡◌, ◌∷◌, ◌++◌, OnOk, Some, codes};
ghost use Rattle.live_cmd.specs.declared.command.Try.TheVariants as tried;
ghost use Rattle.live_cmd.specs.Grammar as rows;
ghost use Rattle.live_writing.specs.Printer.{ended_line, watcher_line};

use line_forms::{put_fixed, put_name, put_names, put_value};
use live_cmd::{NameList, Try};
use sig_base::{Name, NoMemory, Scalar};

// A watcher, and the word of what it tries.
fn put_front(out: &mut Vec<u8>, name: &Name, word: &[u8]) -> Result<(), NoMemory>
    ensures { OnOk result (out.new.items ≡ out.old.items ++ (codes "watcher" ++ 32 ∷ (name.now ++ (codes " tries" ++ 32 ∷ word.now)))) }
{
    out.extend_from_slice(b"watcher")?;
    put_name(out, name)?;
    put_fixed(out, b"tries")?;
    put_fixed(out, word)
}

fn put_tries_get(out: &mut Vec<u8>, name: &Name, read: &Name) -> Result<(), NoMemory>
    ensures { OnOk result (out.new.items ≡ out.old.items ++ ended_line (rows.tries_get, (name.now, (read.now, tt)))) }
{
    put_front(out, name, b"get")?;
    put_name(out, read)?;
    out.push(b'\n')?;
    Ok(())
}

fn put_tries_set(
    out: &mut Vec<u8>,
    name: &Name,
    cell: &Name,
    value: &Scalar,
) -> Result<(), NoMemory>
    ensures { OnOk result (out.new.items ≡ out.old.items ++ ended_line (rows.tries_set, (name.now, (cell.now, (value.now, tt))))) }
{
    put_front(out, name, b"set")?;
    put_name(out, cell)?;
    put_value(out, value)?;
    out.push(b'\n')?;
    Ok(())
}

fn put_tries_watch(
    out: &mut Vec<u8>,
    name: &Name,
    watcher: &Name,
    signals: &NameList,
) -> Result<(), NoMemory>
    ensures { OnOk result (out.new.items ≡ out.old.items ++ ended_line (rows.tries_watch, (name.now, (watcher.now, (signals.now, tt))))) }
{
    put_front(out, name, b"watch")?;
    put_name(out, watcher)?;
    put_names(out, signals.as_slice())?;
    out.push(b'\n')?;
    Ok(())
}

fn put_tries_unwatch(
    out: &mut Vec<u8>,
    name: &Name,
    watcher: &Name,
    signal: &Name,
) -> Result<(), NoMemory>
    ensures { OnOk result (out.new.items ≡ out.old.items ++ ended_line (rows.tries_unwatch, (name.now, (watcher.now, (signal.now, tt))))) }
{
    put_front(out, name, b"unwatch")?;
    put_name(out, watcher)?;
    put_name(out, signal)?;
    out.push(b'\n')?;
    Ok(())
}

fn put_alone(out: &mut Vec<u8>, name: &Name) -> Result<(), NoMemory>
    ensures { OnOk result (out.new.items ≡ out.old.items ++ ended_line (rows.watcher, (name.now, tt))) }
{
    out.extend_from_slice(b"watcher")?;
    put_name(out, name)?;
    out.push(b'\n')?;
    Ok(())
}

fn put_trying(out: &mut Vec<u8>, name: &Name, tried: &Try) -> Result<(), NoMemory>
    ensures { OnOk result (out.new.items ≡ out.old.items ++ ended_line (watcher_line name.now (Some tried.now))) }
{
    match tried {
        Try::Get(read) => put_tries_get(out, name, read),
        Try::Set(cell, value) => put_tries_set(out, name, cell, value),
        Try::Watch(watcher, signals) => put_tries_watch(out, name, watcher, signals),
        Try::Unwatch(watcher, signal) => put_tries_unwatch(out, name, watcher, signal),
    }
}

/// `watcher W [tries CMD]`
pub fn put_watcher(out: &mut Vec<u8>, name: &Name, tries: &Option<Try>) -> Result<(), NoMemory>
    ensures { OnOk result (out.new.items ≡ out.old.items ++ ended_line (watcher_line name.now tries.now)) }
{
    match tries {
        None => put_alone(out, name),
        Some(tried) => put_trying(out, name, tried),
    }
}

/// `watch W a b ..`
pub fn put_watch(out: &mut Vec<u8>, name: &Name, signals: &NameList) -> Result<(), NoMemory>
    ensures { OnOk result (out.new.items ≡ out.old.items ++ ended_line (rows.watch, (name.now, (signals.now, tt)))) }
{
    out.extend_from_slice(b"watch")?;
    put_name(out, name)?;
    put_names(out, signals.as_slice())?;
    out.push(b'\n')?;
    Ok(())
}

/// `unwatch W a`
pub fn put_unwatch(out: &mut Vec<u8>, name: &Name, signal: &Name) -> Result<(), NoMemory>
    ensures { OnOk result (out.new.items ≡ out.old.items ++ ended_line (rows.unwatch, (name.now, (signal.now, tt)))) }
{
    out.extend_from_slice(b"unwatch")?;
    put_name(out, name)?;
    put_name(out, signal)?;
    out.push(b'\n')?;
    Ok(())
}
