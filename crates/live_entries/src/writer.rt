// The lines of what the commands tell.
ghost use Rattle.std.specs.Prelude.{◌≡◌, ◌++◌, OnOk, codes, flat_map};
ghost use Rattle.std.specs.Fmt.{decimal};
ghost use Rattle.sig_base.specs.Printer.{quoted};
ghost use Rattle.page_model.specs.Texts.{IsSized};
ghost use Rattle.live_entries.specs.Printed.{dotted, field_text, is_traced, label_text, limit_word, line_of_drop, line_of_effect};
ghost use Rattle.live_entries.specs.Printed.{line_of_fail, line_of_fail_at, line_of_fired, line_of_log, line_of_notify, line_of_op, line_of_outcome};
ghost use Rattle.live_entries.specs.Printed.{line_of_refusal, line_of_run, line_of_state, lines_of_bytes, listed, outcome_text};
ghost use Rattle.live_entries.specs.Printed.{line_of_why, printed, reads_text, reason_text, refusal_text, seen_word, IsSizedEntry};

use crate::{
    Entry, FieldDetail, Label, LimitWord, NameList, PageBytes, PageOp, Reason, Refusal, Seen,
};
use html_out::put_bytes as put;
use page_ops::op_line;
use sig_base::{
    Fault, Name, NoMemory, Outcome, Text, Value, put_decimal, put_fault, put_quoted, put_value,
};

// Whether the entry is printed only where a trace is asked for.
fn is_traced(entry: &Entry) -> bool
    ensures { result ≡ is_traced entry.now }
{
    matches!(
        entry,
        Entry::Run(..) | Entry::Effect(..) | Entry::Cleanup(_) | Entry::Gone(_) | Entry::Fired(..)
    )
}

// The word of a limit.
fn limit_word(limit: LimitWord) -> &'static str
    ensures { result.now ≡ limit_word limit }
{
    match limit {
        LimitWord::Line => "line",
        LimitWord::Text => "text",
        LimitWord::Fields => "fields",
        LimitWord::Sources => "sources",
        LimitWord::Body => "body",
        LimitWord::Template => "template",
        LimitWord::Nodes => "nodes",
        LimitWord::Rows => "rows",
        LimitWord::Effects => "effects",
        LimitWord::Owners => "owners",
        LimitWord::Watchers => "watchers",
        LimitWord::Templates => "templates",
        LimitWord::Pages => "pages",
        LimitWord::Handlers => "handlers",
        LimitWord::Facts => "facts",
    }
}

fn put_number(out: &mut Vec<u8>, number: u128) -> Result<(), NoMemory>
    ensures { OnOk result (out.new.items ≡ out.old.items ++ decimal number) }
{
    put_decimal(out, number)
}

fn put_with_number(out: &mut Vec<u8>, rule: &[u8], number: u64) -> Result<(), NoMemory>
    ensures { OnOk result (out.new.items ≡ out.old.items ++ (rule.now ++ decimal number)) }
{
    put(out, rule)?;
    put_number(out, u128::from(number))
}

fn put_with_bytes(out: &mut Vec<u8>, rule: &[u8], bytes: &[u8]) -> Result<(), NoMemory>
    ensures { OnOk result (out.new.items ≡ out.old.items ++ (rule.now ++ bytes.now)) }
{
    put(out, rule)?;
    put(out, bytes)
}

fn put_with_word(out: &mut Vec<u8>, rule: &[u8], word: &str) -> Result<(), NoMemory>
    ensures { OnOk result (out.new.items ≡ out.old.items ++ (rule.now ++ word.now)) }
{
    put_with_bytes(out, rule, word.as_bytes())
}

// Names, each behind a blank.
fn put_listed(out: &mut Vec<u8>, names: &[Name]) -> Result<(), NoMemory>
    ensures { OnOk result (out.new.items ≡ out.old.items ++ flat_map listed names.now) }
{
    for name in names {
        put_with_word(out, b" ", name.as_str())?;
    }
    Ok(())
}

fn put_with_names(out: &mut Vec<u8>, rule: &[u8], names: &NameList) -> Result<(), NoMemory>
    ensures { OnOk result (out.new.items ≡ out.old.items ++ (rule.now ++ flat_map listed names.now)) }
{
    put(out, rule)?;
    put_listed(out, names.as_slice())
}

// The number of a rule and a text in quotes.
fn put_with_text(out: &mut Vec<u8>, rule: &[u8], text: &Text) -> Result<(), NoMemory>
    ensures { OnOk result (out.new.items ≡ out.old.items ++ (rule.now ++ quoted text.now)) }
{
    put(out, rule)?;
    put_quoted(out, text.as_str())
}

// The name of a field that isn't there, or the number of values for other fields.
fn put_field(out: &mut Vec<u8>, detail: &FieldDetail) -> Result<(), NoMemory>
    ensures { OnOk result (out.new.items ≡ out.old.items ++ field_text detail.now) }
{
    match detail {
        FieldDetail::Field(name) => put_with_word(out, b"12 ", name.as_str()),
        FieldDetail::Count(count) => put_with_number(out, b"12 ", *count),
    }
}

// The number of a refusal and its detail.
fn put_rule(out: &mut Vec<u8>, refusal: &Refusal) -> Result<(), NoMemory>
    ensures { OnOk result (out.new.items ≡ out.old.items ++ refusal_text refusal.now) }
{
    match refusal {
        Refusal::Syntax(line) => put_with_number(out, b"1 ", u64::from(*line)),
        Refusal::Unknown(name) => put_with_word(out, b"2 ", name.as_str()),
        Refusal::Taken(name) => put_with_word(out, b"3 ", name.as_str()),
        Refusal::Kind(name) => put_with_word(out, b"4 ", name.as_str()),
        Refusal::Gone(name) => put_with_word(out, b"6 ", name.as_str()),
        Refusal::Limit(limit) => put_with_word(out, b"5 ", limit_word(*limit)),
        Refusal::HostPlace(place) => put_with_number(out, b"7 ", *place),
        Refusal::HostTaken(place) => put_with_number(out, b"8 ", *place),
        Refusal::KeyTaken(key) => put_with_text(out, b"9 ", key),
        Refusal::KeyMissing(key) => put_with_text(out, b"10 ", key),
        Refusal::Place(place) => put_with_number(out, b"11 ", *place),
        Refusal::Field(detail) => put_field(out, detail),
        Refusal::NotWatched(name) => put_with_word(out, b"13 ", name.as_str()),
        Refusal::Frozen(names) => put_with_names(out, b"14", names),
        Refusal::UntrackHere(line) => put_with_number(out, b"15 ", u64::from(*line)),
        Refusal::ItHere(line) => put_with_number(out, b"16 ", u64::from(*line)),
        Refusal::VoidChild(line) => put_with_number(out, b"17 ", u64::from(*line)),
        Refusal::RawText(line) => put_with_number(out, b"18 ", u64::from(*line)),
        Refusal::Nest(line) => put_with_number(out, b"19 ", u64::from(*line)),
        Refusal::Turns => put(out, b"20"),
        Refusal::RulePlace(place) => put_with_number(out, b"21 ", *place),
        Refusal::BatchOpen => put(out, b"22"),
        Refusal::NoBatch => put(out, b"23"),
        Refusal::NoNode(node) => put_with_number(out, b"24 ", *node),
        Refusal::NoLine(line) => put_with_number(out, b"25 ", *line),
        Refusal::Late => put(out, b"26"),
        Refusal::NoRun(name) => put_with_word(out, b"27 ", name.as_str()),
    }
}

fn put_refusal(out: &mut Vec<u8>, refusal: &Refusal) -> Result<(), NoMemory>
    ensures { OnOk result (out.new.items ≡ out.old.items ++ line_of_refusal refusal.now) }
{
    put(out, b"error ")?;
    put_rule(out, refusal)?;
    put(out, b"\n")
}

// An outcome, as it stands behind a name, and the end of its line.
fn put_outcome(out: &mut Vec<u8>, outcome: &Outcome) -> Result<(), NoMemory>
    ensures { OnOk result (out.new.items ≡ out.old.items ++ outcome_text outcome.now) }
{
    match outcome {
        Outcome::Good(value) => {
            put(out, b" = ")?;
            put_value(out, value)?;
            put(out, b"\n")
        }
        Outcome::Bad(fault) => {
            put(out, b" ! ")?;
            put_fault(out, *fault)?;
            put(out, b"\n")
        }
    }
}

fn put_named(out: &mut Vec<u8>, name: &Name, outcome: &Outcome) -> Result<(), NoMemory>
    ensures { OnOk result (out.new.items ≡ out.old.items ++ line_of_outcome name.now outcome.now) }
{
    put(out, name.as_str().as_bytes())?;
    put_outcome(out, outcome)
}

// The word of a mark.
fn seen_word(seen: Seen) -> &'static str
    ensures { result.now ≡ seen_word seen }
{
    match seen {
        Seen::Clean => "clean",
        Seen::Checked => "checked",
        Seen::Dirty => "dirty",
    }
}

fn put_state(out: &mut Vec<u8>, name: &Name, seen: Seen) -> Result<(), NoMemory>
    ensures { OnOk result (out.new.items ≡ out.old.items ++ line_of_state name.now seen) }
{
    put_with_word(out, b"state ", name.as_str())?;
    put_with_word(out, b" ", seen_word(seen))?;
    put(out, b"\n")
}

// The line of a word, a name, and other names behind it.
fn put_names(out: &mut Vec<u8>, word: &[u8], name: &Name, names: &NameList) -> Result<(), NoMemory>
    ensures { OnOk result (out.new.items ≡ out.old.items ++ (word.now ++ name.now ++ flat_map listed names.now ++ codes "\n")) }
{
    put_with_word(out, word, name.as_str())?;
    put_listed(out, names.as_slice())?;
    put(out, b"\n")
}

fn put_notify(out: &mut Vec<u8>, name: &Name) -> Result<(), NoMemory>
    ensures { OnOk result (out.new.items ≡ out.old.items ++ line_of_notify name.now) }
{
    put_with_word(out, b"notify ", name.as_str())?;
    put(out, b"\n")
}

fn put_drop(out: &mut Vec<u8>, place: u64, asks: u128) -> Result<(), NoMemory>
    ensures { OnOk result (out.new.items ≡ out.old.items ++ line_of_drop place asks) }
{
    put_with_number(out, b"drop ", place)?;
    put(out, b" ")?;
    put_number(out, asks)?;
    put(out, b"\n")
}

// The names that were read, in parentheses.
fn put_reads(out: &mut Vec<u8>, reads: &NameList) -> Result<(), NoMemory>
    ensures { OnOk result (out.new.items ≡ out.old.items ++ reads_text reads.now) }
{
    let Some((first, rest)) = reads.as_slice().split_first() else {
        return put(out, b" ()");
    };
    put_with_word(out, b" (", first.as_str())?;
    put_listed(out, rest)?;
    put(out, b")")
}

fn put_run(
    out: &mut Vec<u8>,
    name: &Name,
    reads: &NameList,
    outcome: &Outcome,
) -> Result<(), NoMemory>
    ensures { OnOk result (out.new.items ≡ out.old.items ++ line_of_run name.now reads.now outcome.now) }
{
    put_with_word(out, b"run ", name.as_str())?;
    put_reads(out, reads)?;
    put_outcome(out, outcome)
}

// The numbers of children, each behind a dot.
fn put_dotted(out: &mut Vec<u8>, numbers: &[u64]) -> Result<(), NoMemory>
    ensures { OnOk result (out.new.items ≡ out.old.items ++ flat_map dotted numbers.now) }
{
    for number in numbers {
        put_with_number(out, b".", *number)?;
    }
    Ok(())
}

// A word and a label.
fn put_with_label(out: &mut Vec<u8>, word: &[u8], label: &Label) -> Result<(), NoMemory>
    ensures { OnOk result (out.new.items ≡ out.old.items ++ (word.now ++ label_text label.now)) }
{
    put_with_word(out, word, label.name.as_str())?;
    put_dotted(out, label.path.as_slice())
}

// The line of a word and a label.
fn put_labelled(out: &mut Vec<u8>, word: &[u8], label: &Label) -> Result<(), NoMemory>
    ensures { OnOk result (out.new.items ≡ out.old.items ++ (word.now ++ label_text label.now ++ codes "\n")) }
{
    put_with_label(out, word, label)?;
    put(out, b"\n")
}

fn put_log(out: &mut Vec<u8>, value: &Value) -> Result<(), NoMemory>
    ensures { OnOk result (out.new.items ≡ out.old.items ++ line_of_log value.now) }
{
    put(out, b"log ")?;
    put_value(out, value)?;
    put(out, b"\n")
}

fn put_fail(out: &mut Vec<u8>, label: &Label, fault: Fault) -> Result<(), NoMemory>
    ensures { OnOk result (out.new.items ≡ out.old.items ++ line_of_fail label.now fault) }
{
    put_with_label(out, b"fail ", label)?;
    put(out, b" ")?;
    put_fault(out, fault)?;
    put(out, b"\n")
}

fn put_effect(out: &mut Vec<u8>, label: &Label, reads: &NameList) -> Result<(), NoMemory>
    ensures { OnOk result (out.new.items ≡ out.old.items ++ line_of_effect label.now reads.now) }
{
    put_with_label(out, b"effect ", label)?;
    put_reads(out, reads)?;
    put(out, b"\n")
}

fn put_fired(out: &mut Vec<u8>, page: &Name, node: u64) -> Result<(), NoMemory>
    ensures { OnOk result (out.new.items ≡ out.old.items ++ line_of_fired page.now node) }
{
    put_with_word(out, b"fired ", page.as_str())?;
    put_with_number(out, b" ", node)?;
    put(out, b"\n")
}

fn put_fail_at(out: &mut Vec<u8>, page: &Name, node: u64, fault: Fault) -> Result<(), NoMemory>
    ensures { OnOk result (out.new.items ≡ out.old.items ++ line_of_fail_at page.now node fault) }
{
    put_with_word(out, b"fail ", page.as_str())?;
    put_with_number(out, b".", node)?;
    put(out, b" ")?;
    put_fault(out, fault)?;
    put(out, b"\n")
}

fn put_op(out: &mut Vec<u8>, name: &Name, op: &PageOp) -> Result<(), NoMemory>
    ensures text { OnOk result (out.new.items ≡ out.old.items ++ line_of_op name.now op.now) }
    ensures sized { OnOk result (IsSized op.now) }
{
    put_with_word(out, b"op ", name.as_str())?;
    put(out, b" ")?;
    op_line(out, op.as_op())?;
    put(out, b"\n")?;
    Ok(())
}

// The reason of a run, behind a blank.
fn put_reason(out: &mut Vec<u8>, reason: &Reason) -> Result<(), NoMemory>
    ensures { OnOk result (out.new.items ≡ out.old.items ++ reason_text reason.now) }
{
    match reason {
        Reason::First => put(out, b" first"),
        Reason::Cycle => put(out, b" cycle"),
        Reason::Rewired(fact) => put_with_number(out, b" rewired ", *fact),
        Reason::Changed(name, fact) => {
            put_with_word(out, b" changed ", name.as_str())?;
            put_with_number(out, b" ", *fact)
        }
        Reason::Evaluating => put(out, b" evaluating"),
    }
}

fn put_why(out: &mut Vec<u8>, name: &Name, run: u64, reason: &Reason) -> Result<(), NoMemory>
    ensures { OnOk result (out.new.items ≡ out.old.items ++ line_of_why name.now run reason.now) }
{
    put_with_word(out, b"why ", name.as_str())?;
    put_with_number(out, b" ", run)?;
    put_reason(out, reason)?;
    put(out, b"\n")
}

// A word, the name of a page, how many bytes it has, and the bytes.
fn put_bytes(out: &mut Vec<u8>, word: &[u8], name: &Name, page: &PageBytes) -> Result<(), NoMemory>
    ensures { OnOk result (out.new.items ≡ out.old.items ++ lines_of_bytes word.now name.now page.now) }
{
    let bytes = page.as_slice();
    put_with_word(out, word, name.as_str())?;
    put_with_number(out, b" ", bytes.len() as u64)?;
    put_with_bytes(out, b"\n", bytes)?;
    put(out, b"\n")
}

/// Appends the lines of an entry, each ended by LF; nothing for an entry of a trace where none is asked for.
///
/// An outcome is the name with ` = ` and the printed value, or with ` ! ` and the name of the fault. An operation is
/// `op`, the page's name and the operation's text. A page is `page`, its name and the number of its bytes, and on the next line the bytes,
/// and so is `scratch` one from scratch; a refusal is `error`, its number and its detail. How a computed stands is `state`, its name and a word; its sources are `sources`, its name and theirs; what of a watcher is pending is `pending`, its
/// name and those of the computeds. A notified watcher is `notify` and its name; a logged value is `log` and the printed value; a body that
/// failed is `fail`, the effect's label and the name of the fault; a dropped host formula is `drop`, its place and how often it was asked. Of
/// a trace are a run, `run`, the name, what it read in parentheses and its outcome; an evaluated body, `effect`, the label and what it read,
/// tracked, in parentheses; a cleanup, `cleanup` and the effect's label; an end, `gone` and the label; and a handler of an event that runs, `fired`, the page's name and the node's number. Where the body of one failed it is
/// `fail`, the page's name, a dot, the node's number and the name of the fault. A label is a name, and for a child
/// effect, behind it, the numbers of the children on the way down, each behind a dot. `sized` says what each operation of these types is:
/// its numbers are numbers, and its texts are texts.
pub fn entry_line(out: &mut Vec<u8>, entry: &Entry, trace: bool) -> Result<(), NoMemory>
    ensures text { OnOk result (out.new.items ≡ out.old.items ++ printed trace entry.now) }
    ensures sized { OnOk result (IsSizedEntry entry.now) }
{
    if is_traced(entry) && !trace {
        return Ok(());
    }
    match entry {
        Entry::Outcome(name, outcome) => put_named(out, name, outcome),
        Entry::State(name, seen) => put_state(out, name, *seen),
        Entry::Sources(name, sources) => put_names(out, b"sources ", name, sources),
        Entry::Pending(name, pending) => put_names(out, b"pending ", name, pending),
        Entry::Notify(name) => put_notify(out, name),
        Entry::Log(value) => put_log(out, value),
        Entry::Fail(label, fault) => put_fail(out, label, *fault),
        Entry::Drop(place, asks) => put_drop(out, *place, *asks),
        Entry::Op(name, op) => put_op(out, name, op),
        Entry::Page(name, page) => put_bytes(out, b"page ", name, page),
        Entry::Scratch(name, page) => put_bytes(out, b"scratch ", name, page),
        Entry::Why(name, run, reason) => put_why(out, name, *run, reason),
        Entry::Error(refusal) => put_refusal(out, refusal),
        Entry::Run(name, reads, outcome) => put_run(out, name, reads, outcome),
        Entry::Effect(label, reads) => put_effect(out, label, reads),
        Entry::Cleanup(label) => put_labelled(out, b"cleanup ", label),
        Entry::Gone(label) => put_labelled(out, b"gone ", label),
        Entry::Fired(page, node) => put_fired(out, page, *node),
        Entry::FailAt(page, node, fault) => put_fail_at(out, page, *node, *fault),
    }
}
