// Runs a script over a source and a sink in memory.
ghost use Rattle.std.specs.Prelude.{◌<◌};

use host_samples::{Cascade, Clamp, Pick, lend};
use live_run::{Status, run_live};
use sig_base::{Value, alike};
use sig_host::{EqualsRule, HostFormula};
use sig_io::{MemSink, MemSource};
use std::alloc::{AllocError, Global};
use std::test::Fail;

/// The script of the first page: two cells, a template of both, a page, a set and a flush.
pub(crate) const FIRST_PAGE: &str =
    "cell a = 1\ncell b = \"x<y\"\ntemplate t\ntext a\ntext b\nend\nmount p t\nset a 2\nflush\n";

/// What it prints.
pub(crate) const FIRST_OUTPUT: &str =
    "op p insert 0 0 (1 \"1\")\nop p insert 0 1 (2 \"x<y\")\npage p 7\n1x&lt;y\nop p text 1 \"2\"\npage p 7\n2x&lt;y\n";

/// A to-do page as its user has it: a list on two pages, of which one ends with its owner.
pub(crate) const TODO: &str =
    "owner left\nowner right\nlist todos (title, done)\ncell filter = \"all\"\ninsert todos 0 \"a\" (\"Milk\", false)\ninsert todos 1 \"b\" (\"Tea\", true)\ninsert todos 2 \"c\" (\"Bread\", false)\ncomputed shown = keep(todos, if filter == \"all\" then true else it.done == (filter == \"done\"))\ncomputed open = count(keep(todos, not it.done))\ntemplate todo\ntag @section\nattr @class \"todo\"\ntag @ul\neach shown\ntag @li\nattr @data-key it.key\nattr @hidden false\ntext it.title\nend\nend\nend\nif count(shown) == 0\ntag @p\ntext \"Nothing here.\"\nend\nend\ntag @p\ntext open ++ \" open\"\nend\nend\nend\nmount main todo in left\nmount side todo in right\nput todos \"a\" done true\nset filter \"open\"\nflush\ndispose right\nremove todos \"c\"\nflush\n";

/// What it prints.
pub(crate) const TODO_OUTPUT: &str =
    "op main insert 0 0 (1 section class=\"todo\" (2 ul (3 li data-key=\"a\" (4 \"Milk\")) (5 li data-key=\"b\" (6 \"Tea\")) (7 li data-key=\"c\" (8 \"Bread\"))) (9 p (10 \"2 open\")))\npage main 132\n<section class=\"todo\"><ul><li data-key=\"a\">Milk</li><li data-key=\"b\">Tea</li><li data-key=\"c\">Bread</li></ul><p>2 open</p></section>\nop side insert 0 0 (1 section class=\"todo\" (2 ul (3 li data-key=\"a\" (4 \"Milk\")) (5 li data-key=\"b\" (6 \"Tea\")) (7 li data-key=\"c\" (8 \"Bread\"))) (9 p (10 \"2 open\")))\npage side 132\n<section class=\"todo\"><ul><li data-key=\"a\">Milk</li><li data-key=\"b\">Tea</li><li data-key=\"c\">Bread</li></ul><p>2 open</p></section>\nop main remove 3\nop main remove 5\nop main text 10 \"1 open\"\npage main 81\n<section class=\"todo\"><ul><li data-key=\"c\">Bread</li></ul><p>1 open</p></section>\nop side remove 3\nop side remove 5\nop side text 10 \"1 open\"\npage side 81\n<section class=\"todo\"><ul><li data-key=\"c\">Bread</li></ul><p>1 open</p></section>\nop main remove 7\nop main insert 1 1 (11 p (12 \"Nothing here.\"))\nop main text 10 \"0 open\"\npage main 74\n<section class=\"todo\"><ul></ul><p>Nothing here.</p><p>0 open</p></section>\n";

// The room of a sink that never fails, in bytes.
const MOST_HELD: usize = 1_048_576;

/// A run: its status and what the sink holds after it.
#[derive(Drop)]
pub(crate) struct Run {
    pub(crate) status: Status,
    pub(crate) held: Vec<u8>,
}

/// The words of a command line, which blanks separate.
fn words_of(alloc: Global, line: &str) -> Result<Vec<String>, AllocError> {
    let mut words = Vec::new(alloc);
    for word in line.split(' ') {
        words.push(String::from_str(alloc, word)?)?;
    }
    Ok(words)
}

/// Runs what a line of words asks for between this source and this sink, with the host formulas and the rules of the program.
pub(crate) fn run_between(
    alloc: Global,
    line: &str,
    source: &mut MemSource,
    sink: &mut MemSink,
) -> Result<Status, Fail> {
    let words = words_of(alloc, line)?;
    let mut hosts: Vec<Box<dyn HostFormula>> = Vec::new(alloc);
    lend(&mut hosts, Box::new(alloc, Pick::new())?)?;
    lend(&mut hosts, Box::new(alloc, Cascade::new())?)?;
    lend(&mut hosts, Box::new(alloc, Clamp::new())?)?;
    lend(&mut hosts, Box::new(alloc, Pick::new())?)?;
    lend(&mut hosts, Box::new(alloc, Cascade::new())?)?;
    lend(&mut hosts, Box::new(alloc, Clamp::new())?)?;
    let mut rules = Vec::new(alloc);
    rules.push(EqualsRule {
        slack: 0,
        call: Box::new(alloc, |a: &Value, b: &Value| alike(0, a, b))?,
    })?;
    rules.push(EqualsRule {
        slack: 5,
        call: Box::new(alloc, |a: &Value, b: &Value| alike(5, a, b))?,
    })?;
    Ok(run_live(alloc, &words, source, sink, hosts, rules))
}

/// Runs a script with the host formulas and the rules of the program. The source gives at most `most` bytes a call and fails at the calls of `takes`; the sink takes as many
/// and fails at the calls of `puts`.
pub(crate) fn run_over(
    alloc: Global,
    line: &str,
    script: &[u8],
    most: usize,
    takes: Vec<u64>,
    puts: Vec<u64>,
) -> Result<Run, Fail>
    requires { 0 < most }
{
    let bytes = script.to_vec(alloc)?;
    let mut source = MemSource::new(bytes, most, takes);
    let mut sink = MemSink::new(alloc, MOST_HELD, most, puts)?;
    let status = run_between(alloc, line, &mut source, &mut sink)?;
    Ok(Run {
        status,
        held: sink.held().to_vec(alloc)?,
    })
}

/// Runs a script over a source and a sink that never fail.
pub(crate) fn run_whole(alloc: Global, line: &str, script: &[u8]) -> Result<Run, Fail> {
    run_over(alloc, line, script, 4096, Vec::new(alloc), Vec::new(alloc))
}
