// Computeds of host formulas: what they come to, when they run, and how often they were asked when they are dropped.

use crate::rows::{assert_all_print, assert_all_trace, assert_prints};
use std::alloc::{AllocError, Global};
use std::test::Fail;

#[test]
fn traces_host_formulas(rt: HostRuntime) -> Result<(), Fail> {
    assert_all_trace(
        &rt,
        rt.alloc(),
        &[
            // it reads what it asks for, and its count is told when it is left; its place stays taken
            (
                "cell s = true\ncell p = 1\ncell q = 2\ncomputed h = host 0 (s, p, q)\nget h\nset s false\nget h\nrewire h = 7\ncomputed k = host 0 (s, p, q)\ncomputed m = host 6 (s)\nget h\n",
                "run h (s p) = 1\nh = 1\nrun h (s q) = 2\nh = 2\ndrop 0 6\nerror 8 0\nerror 7 6\nrun h () = 7\nh = 7\n",
            ),
            // a disposal tells the drop before the end, also of one that was never asked
            (
                "cell a = 1\ncomputed h = host 2 (a)\ndispose h\ncomputed k = host 1 (a)\nget k\nget k\ndispose k\nrewire k = 1\n",
                "drop 2 0\ngone h\nrun k (a) = 1\nk = 1\nk = 1\ndrop 1 2\ngone k\nerror 6 k\n",
            ),
            // a rewiring to another formula of the host, and to the one that it has
            (
                "cell a = false\ncell b = 2\ncomputed h = host 1 (a, b)\nget h\nrewire h = host 4 (b)\nget h\nrewire h = host 4 (a)\nrewire h = host 1 (b)\nget h\n",
                "run h (a b) = 2\nh = 2\ndrop 1 3\nrun h (b) = 2\nh = 2\nerror 8 4\nerror 8 1\nh = 2\n",
            ),
            // a page of one, brought up to date where it comes to something else
            (
                "cell x = 5\ncell lo = 1\ncell hi = 9\ncomputed c = host 2 (x, lo, hi)\ntemplate t\ntext c\nend\nmount p t\nset x 20\nset hi 5\nflush\nset x 2\nflush\ndispose c\nflush\n",
                "run c (x lo hi) = 5\nop p insert 0 0 (1 \"5\")\npage p 1\n5\nrun c (x lo hi) = 5\nrun c (x lo hi) = 2\nop p text 1 \"2\"\npage p 1\n2\ndrop 2 12\ngone c\nop p text 1 \"#ERR gone\"\npage p 9\n#ERR gone\n",
            ),
        ],
    )
}

#[test]
fn prints_sample_formulas(rt: HostRuntime) -> Result<(), Fail> {
    assert_all_print(
        &rt,
        rt.alloc(),
        &[
            (
                "cell f = false\ncell x = 40\ncell hi = 9\ncell lo = 1\ncomputed c = host 1 (f, x, hi)\ncomputed d = host 2 (x, lo, hi)\ncomputed e = host 5 (x, hi, lo)\ncomputed s = host 3 (x)\nget c\nget d\nget e\nget s\n",
                "c = 40\nd = 9\ne ! host 2\ns ! kind\n",
            ),
            // a slot that it wasn't given, and the fault of its own
            (
                "cell a = 0\ncell t = true\ncell lo = 9\ncell hi = 1\ncomputed s = host 0 (t)\ncomputed r = host 2 (a, lo, hi)\nget s\nget r\n",
                "s ! slot\nr ! host 2\n",
            ),
            // a fault that it reads ends it, and an argument that it doesn't read may be anything
            (
                "cell s = true\ncell p = 1\ncomputed bad = 1 / 0\ncomputed h = host 0 (s, p, bad)\nget h\nset s false\nget h\ndispose s\nget h\n",
                "h = 1\nh ! zero\nh ! gone\n",
            ),
            // no arguments, the same twice, a sign, and names in their order before places
            (
                "cell a = 1\ncomputed n = host 0 ()\nget n\ncomputed t = host 1 (a, a)\ncomputed t = host -1 (a)\ncomputed t = host 9 (zz)\ncomputed a = host 9 (zz)\ncomputed t = host 9 (a)\ncomputed t = host 18446744073709551615 (a)\nrewire zz = host 9 (a)\nget t\n",
                "n ! slot\nerror 1 4\nerror 1 5\nerror 2 zz\nerror 3 a\nerror 7 9\nerror 1 9\nerror 2 zz\nerror 2 t\n",
            ),
        ],
    )
}

// For each number below the count: what stands before it, the number, and what stands behind it.
fn numbered(alloc: Global, count: u32, before: &str, after: &str) -> Result<String, AllocError> {
    let mut lines = String::new(alloc);
    for number in 0..count {
        lines.push_str(before)?;
        lines.push_str(number.to_string(alloc)?.as_str())?;
        lines.push_str(after)?;
    }
    Ok(lines)
}

// Cells, and computeds of host formulas that have 65 or 64 of them.
fn slotted(alloc: Global) -> Result<String, AllocError> {
    let cells = numbered(alloc, 65, "cell c", " = 1\n")?;
    let most = numbered(alloc, 63, "c", ", ")?;
    format!(in alloc;
        "{cells}computed h = host 0 ({most}c63, c64)\ncomputed h = host 9 ({most}c63, c64)\ncomputed h = host 2 ({most}c63)\nget h\nrewire h = host 1 ({most}c63, c64)\n"
    )
}

// The most slots of a host formula, reached and passed by one.
#[test]
fn bounds_a_host_formula(rt: HostRuntime) -> Result<(), Fail> {
    let script = slotted(rt.alloc())?;
    assert_prints(
        &rt,
        rt.alloc(),
        script.as_str(),
        "error 5 sources\nerror 5 sources\nh = 1\nerror 5 sources\n",
    )
}
