// Workloads whose text is known from elsewhere, and their summaries.
use bench_workload::{Counts, bench_script, put_summary};
use std::test::Fail;

// What is known of workloads, each behind the lines that all begin with.
const FIRST: &str =
    "cell a = 0\ncell s = true\ncomputed b = a + 1\ncomputed c = a * 2\ncomputed d = if s then b + c else b\n\
    template t\ntag @p\ntext d\nend\nend\nmount p t\n";

const ONE: &str = "set a 37\nflush\n";

const FOUR: &str = "set a 37\nset a 74\nset a 11\nset s false\nset a 48\nflush\nflush\n";

const TWELVE: &str =
    "set a 37\nset a 74\nset a 11\nset s false\nset a 48\nflush\nset a 85\nset a 22\nset s true\nset a 59\n\
    set a 96\nflush\nset a 33\nset s false\nset a 70\nset a 7\nset a 44\nset s true\nflush\nflush\n";

const HUNDRED: &str =
    "set a 37\nset a 74\nset a 11\nset s false\nset a 48\nflush\nset a 85\nset a 22\nset s true\nset a 59\n\
    set a 96\nflush\nset a 33\nset s false\nset a 70\nset a 7\nset a 44\nset s true\nflush\nset a 81\nset a 18\n\
    set a 55\nset s false\nset a 92\nflush\nset a 29\nset a 66\nset s true\nset a 3\nset a 40\nflush\nset a 77\n\
    set s false\nset a 14\nset a 51\nset a 88\nset s true\nflush\nset a 25\nset a 62\nset a 99\nset s false\n\
    set a 36\nflush\nset a 73\nset a 10\nset s true\nset a 47\nset a 84\nflush\nset a 21\nset s false\nset a 58\n\
    set a 95\nset a 32\nset s true\nflush\nset a 69\nset a 6\nset a 43\nset s false\nset a 80\nflush\nset a 17\n\
    set a 54\nset s true\nset a 91\nset a 28\nflush\nset a 65\nset s false\nset a 2\nset a 39\nset a 76\n\
    set s true\nflush\nset a 13\nset a 50\nset a 87\nset s false\nset a 24\nflush\nset a 61\nset a 98\n\
    set s true\nset a 35\nset a 72\nflush\nset a 9\nset s false\nset a 46\nset a 83\nset a 20\nset s true\nflush\n\
    set a 57\nset a 94\nset a 31\nset s false\nset a 68\nflush\nset a 5\nset a 42\nset s true\nset a 79\n\
    set a 16\nflush\nset a 53\nset s false\nset a 90\nset a 27\nset a 64\nset s true\nflush\nset a 1\nset a 38\n\
    set a 75\nset s false\nset a 12\nflush\nset a 49\nset a 86\nset s true\nset a 23\nset a 60\nflush\nset a 97\n\
    set s false\nset a 34\nset a 71\nset a 8\nset s true\nflush\nset a 45\nset a 82\nset a 19\nset s false\n\
    set a 56\nflush\nset a 93\nset a 30\nset s true\nset a 67\nset a 4\nflush\nset a 41\nset s false\nset a 78\n\
    set a 15\nset a 52\nset s true\nflush\nset a 89\nset a 26\nset a 63\nset s false\nset a 0\nflush\nflush\n";

#[test]
fn scripts_are_those_of_a_plain_program(rt: HostRuntime) -> Result<(), Fail> {
    for (rounds, want) in [(1, ONE), (4, FOUR), (12, TWELVE), (100, HUNDRED)] {
        let script = bench_script(rt.alloc(), rounds)?;
        assert!(rt; script.starts_with(FIRST.as_bytes()), "at {rounds}");
        assert!(rt; script.ends_with(want.as_bytes()), "at {rounds}");
        assert_eq!(rt; script.len(), FIRST.len() + want.len(), "at {rounds}");
    }
    Ok(())
}

#[test]
fn summaries_are_those_of_a_plain_program(rt: HostRuntime) -> Result<(), Fail> {
    for (rounds, commands, runs, ops, page, want) in [
        (
            4,
            14,
            5,
            2,
            "<p>49</p>",
            "bench 4\ncommands 14\nruns 5\nops 2\npage <p>49</p>\n",
        ),
        (
            12,
            27,
            11,
            4,
            "<p>133</p>",
            "bench 12\ncommands 27\nruns 11\nops 4\npage <p>133</p>\n",
        ),
    ] {
        let mut out = Vec::new(rt.alloc());
        put_summary(
            &mut out,
            rounds,
            Counts {
                commands,
                runs,
                ops,
            },
            page.as_bytes(),
        )?;
        assert_eq!(rt; out.as_slice(), want.as_bytes(), "at {rounds}");
    }
    Ok(())
}
