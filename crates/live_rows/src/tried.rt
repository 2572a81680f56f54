// Templates that try lines: which part is shown, what is read for it, and what becomes of its nodes.

use crate::rows::{assert_all_print, assert_traces};
use std::test::Fail;

#[test]
fn shows_a_part_or_the_other(rt: HostRuntime) -> Result<(), Fail> {
    assert_all_print(
        &rt,
        rt.alloc(),
        &[
            // nodes of the two parts have no number in common
            (
                "cell a = 0\ncomputed z = 10 / a\ntemplate t\ntry\ntag @p\ntext z\nend\nelse\ntext \"none\"\nend\nend\nmount p t\nset a 5\nflush\nset a 0\nflush\n",
                "op p insert 0 0 (1 \"none\")\npage p 4\nnone\nop p remove 1\nop p insert 0 0 (2 p (3 \"2\"))\npage p 8\n<p>2</p>\nop p remove 2\nop p insert 0 0 (4 \"none\")\npage p 4\nnone\n",
            ),
            // a fault in a second part ends the part around it
            (
                "cell a = 0\ncomputed z = 1 / a\ntemplate t\ntry\ntry\ntext z\nelse\ntext z\nend\ntext \"tail\"\nelse\ntext \"outer\"\nend\nend\nmount p t\n",
                "op p insert 0 0 (1 \"outer\")\npage p 5\nouter\n",
            ),
            // a fault of an attribute in a row ends all rows; lines before and behind keep their nodes
            (
                "list l (n)\ninsert l 0 \"a\" (2)\ninsert l 1 \"b\" (0)\ncell t = \"x\"\ntemplate p\ntext t\ntry\neach l\ntag @li\nattr @title 6 / it.n\ntext it.n\nend\nend\nelse\ntext \"none of \" ++ count(l)\nend\ntag @p\ntext t\nend\nend\nmount m p\nput l \"b\" n 3\nflush\nset t \"y\"\nflush\nput l \"a\" n 0\nflush\nremove l \"a\"\nflush\nscratch m\n",
                "op m insert 0 0 (1 \"x\")\nop m insert 0 1 (2 \"none of 2\")\nop m insert 0 2 (3 p (4 \"x\"))\npage m 18\nxnone of 2<p>x</p>\nop m remove 2\nop m insert 0 1 (5 li title=\"3\" (6 \"2\"))\nop m insert 0 2 (7 li title=\"2\" (8 \"3\"))\npage m 49\nx<li title=\"3\">2</li><li title=\"2\">3</li><p>x</p>\nop m text 1 \"y\"\nop m text 4 \"y\"\npage m 49\ny<li title=\"3\">2</li><li title=\"2\">3</li><p>y</p>\nop m remove 5\nop m remove 7\nop m insert 0 1 (9 \"none of 2\")\npage m 18\nynone of 2<p>y</p>\nop m remove 9\nop m insert 0 1 (10 li title=\"2\" (11 \"3\"))\npage m 29\ny<li title=\"2\">3</li><p>y</p>\nscratch m 29\ny<li title=\"2\">3</li><p>y</p>\n",
            ),
            // in each row by its own
            (
                "cell c = true\ncell a = 0\ncomputed z = 1 / a\nlist l (n)\ninsert l 0 \"k\" (1)\ntemplate t\neach l\ntry\ntext it.n / a\nelse\ntry\ntext z\nend\ntext it.key\nend\nend\nend\nmount p t\nset a 1\nflush\nput l \"k\" n 5\nflush\nset a 0\nflush\n",
                "op p insert 0 0 (1 \"k\")\npage p 1\nk\nop p remove 1\nop p insert 0 0 (2 \"1\")\npage p 1\n1\nop p text 2 \"5\"\npage p 1\n5\nop p remove 2\nop p insert 0 0 (3 \"k\")\npage p 1\nk\n",
            ),
        ],
    )
}

#[test]
fn reads_no_line_behind_a_fault(rt: HostRuntime) -> Result<(), Fail> {
    let alloc = rt.alloc();
    assert_traces(
        &rt,
        alloc,
        "cell a = 0\ncomputed z = 1 / a\ncomputed w = 8\ncomputed y = 7\ntemplate t\ntry\ntext z\ntext w\nelse\ntext y\nend\nend\nmount p t\nstate w\n",
        "run z (a) ! zero\nrun y () = 7\nop p insert 0 0 (1 \"7\")\npage p 1\n7\nstate w dirty\n",
    )?;
    assert_traces(
        &rt,
        alloc,
        "cell a = 0\ncomputed z = 1 / a\ncell b = false\ncomputed w = 8\ntemplate t\ntag @div\ntry\nif b\ntext z\nelse\ntext w\nend\ntext \"tail\"\nend\ntext z\nend\nend\nmount p t\nstate w\nset b true\nflush\nstate w\nset a 1\nflush\nstate w\nsources w\nset b 7\nflush\n",
        "run w () = 8\nrun z (a) ! zero\nop p insert 0 0 (1 div (2 \"8\") (3 \"tail\") (4 \"#ERR zero\"))\npage p 25\n<div>8tail#ERR zero</div>\nstate w clean\nop p remove 2\nop p remove 3\npage p 20\n<div>#ERR zero</div>\nstate w clean\nrun z (a) = 1\nop p insert 1 0 (5 \"1\")\nop p insert 1 1 (6 \"tail\")\nop p text 4 \"1\"\npage p 17\n<div>1tail1</div>\nstate w clean\nsources w\nop p remove 5\npage p 16\n<div>tail1</div>\n",
    )?;
    Ok(())
}
