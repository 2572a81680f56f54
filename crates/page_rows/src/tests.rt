// Operations as worked scripts print them, and the pages that they lead to.

use crate::lines::assert_pages;
use std::test::Fail;

#[test]
fn escapes_differ_in_texts_and_attributes(rt: HostRuntime) -> Result<(), Fail> {
    let steps = [(
        "insert 0 0 (1 p title=\"a<b>&\\\"c\u{a0}\" (2 \"a<b>&\\\"c\u{a0}\"))",
        "<p title=\"a&lt;b&gt;&amp;&quot;c&nbsp;\">a&lt;b&gt;&amp;\"c&nbsp;</p>",
    )];
    assert_pages(&rt, rt.alloc(), &steps)
}

#[test]
fn faults_are_texts(rt: HostRuntime) -> Result<(), Fail> {
    let steps = [
        (
            "insert 0 0 (1 \"#ERR overflow\")\ninsert 0 1 (2 \"#ERR overflow\")",
            "#ERR overflow#ERR overflow",
        ),
        ("text 1 \"2\"", "2#ERR overflow"),
    ];
    assert_pages(&rt, rt.alloc(), &steps)
}

#[test]
fn rows_move(rt: HostRuntime) -> Result<(), Fail> {
    let steps = [
        (
            "insert 0 0 (1 ul (2 li (3 \"A\")) (4 li (5 \"B\")) (6 li (7 \"C\")))",
            "<ul><li>A</li><li>B</li><li>C</li></ul>",
        ),
        (
            "remove 4\nmove 6 0\ninsert 1 2 (8 li (9 \"D\"))\ntext 3 \"Z\"",
            "<ul><li>C</li><li>Z</li><li>D</li></ul>",
        ),
        (
            "move 2 0\ntext 3 \"Q\"",
            "<ul><li>Q</li><li>C</li><li>D</li></ul>",
        ),
    ];
    assert_pages(&rt, rt.alloc(), &steps)
}

#[test]
fn branches_and_attributes_come_and_go(rt: HostRuntime) -> Result<(), Fail> {
    let steps = [
        (
            "insert 0 0 (1 \"yes\")\ninsert 0 1 (2 input disabled=\"\")",
            "yes<input disabled=\"\">",
        ),
        ("unattr 2 disabled", "yes<input>"),
    ];
    assert_pages(&rt, rt.alloc(), &steps)
}

#[test]
fn a_list_of_things_to_do(rt: HostRuntime) -> Result<(), Fail> {
    let steps = [
        (
            "insert 0 0 (1 section class=\"todo\" (2 ul (3 li data-key=\"a\" (4 \"Milk\")) (5 li data-key=\"b\" (6 \"Tea\")) (7 li data-key=\"c\" (8 \"Bread\"))) (9 p (10 \"2 open\")))",
            "<section class=\"todo\"><ul><li data-key=\"a\">Milk</li><li data-key=\"b\">Tea</li><li data-key=\"c\">Bread</li></ul><p>2 open</p></section>",
        ),
        (
            "remove 3\nremove 5\ntext 10 \"1 open\"",
            "<section class=\"todo\"><ul><li data-key=\"c\">Bread</li></ul><p>1 open</p></section>",
        ),
        (
            "remove 7\ninsert 1 1 (11 p (12 \"Nothing here.\"))\ntext 10 \"0 open\"",
            "<section class=\"todo\"><ul></ul><p>Nothing here.</p><p>0 open</p></section>",
        ),
    ];
    assert_pages(&rt, rt.alloc(), &steps)
}

#[test]
fn a_list_of_things_to_do_side(rt: HostRuntime) -> Result<(), Fail> {
    let steps = [
        (
            "insert 0 0 (1 section class=\"todo\" (2 ul (3 li data-key=\"a\" (4 \"Milk\")) (5 li data-key=\"b\" (6 \"Tea\")) (7 li data-key=\"c\" (8 \"Bread\"))) (9 p (10 \"2 open\")))",
            "<section class=\"todo\"><ul><li data-key=\"a\">Milk</li><li data-key=\"b\">Tea</li><li data-key=\"c\">Bread</li></ul><p>2 open</p></section>",
        ),
        (
            "remove 3\nremove 5\ntext 10 \"1 open\"",
            "<section class=\"todo\"><ul><li data-key=\"c\">Bread</li></ul><p>1 open</p></section>",
        ),
    ];
    assert_pages(&rt, rt.alloc(), &steps)
}

#[test]
fn a_script_is_written_as_it_is(rt: HostRuntime) -> Result<(), Fail> {
    let steps = [(
        "insert 0 0 (1 script (2 \"if (a < b) {}\"))",
        "<script>if (a < b) {}</script>",
    )];
    assert_pages(&rt, rt.alloc(), &steps)
}

#[test]
fn pages_with_tried_parts(rt: HostRuntime) -> Result<(), Fail> {
    let steps = [
        ("insert 0 0 (1 \"none\")", "none"),
        ("remove 1\ninsert 0 0 (2 p (3 \"2\"))", "<p>2</p>"),
        ("remove 2\ninsert 0 0 (4 \"none\")", "none"),
    ];
    assert_pages(&rt, rt.alloc(), &steps)
}

#[test]
fn pages_with_handlers(rt: HostRuntime) -> Result<(), Fail> {
    let steps = [
        (
            "insert 0 0 (1 div (2 button (3 \"0\")))",
            "<div><button>0</button></div>",
        ),
        ("text 3 \"1\"", "<div><button>1</button></div>"),
    ];
    assert_pages(&rt, rt.alloc(), &steps)
}
