// What blocks are refused for, and at which line.

use crate::blocks::fault;
use std::alloc::Global;
use tpl_syntax::TemplateWhy;

type Row = (&'static str, usize, TemplateWhy);

// Whether each block is refused at the line and for the cause beside it.
fn all_refused(alloc: Global, rows: &[Row]) -> bool {
    for (block, at, why) in rows {
        if fault(alloc, block.as_bytes()) != Some((*at, *why)) {
            return false;
        }
    }
    true
}

#[test]
fn lines_outside_the_grammar(rt: HostRuntime) {
    let rows = [
        ("text a\ntext\ntext b\n", 1, TemplateWhy::Syntax),
        ("text a\ntext )\ntext b\n", 1, TemplateWhy::Syntax),
        ("tag @p\ntag q\nend\nend\n", 1, TemplateWhy::Syntax),
        ("text a\ntag @P\nend\n", 1, TemplateWhy::Syntax),
        ("text a\nwhen a\nend\n", 1, TemplateWhy::Syntax),
        ("text a\ntry a\ntext a\nend\n", 1, TemplateWhy::Syntax),
        ("text a\nattempt\ntext a\nend\n", 1, TemplateWhy::Syntax),
        ("text a\nset a 1\ntext b\n", 1, TemplateWhy::Syntax),
        (
            "# one\n\n tag @p\r\n  # two\n attr p 1\nend\n",
            4,
            TemplateWhy::Syntax,
        ),
    ];
    assert!(rt; all_refused(rt.alloc(), &rows));
}

#[test]
fn lines_where_they_may_not_stand(rt: HostRuntime) {
    let rows = [
        ("text a\nattr @x 1\ntext b\n", 1, TemplateWhy::Syntax),
        ("tag @p\ntext a\nattr @x 1\nend\n", 2, TemplateWhy::Syntax),
        (
            "tag @p\nattr @x 1\nattr @y 1\nattr @x 2\nend\n",
            3,
            TemplateWhy::Syntax,
        ),
        ("if a\ntext a\nelse\nelse\nend\n", 3, TemplateWhy::Syntax),
        ("try\ntext a\nelse\nelse\nend\n", 3, TemplateWhy::Syntax),
        ("try\ntag @p\nelse\nend\nend\n", 2, TemplateWhy::Syntax),
        ("try\nattr @x 1\nend\n", 1, TemplateWhy::Syntax),
        ("text a\ntry\ntext b\n", 2, TemplateWhy::Syntax),
        ("each l\nelse\nend\n", 1, TemplateWhy::Syntax),
        ("if a\ntag @p\nelse\nend\nend\n", 2, TemplateWhy::Syntax),
        ("text a\nend\ntext b\n", 1, TemplateWhy::Syntax),
        ("text a\ntag @p\ntext b\n", 2, TemplateWhy::Syntax),
    ];
    assert!(rt; all_refused(rt.alloc(), &rows));
}

#[test]
fn formulas_that_speak_of_what_is_not_there(rt: HostRuntime) {
    let rows = [
        ("text a\nif untrack(a)\nend\n", 1, TemplateWhy::UntrackHere),
        ("text a\ntext it.x\ntext b\n", 1, TemplateWhy::ItHere),
        ("text a\neach it.l\nend\n", 1, TemplateWhy::ItHere),
        (
            "each l\ntext it.x\nend\ntext it.y\n",
            3,
            TemplateWhy::ItHere,
        ),
        (
            "each l\nif it.key == a\ntext untrack(it.x)\nend\nend\n",
            2,
            TemplateWhy::UntrackHere,
        ),
        ("text sum(l, it.n) + it.n\n", 0, TemplateWhy::ItHere),
    ];
    assert!(rt; all_refused(rt.alloc(), &rows));
}

#[test]
fn children_that_an_element_may_not_have(rt: HostRuntime) {
    let rows = [
        ("tag @br\ntext \"x\"\nend\n", 1, TemplateWhy::VoidChild),
        (
            "tag @input\nattr @type \"text\"\nif a\nend\nend\n",
            2,
            TemplateWhy::VoidChild,
        ),
        ("tag @hr\ntag @p\nend\nend\n", 1, TemplateWhy::VoidChild),
        ("tag @keygen\neach l\nend\nend\n", 1, TemplateWhy::VoidChild),
        ("tag @br\ntry\nend\nend\n", 1, TemplateWhy::VoidChild),
        (
            "tag @br\ntext untrack(a)\nend\n",
            1,
            TemplateWhy::UntrackHere,
        ),
        ("tag @script\ntext a\nend\n", 1, TemplateWhy::RawText),
        (
            "tag @style\nattr @id 1\ntext \"a\" ++ \"b\"\nend\n",
            2,
            TemplateWhy::RawText,
        ),
        (
            "tag @script\ntext \"a\"\ntext \"a </b\"\nend\n",
            2,
            TemplateWhy::RawText,
        ),
        ("tag @xmp\nif a\nend\nend\n", 1, TemplateWhy::RawText),
        ("tag @style\ntry\nend\nend\n", 1, TemplateWhy::RawText),
        ("tag @plaintext\ntext 1\nend\n", 1, TemplateWhy::RawText),
    ];
    assert!(rt; all_refused(rt.alloc(), &rows));
}

#[test]
fn what_is_refused_first(rt: HostRuntime) {
    let rows = [
        ("text untrack(a)\ntext )\n", 1, TemplateWhy::Syntax),
        ("text it.x\ntext untrack(a)\n", 0, TemplateWhy::ItHere),
        ("each l\neach it.m\nend\nend\n", 1, TemplateWhy::Nest),
        (
            "each l\ntry\nelse\neach m\nend\nend\nend\n",
            3,
            TemplateWhy::Nest,
        ),
        (
            "each l\nif a\neach it.m + untrack(a)\nend\nend\nend\n",
            2,
            TemplateWhy::UntrackHere,
        ),
        (
            "each l\ntext a\nend\neach m\nif a\neach n\nend\nend\nend\n",
            5,
            TemplateWhy::Nest,
        ),
    ];
    assert!(rt; all_refused(rt.alloc(), &rows));
}
